// What a notice asks of the codes that it does not list (document 01, "Effective days").
#![tactic(auto)]

ghost use Rattle.std.specs.Prelude.{◌≡◌};
ghost use Rattle.closing.specs.Closings.{is_marked, closes_by, closed_anyway, closed_range};

use country_code::{Marks, Stretch};
use effect::Plan;
use notice_header::Kind;

// Whether a notice closes the codes with keys in a stretch that it does not list: all of them, or none.
#[derive(Clone, Copy, PartialEq, Eq)]
pub struct ClosedRange {
    pub keys: Stretch,
    pub closed: bool,
}

// The codes that a notice closes alike whatever their countries: all or none, where it is full or an update; else an empty range,
// which no key is in, so that the first key asks for its own. A plan with no kind closes none.
#[tactic(auto, unfolding(crate::specs::Closings::closed_anyway))]
pub fn closed_anyway(plan: Plan) -> ClosedRange
    ensures { result ≡ closed_anyway plan }
{
    let (high, closed) = match plan.kind {
        Some(Kind::Full) => (dial_code::KEYS_END, true),
        Some(Kind::Update) => (dial_code::KEYS_END, false),
        Some(Kind::Partial | Kind::Replacement(_)) | None => (0, false),
    };
    ClosedRange {
        keys: Stretch { low: 0, high },
        closed,
    }
}

// What a notice asks of the codes that it does not list: its plan, and the marks of a partial notice's countries.
#[derive(Clone, Copy)]
pub struct Closings<'a> {
    pub plan: Plan,
    pub marks: &'a Marks,
}

// Whether a country is marked.
#[tactic(auto, unfolding(crate::specs::Closings::is_marked))]
fn is_marked(marks: &Marks, country: u64) -> bool
    ensures { result ≡ is_marked marks.now country }
{
    marks.get(country as usize).is_some_and(|&mark| mark == 1)
}

impl Closings<'_> {
    // Whether the notice closes a code that it does not list.
    #[tactic(auto, unfolding(crate::specs::Closings::closes_by))]
    fn closes(&self, key: u64) -> bool
        ensures { result ≡ closes_by self.now.plan self.now.marks.now key }
    {
        let marks = self.marks;
        let country = country_code::country_of_key(key);
        match self.plan.kind {
            Some(Kind::Full) => true,
            Some(Kind::Partial) => country.is_some_and(|country| is_marked(marks, country)),
            Some(Kind::Update) | None => false,
            Some(Kind::Replacement(named)) => country == Some(named),
        }
    }

    // The codes with the first three places of one, which have its country.
    #[tactic(auto, unfolding(crate::specs::Closings::closed_range))]
    pub fn closed_range(&self, key: u64) -> ClosedRange
        ensures { result ≡ closed_range self.now.plan self.now.marks.now key }
    {
        ClosedRange {
            keys: country_code::stretch_of(key),
            closed: self.closes(key),
        }
    }
}
