// What a notice asks of each of its lines (document 01, "Effective days").
#![tactic(auto)]

ghost use Rattle.std.specs.Prelude.{◌≡◌};
ghost use Rattle.effect.specs.Lines.{found_in, raises, effective_by, change_by};

use book_words::Entry;
use notice_header::Kind;
use notice_line::Line;
use rate::Offer;

// `kind` is none for a number that is no kind's; `noticed` where every line waits for the floor; `closing` is the day on which
// unlisted codes close.
#[derive(Clone, Copy)]
pub struct Plan {
    pub kind: Option<Kind>,
    pub received: u64,
    pub floor: u64,
    pub noticed: bool,
    pub closing: u64,
}

// Whether an offer is an increase over the one found for its code: a delete or a block always is, a rate if it is above the open
// rate found.
fn is_increase(old: &[u64], key: u64, day: u64, offer: Offer) -> bool
    ensures { result ≡ raises (found_in old.now key day) offer }
{
    match offer {
        Offer::Closed | Offer::Blocked => true,
        Offer::Open { rate, .. } => match longest_match::best_offer(old, key, day).offer {
            Offer::Closed | Offer::Blocked => false,
            Offer::Open { rate: standing, .. } => standing < rate,
        },
    }
}

// The effective day of a line, against the book before its notice.
#[tactic(auto, unfolding(crate::specs::Lines::effective_by))]
fn effective_day(old: &[u64], plan: Plan, line: Line) -> u64
    ensures { result ≡ effective_by plan (found_in old.now) line }
{
    let wanted = plan.received.max(line.listed_day());
    if plan.noticed || is_increase(old, line.key, wanted, line.offer) {
        return wanted.max(plan.floor);
    }
    wanted
}

// A line's change of its code: key, effective day, offer word.
#[tactic(auto, unfolding(crate::specs::Lines::change_by))]
pub fn change_of(old: &[u64], plan: Plan, line: Line) -> Entry
    ensures { result ≡ change_by plan (found_in old.now) line }
{
    Entry {
        key: line.key,
        day: effective_day(old, plan, line),
        offer: u64::from(line.offer),
    }
}
