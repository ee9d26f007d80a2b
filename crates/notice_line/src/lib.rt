// One line of a price notice (document 01, "Notice layout").
#![tactic(auto)]

ghost use Rattle.std.specs.Prelude.{◌≡◌};
ghost use Rattle.notice_line.specs.LineRule.{read_listed, listed_day, read_line, line_at};

use calendar::Day;
use rate::Offer;
use refusal::{Read, Refusal};

// A line: its code's key, what it offers from its effective day on (closed for a delete), and its last field as sent: the
// listed day plus one, or 0 for none. It stays a number, which the next line's is held to and a writer sends as it is.
#[derive(Clone, Copy, PartialEq, Eq)]
pub struct Line {
    pub key: u64,
    pub offer: Offer,
    pub listed: u64,
}

impl Line {
    // The listed day, 0 where the line lists none: no received day is before that, so that the later of the two needs no case.
    pub fn listed_day(self) -> u64
        ensures { result ≡ listed_day self.listed }
    {
        self.listed.saturating_sub(1)
    }
}

// A line's last field, in a replacement that of the line before.
#[tactic(auto, using(crate::proofs::LineLaws::listed_steps))]
fn read_listed(named: Option<u64>, before: Option<Line>, s: &[u8], at: usize) -> Read<u64>
    ensures { result ≡ read_listed named before s.now at }
{
    let (listed, next) = varint::read_ranged(s, at, 0, Day::LAST.0 + 1)?;
    if named.is_some() && before.is_some_and(|line| line.listed != listed) {
        return Err(Refusal::DaysDiffer);
    }
    Ok((listed, next))
}

// The line at the front of a part of a notice, with how many bytes it takes. A replacement names the country of its lines;
// `before` is the line before. They stay two: a notice names one country, and each line has another before it.
#[tactic(auto, unfolding(crate::specs::LineRule::read_line))]
pub fn read_line(named: Option<u64>, before: Option<Line>, s: &[u8]) -> Read<Line>
    ensures { result ≡ read_line named before s.now }
{
    let (key, after_code) = line_code::read_code(named, before.map_or(0, |line| line.key), s, 0)?;
    let (offer, after_terms) = line_terms::read_terms(s, after_code)?;
    let (listed, end) = read_listed(named, before, s, after_terms)?;
    Ok((Line { key, offer, listed }, end))
}

// The line at a place of a checked notice, with the place after it: read by itself, against no country and no line before it.
#[tactic(auto, using(crate::proofs::LineLaws::at_end, crate::proofs::LineLaws::line_spans), unfolding(crate::specs::LineRule::line_at))]
pub fn line_at(notice: &[u8], at: usize) -> Read<Line>
    ensures { result ≡ line_at notice.now at }
{
    let Some(rest) = notice.get(at..) else {
        return Err(Refusal::BytesEnd);
    };
    let (line, size) = read_line(None, None, rest)?;
    Ok((line, at + size))
}
