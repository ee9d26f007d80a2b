// A line's status and rate (document 01, "Notice layout").
#![tactic(auto)]

ghost use Rattle.std.specs.Prelude.{◌≡◌};
ghost use Rattle.varint.specs.Ranged.{read_ranged};
ghost use Rattle.line_terms.specs.TermsRule.{status_number, status_of, most_seconds, read_increments, read_rate, read_terms};

use rate::{Offer, Price, Rate};
use refusal::{Read, Refusal};

// A line's status.
#[derive(Clone, Copy, PartialEq, Eq)]
pub enum Status {
    Delete = 0,
    Block = 1,
    Rate = 2,
}

// The number of a status.
impl From<Status> for u64 {
    ghost from_gives = { λ status number. number ≡ status_number status };

    fn from(status: Status) -> u64 {
        status as u64
    }
}

// The status of a number.
impl TryFrom<u64> for Status {
    type Error = Refusal;

    ghost try_from_gives = { λ number status. status ≡ status_of number };

    fn try_from(number: u64) -> Result<Self, Refusal> {
        match number {
            0 => Ok(Status::Delete),
            1 => Ok(Status::Block),
            2 => Ok(Status::Rate),
            _ => Err(Refusal::UnknownKind),
        }
    }
}

const MOST_SECONDS: u64 = u8::MAX as u64;

// An increment in seconds.
#[tactic(auto, using(varint::proofs::Told::ranged_facts))]
fn read_seconds(s: &[u8], at: usize) -> Read<u8>
    ensures { result ≡ read_ranged s.now at 1 most_seconds }
{
    let (seconds, next) = varint::read_ranged(s, at, 1, MOST_SECONDS)?;
    Ok((seconds as u8, next))
}

// A price's increments, and the offer that it makes with them.
#[tactic(auto, unfolding(crate::specs::TermsRule::read_increments))]
fn read_increments(price: Price, s: &[u8], at: usize) -> Read<Offer>
    ensures { result ≡ read_increments price s.now at }
{
    let (first, after_first) = read_seconds(s, at)?;
    let (next, end) = read_seconds(s, after_first)?;
    match price {
        Price::Open(rate) => Ok((Offer::Open { rate, first, next }, end)),
        Price::Block => Ok((Offer::Blocked, end)),
    }
}

// A rate's decimals, mantissa and increments, as the offer that they make. The decimals are in range where a price is asked for, so
// that there is none only where the mantissa is out of range.
#[tactic(auto, unfolding(crate::specs::TermsRule::read_rate))]
fn read_rate(s: &[u8], at: usize) -> Read<Offer>
    ensures { result ≡ read_rate s.now at }
{
    let (decimals, after_decimals) = varint::read_ranged(s, at, 0, rate::MOST_DECIMALS)?;
    let (mantissa, end) = varint::read_field(s, after_decimals)?;
    let price = Rate::new(mantissa, decimals).ok_or(Refusal::OutOfRange)?;
    read_increments(price, s, end)
}

// A line's status, and its rate where it has one.
#[tactic(auto, unfolding(crate::specs::TermsRule::read_terms))]
pub fn read_terms(s: &[u8], at: usize) -> Read<Offer>
    ensures { result ≡ read_terms s.now at }
{
    let (number, next) = varint::read_field(s, at)?;
    match Status::try_from(number)? {
        Status::Delete => Ok((Offer::Closed, next)),
        Status::Block => Ok((Offer::Blocked, next)),
        Status::Rate => read_rate(s, next),
    }
}
