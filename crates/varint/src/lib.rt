// Numbers in groups of seven bits (document 01, "Notice layout"), read at a position.
// In the trade: unsigned LEB128 of at most nine groups, in its shortest form only.
#![tactic(auto)]

ghost use Rattle.std.specs.Prelude.{◌≡◌};
ghost use Rattle.varint.specs.Reading.{read_number};
ghost use Rattle.varint.specs.Ranged.{HeldIn, read_ranged};

use refusal::{Read, Refusal};

// At most so many groups.
pub const MOST_GROUPS: usize = 9;

// The number at a position of a slice. Slice and position stay two: each reading answers with the place after it, for the next.
#[tactic(auto, using(crate::proofs::Model::reading))]
pub fn read_number(s: &[u8], at: usize) -> Read<u64>
    ensures { result ≡ read_number s.now at }
{
    let Some(rest) = s.get(at..) else {
        return Err(Refusal::BytesEnd);
    };
    let mut place: u64 = 1;
    let mut sum: u64 = 0;
    // No plainer as a walk over the bytes: after it, their end would have to be told from a ninth group that goes on.
    for i in 0..MOST_GROUPS {
        let Some(&byte) = rest.get(i) else {
            return Err(Refusal::BytesEnd);
        };
        let group = u64::from(byte);
        if group < 128 {
            if group == 0 && place != 1 {
                return Err(Refusal::NotShortest);
            }
            return Ok((sum + place * group, at + i + 1));
        }
        sum += place * (group - 128);
        place *= 128;
    }
    Err(Refusal::NotShortest)
}

// The number at a position of a slice, the short way where it has one group, as most fields do: that much is compiled into its
// callers, which all of `read_number` is too long for. With `read_number` alone a full notice takes a tenth longer.
#[tactic(auto, using(crate::proofs::Model::one_group))]
pub fn read_field(s: &[u8], at: usize) -> Read<u64>
    ensures { result ≡ read_number s.now at }
{
    match s.get(at) {
        Some(&byte) if byte < 128 => Ok((u64::from(byte), at + 1)),
        _ => read_number(s, at),
    }
}

// A number from least to most, else 4, as an error of the kind that the reading has; an error is handed on. As one `RangeInclusive`
// least and most would be no plainer: one that has been walked is over.
pub fn in_range<E: From<Refusal>>(
    read: Result<(u64, usize), E>,
    least: u64,
    most: u64,
) -> Result<(u64, usize), E>
    ensures { HeldIn E.from_gives read least most result }
{
    let (n, next) = read?;
    if n < least || most < n {
        return Err(E::from(Refusal::OutOfRange));
    }
    Ok((n, next))
}

// The number at a position, from least to most: 1, 2, then 4.
#[tactic(auto, unfolding(crate::specs::Ranged::read_ranged), using(crate::proofs::Ranges::held_is))]
pub fn read_ranged(s: &[u8], at: usize, least: u64, most: u64) -> Read<u64>
    ensures { result ≡ read_ranged s.now at least most }
{
    in_range(read_field(s, at), least, most)
}
