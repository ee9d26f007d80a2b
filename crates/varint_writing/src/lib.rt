// Numbers in groups of seven bits (document 01, "Notice layout"), written at a position.
#![tactic(auto)]

ghost use Rattle.std.specs.Prelude.{◌≡◌, true, ◌+◌, ◌*◌, ◌^◌, ◌<◌, ◌≤◌, leb, length};
ghost use Rattle.std.proofs.lemmas.List.Edits.{sets};
ghost use Rattle.varint.specs.Reading.{most_groups};
ghost use Rattle.varint_encoding.specs.Encoding.{encode};
ghost use Rattle.varint_encoding.specs.Several.{encode_all, encodable_all};
ghost use Rattle.varint_writing.specs.Writing.{answer_all, leaves_all};

// Why nothing was written: there is no room for all of the numbers, or one is too large to have an encoding.
#[derive(Clone, Copy, PartialEq, Eq)]
pub enum WriteError {
    NoRoom,
    TooLarge,
}

// Whether so many bytes from a position on stay within so much room.
fn fits(room: usize, at: usize, size: usize) -> bool
    ensures { result ≡ leb (at + size) room }
{
    at <= room && size <= room - at
}

// Writes a number where there is room for it, and gives the position after it.
#[tactic(auto, using(varint_encoding::proofs::Groups::single, varint_encoding::proofs::Groups::some_byte, varint_encoding::proofs::Groups::more), unfolding(varint_encoding::specs::Encoding::encode))]
fn put_number(out: &mut [u8], at: usize, n: u64) -> usize
    requires { (n < 2 ^ 63) × (at + length (encode n) ≤ length out.old) }
    ensures value { result ≡ at + length (encode n) }
    ensures after { out.new ≡ sets out.old at (encode n) }
{
    // The value that is left tells where its groups end: a count of them before would take it apart twice.
    let mut m = n;
    let mut i = at;
    while 128 <= m {
        out[i] = (m % 128 + 128) as u8;
        m /= 128;
        i += 1;
    }
    out[i] = m as u8;
    i + 1
}

// Writes several numbers one after the other where there is room for them, and gives the position after them, for what is written
// next.
#[tactic(auto, using(crate::proofs::Writes::one_more))]
fn put_numbers(out: &mut [u8], at: usize, numbers: &[u64]) -> usize
    requires { (encodable_all numbers.now ≡ true) × (at + length (encode_all numbers.now) ≤ length out.old) }
    ensures value { result ≡ at + length (encode_all numbers.now) }
    ensures after { out.new ≡ sets out.old at (encode_all numbers.now) }
{
    let mut end = at;
    for &n in numbers {
        end = put_number(out, end, n);
    }
    end
}

// Whether each of several numbers has an encoding.
#[tactic(auto, unfolding(varint_encoding::specs::Several::encodable_all))]
fn are_encodable(numbers: &[u64]) -> bool
    ensures { result ≡ encodable_all numbers.now }
{
    numbers.iter().all(|&n| n < varint_encoding::TOO_LARGE)
}

// Whether there is room from a position on for so many numbers, however large: by a division, which cannot overflow.
fn is_ample(room: usize, at: usize, count: usize) -> bool
    ensures { result ≡ leb (at + most_groups * count) room }
{
    at <= room && count <= (room - at) / varint::MOST_GROUPS
}

// Writes several numbers one after the other at a position of a lent slice, and gives the position after the last. Where there is
// no room for all of them, or one is too large, no byte changes.
#[tactic(auto, using(crate::proofs::Writes::fitting), unfolding(crate::specs::Writing::answer_all, crate::specs::Writing::left_all, varint_encoding::specs::Several::size_of_all))]
pub fn write_numbers(out: &mut [u8], at: usize, numbers: &[u64]) -> Result<usize, WriteError>
    ensures value { result ≡ answer_all (length out.old) at numbers.now }
    ensures after { out.new ≡ leaves_all out.old at numbers.now }
{
    if is_ample(out.len(), at, numbers.len()) {
        if !are_encodable(numbers) {
            return Err(WriteError::TooLarge);
        }
    } else {
        let size = varint_encoding::numbers_size(numbers).ok_or(WriteError::TooLarge)?;
        if !fits(out.len(), at, size) {
            return Err(WriteError::NoRoom);
        }
    }
    Ok(put_numbers(out, at, numbers))
}
