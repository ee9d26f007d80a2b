// Numbers in groups of seven bits (document 01, "Notice layout"): their bytes, and how many there are.
#![tactic(auto)]

ghost use Rattle.std.specs.Prelude.{◌≡◌};
ghost use Rattle.varint_encoding.specs.Encoding.{size_if_encodable};
ghost use Rattle.varint_encoding.specs.Several.{sizes_if_encodable};

// The least number that nine groups do not hold, 2 to the power 63.
pub const TOO_LARGE: u64 = 0x8000_0000_0000_0000;

// How many bytes a number takes: one for each group, up to that of its top bit. None where it is too large to have an encoding.
#[tactic(auto, using(crate::proofs::Laws::size_by_top), unfolding(crate::specs::Encoding::size_of))]
pub fn number_size(n: u64) -> Option<usize>
    ensures { result ≡ size_if_encodable n }
{
    if n >= TOO_LARGE {
        return None;
    }
    let top_bit = n.max(1).ilog2() as usize;
    Some(top_bit / 7 + 1)
}

// How many bytes several numbers take, one after the other; None where one is too large to have an encoding.
#[tactic(auto, unfolding(crate::specs::Encoding::size_of, crate::specs::Several::encode_all, crate::specs::Several::encodable_all, crate::specs::Several::size_of_all))]
pub fn numbers_size(numbers: &[u64]) -> Option<usize>
    ensures { result ≡ sizes_if_encodable numbers.now }
{
    let mut size = 0;
    for &n in numbers {
        size += number_size(n)?;
    }
    Some(size)
}
