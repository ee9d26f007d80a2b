// Country codes after E.164 (document 01, "Codes and countries").
#![tactic(auto)]

ghost use Rattle.std.specs.Prelude.{◌≡◌, ◌<◌};
ghost use Rattle.country_code.specs.CountryCode.{country_of_key, two_digits};
ghost use Rattle.country_code.specs.Stretches.{stretch_of, is_within};

use dial_code::{FIRST_OF_THREE, KEYS_END, THIRD_PLACE};

// The value of every country is below this.
pub const VALUES_END: usize = 1_000;

// The form that document 01 names for the countries of a partial notice: an array of 1,000 marks, 0 or 1, by country value.
pub type Marks = [u8; VALUES_END];

// The words from `low` to below `high`: copied like the numbers that it has, as a `Range` is not.
#[derive(Clone, Copy, PartialEq, Eq)]
pub struct Stretch {
    pub low: u64,
    pub high: u64,
}

// The country codes of two digits, a bit for each value below 100: with `matches!` over their runs a lookup takes 4 to 7 % longer.
const TWO_DIGITS: u128 = 0x0004_fc56_0007_f7fb_fb97_c810_0000;

// Whether a value below 100 is a country code of two digits.
#[tactic(auto, using(crate::proofs::CountryLaws::two_digits_bit))]
fn is_two_digits(v: u64) -> bool
    requires { v < 100 }
    ensures { result ≡ two_digits v }
{
    (TWO_DIGITS >> v) % 2 == 1
}

// The country of the code that a word is the key of. A place holds the digit and one more, or 0 for none.
#[tactic(auto, using(crate::proofs::CountryLaws::no_key, crate::proofs::CountryLaws::by_places_law))]
pub fn country_of_key(key: u64) -> Option<u64>
    ensures { result ≡ country_of_key key }
{
    if KEYS_END <= key {
        return None;
    }
    let places = key / THIRD_PLACE;
    let first = (places / FIRST_OF_THREE).checked_sub(1)?;
    if first == 1 || first == 7 {
        return Some(first);
    }
    let second = (places / 11 % 11).checked_sub(1)?;
    let two = first * 10 + second;
    if is_two_digits(two) {
        return Some(two);
    }
    let third = (places % 11).checked_sub(1)?;
    Some(two * 10 + third)
}

// The words with the first three places of a key; none from the keys' end on.
#[tactic(auto, unfolding(crate::specs::Stretches::stretch_of))]
pub fn stretch_of(key: u64) -> Stretch
    ensures { result ≡ stretch_of key }
{
    if KEYS_END <= key {
        return Stretch { low: 0, high: 0 };
    }
    let low = key - key % THIRD_PLACE;
    Stretch {
        low,
        high: low + THIRD_PLACE,
    }
}

// Whether a word is in a stretch.
pub fn is_within(stretch: Stretch, key: u64) -> bool
    ensures { result ≡ is_within stretch key }
{
    stretch.low <= key && key < stretch.high
}
