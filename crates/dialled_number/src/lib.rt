// Numbers, given as ASCII digits or sent as a count of digits and a value, and their keys (document 01, "Codes and countries").
#![tactic(auto)]

ghost use Rattle.std.specs.Prelude.{◌≡◌};
ghost use Rattle.dialled_number.specs.NumberKey.{number_key, sent_number_key};

use dial_code::{Code, FIRST_PLACE, MOST_DIGITS};
use refusal::Refusal;

// The key of a number given as ASCII digits, one a byte, or that it is none: empty, over 15 digits, with a non-digit or starting
// with 0.
#[tactic(auto, using(crate::proofs::Spelling::spelling))]
pub fn number_key(number: &[u8]) -> Result<u64, Refusal>
    ensures { result ≡ number_key number.now }
{
    if number.is_empty() || MOST_DIGITS < number.len() as u64 || number[0] == b'0' {
        return Err(Refusal::NotANumber);
    }
    let mut key = 0;
    for byte in number {
        if !byte.is_ascii_digit() {
            return Err(Refusal::NotANumber);
        }
        key = key * 11 + u64::from(*byte - b'0') + 1;
    }
    Ok(key * dial_code::weight_of(number.len() as u64))
}

// The key of a number as it is sent, or that it is none: its count or its value is outside its range, or the first digit is 0.
// In one with `allowed_code::sent_code_key` it would be no plainer: a code's country is tested too, and each refuses by its own
// numbers.
#[tactic(auto, using(crate::proofs::SentNumbers::by_key))]
pub fn sent_number_key(number: Code) -> Result<u64, Refusal>
    ensures { result ≡ sent_number_key number.count number.value }
{
    match dial_code::code_key(number) {
        // The first place holds a digit other than 0.
        Ok(key) if 2 * FIRST_PLACE <= key => Ok(key),
        _ => Err(Refusal::NotANumber),
    }
}
