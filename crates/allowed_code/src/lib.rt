// The codes that are allowed, by their keys (document 01, "Codes and countries").
#![tactic(auto)]

ghost use Rattle.std.specs.Prelude.{◌≡◌};
ghost use Rattle.allowed_code.specs.Code.{is_code_key, is_code_key_after, sent_code_key};

use dial_code::{Code, FIRST_PLACE, KEYS_END, THIRD_PLACE};
use refusal::Refusal;

// Whether a word is the key of an allowed code.
#[tactic(auto, using(std::proofs::lemmas::Bool::Decides::nat_tests, crate::proofs::CodeLaws::key_test))]
pub fn is_code_key(word: u64) -> bool
    ensures { result ≡ is_code_key word }
{
    // The first place holds a digit other than 0.
    (2 * FIRST_PLACE..KEYS_END).contains(&word)
        && country_code::country_of_key(word).is_some()
        && dial_code::is_gapless(word)
}

// Whether a word is the key of an allowed code, told after the key of one: with its first three places the word has its country.
#[tactic(auto, unfolding(crate::specs::Code::is_code_key_after, country_code::specs::Stretches::same_places))]
pub fn is_code_key_after(key: u64, word: u64) -> bool
    ensures { result ≡ is_code_key_after key word }
{
    if key / THIRD_PLACE == word / THIRD_PLACE {
        dial_code::is_gapless(word)
    } else {
        is_code_key(word)
    }
}

// The key of an allowed code as it is sent, or that its count or its value is outside its range, or that it is not allowed. A
// number sent so (`dialled_number`) has another test and another refusal. In line, since every line of a notice has a code.
#[inline(always)]
#[tactic(auto, using(crate::proofs::SentCodes::by_key))]
pub fn sent_code_key(code: Code) -> Result<u64, Refusal>
    ensures { result ≡ sent_code_key code.count code.value }
{
    let key = dial_code::code_key(code)?;
    // The first place holds the digit 0, or the digits are too few for a country.
    if key < 2 * FIRST_PLACE || country_code::country_of_key(key).is_none() {
        return Err(Refusal::CodeNotAllowed);
    }
    Ok(key)
}
