// A line's code, as its key (document 01, "Notice layout").
#![tactic(auto)]

ghost use Rattle.std.specs.Prelude.{◌≡◌, ◌≤◌};
ghost use Rattle.dial_code.specs.Digits.{most_digits};
ghost use Rattle.country_code.specs.CountryCode.{country_of_key};
ghost use Rattle.line_code.specs.CodeRule.{is_country, code_field, read_code};

use dial_code::Code;
use refusal::{Read, Refusal};

// Whether a key lies in the country of a country code's value.
#[tactic(auto, unfolding(crate::specs::CodeRule::is_country))]
pub fn lies_in(key: u64, value: u64) -> bool
    ensures { result ≡ is_country (country_of_key key) value }
{
    country_code::country_of_key(key).is_some_and(|country| country == value)
}

// A code's value field, against the key of the line before and the country that a replacement names. `before` is 0 at the first
// line: an `Option` would be no plainer, since 0 lies below every key, so that the one test serves.
#[tactic(auto, using(crate::proofs::Codes::code_steps))]
fn code_field(named: Option<u64>, before: u64, code: Code, end: usize) -> Read<u64>
    requires { (1 ≤ code.count) × (code.count ≤ most_digits) }
    ensures { result ≡ code_field named before code.count code.value end }
{
    let key = allowed_code::sent_code_key(code)?;
    if key <= before {
        return Err(Refusal::KeysNotRising);
    }
    if named.is_some_and(|country| !lies_in(key, country)) {
        return Err(Refusal::OutsideCountry);
    }
    Ok((key, end))
}

// A line's code, as its key. A replacement names the country that its codes lie in; `before` is the key of the line before, or 0,
// which is below every key.
#[tactic(auto, using(varint::proofs::Told::ranged_facts), unfolding(crate::specs::CodeRule::read_code))]
pub fn read_code(named: Option<u64>, before: u64, s: &[u8], at: usize) -> Read<u64>
    ensures { result ≡ read_code named before s.now at }
{
    let (count, next) = varint::read_ranged(s, at, 1, dial_code::MOST_DIGITS)?;
    let (value, end) = varint::read_number(s, next)?;
    code_field(named, before, Code { count, value }, end)
}
