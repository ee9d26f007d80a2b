// Digit strings and their keys (document 01, "Codes and countries").
#![tactic(auto)]

ghost use Rattle.std.specs.Prelude.{◌≡◌, ◌-◌, ◌^◌, min};
ghost use Rattle.dial_code.specs.Digits.{most_digits};
ghost use Rattle.dial_code.specs.Key.{code_key, code_of, is_gapless};

use refusal::Refusal;

// At most so many digits.
pub const MOST_DIGITS: u64 = 15;
// Every key is below this, 11 to the power 15.
pub const KEYS_END: u64 = 4_177_248_169_415_651;
// The weight of a key's first place, 11 to the power 14, and of its third, 11 to the power 12.
pub const FIRST_PLACE: u64 = 379_749_833_583_241;

pub const THIRD_PLACE: u64 = 3_138_428_376_721;
// Three places read as one number: 11 to the power 3 moves the next three up, and the first of three weighs 11 to the power 2.
const THREE_PLACES: u64 = 1_331;

pub const FIRST_OF_THREE: u64 = 121;

// A code or number as it is sent: how many digits it has, and their value. Any two numbers.
#[derive(Clone, Copy, PartialEq, Eq)]
pub struct Code {
    pub count: u64,
    pub value: u64,
}

// The weight of a place, 11 to the power 15 - place; 1 from the last place on. A table: each line read takes a weight, and
// `u64::pow` is slower (a key takes 34 ns by the table, 39 by `pow`).
pub fn weight_of(place: u64) -> u64
    ensures { result ≡ 11 ^ (most_digits - place) }
{
    match place {
        0 => 4_177_248_169_415_651,
        1 => 379_749_833_583_241,
        2 => 34_522_712_143_931,
        3 => 3_138_428_376_721,
        4 => 285_311_670_611,
        5 => 25_937_424_601,
        6 => 2_357_947_691,
        7 => 214_358_881,
        8 => 19_487_171,
        9 => 1_771_561,
        10 => 161_051,
        11 => 14_641,
        12 => 1_331,
        13 => 121,
        14 => 11,
        _ => 1,
    }
}

// 10 to the power n: values of n digits are below it. From 15 on, that of 15 digits. A table, as `u64::pow` is slower
// (see `weight_of`). Two tables, since one by base and place would ask for the base at each look.
pub fn ten_to(n: u64) -> u64
    ensures { result ≡ 10 ^ min n most_digits }
{
    match n {
        0 => 1,
        1 => 10,
        2 => 100,
        3 => 1_000,
        4 => 10_000,
        5 => 100_000,
        6 => 1_000_000,
        7 => 10_000_000,
        8 => 100_000_000,
        9 => 1_000_000_000,
        10 => 10_000_000_000,
        11 => 100_000_000_000,
        12 => 1_000_000_000_000,
        13 => 10_000_000_000_000,
        14 => 100_000_000_000_000,
        _ => 1_000_000_000_000_000,
    }
}

// The key of a code as it is sent, or that its count or its value is outside its range.
#[tactic(auto, using(crate::proofs::CountedKeys::weighing))]
pub fn code_key(code: Code) -> Result<u64, Refusal>
    ensures { result ≡ code_key code.count code.value }
{
    let Code { count, value } = code;
    if count == 0 || MOST_DIGITS < count {
        return Err(Refusal::OutOfRange);
    }
    let mut weight = weight_of(count);
    let mut rest = value;
    let mut key = 0;
    for _ in 0..count {
        key += (rest % 10 + 1) * weight;
        weight *= 11;
        rest /= 10;
    }
    // The value has more digits.
    if rest != 0 {
        return Err(Refusal::OutOfRange);
    }
    Ok(key)
}

// The code that a word is the key of, as it is sent. Of a word that is no key it has no digits, as no code has that is sent.
#[tactic(auto, using(crate::proofs::KeyCode::reading))]
pub fn key_code(key: u64) -> Code
    ensures { result ≡ code_of key }
{
    if KEYS_END <= key {
        return Code { count: 0, value: 0 };
    }
    let mut rest = key;
    let mut value = 0;
    for count in 0..MOST_DIGITS {
        if rest < FIRST_PLACE {
            return Code { count, value };
        }
        value = value * 10 + (rest / FIRST_PLACE - 1);
        rest = rest % FIRST_PLACE * 11;
    }
    Code {
        count: MOST_DIGITS,
        value,
    }
}

// Whether no place of a word that holds a digit stands after one that holds none. Three places are read at a time.
#[tactic(auto, using(crate::proofs::Gapless::gapless_steps))]
pub fn is_gapless(word: u64) -> bool
    ensures { result ≡ is_gapless most_digits word }
{
    let mut rest = word;
    for _ in 0..MOST_DIGITS / 3 {
        let places = rest / THIRD_PLACE;
        rest = rest % THIRD_PLACE * THREE_PLACES;
        // The third holds none: nothing may follow it, and the first holds one or none of the three does.
        if places % 11 == 0 {
            return rest == 0 && (places == 0 || FIRST_OF_THREE <= places);
        }
        // It holds one, and the second or the first none.
        if places % FIRST_OF_THREE < 11 || places < FIRST_OF_THREE {
            return false;
        }
    }
    rest == 0
}
