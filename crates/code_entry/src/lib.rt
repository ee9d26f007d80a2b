// One entry of a cell of codes, as suppliers type them (document 02, request 1): a code or a range of codes.
#![tactic(auto)]

ghost use Rattle.std.specs.Prelude.{◌≡◌, true, ◌+◌, ◌^◌, ◌≤◌, ◌<◌, length, drop, eqb, get_or};
ghost use Rattle.std.specs.List.{prefix_len};
ghost use Rattle.std.specs.Result.{is_ok};
ghost use Rattle.allowed_code.specs.Code.{is_code, sent_code_key};
ghost use Rattle.code_entry.specs.Range.{range_of, codes_from, first_key, last_key};
ghost use Rattle.code_entry.specs.Entry.{is_blank, dash, all_codes, code_range, read_entry, own_code};
ghost use Rattle.code_entry.specs.Scan.{code_with, digits_of, pushed, run_of, is_end, country_digits, typed_code, entry_end, typed_range};

use dial_code::{Code, MOST_DIGITS};
use refusal::{Read, Refusal};
use std::marker::Model;

// A range has at most so many codes.
const MOST_CODES: u64 = 1_000;

// So many codes of one length, from the code of a value on: 1 to 15 digits, 1 to 1,000 codes, each a value of so many digits.
#[derive(Clone, Copy, PartialEq, Eq)]
pub struct CodeRange {
    pub digits: u64,
    pub first: u64,
    pub count: u64,
}

impl Model for CodeRange {
    ghost use Rattle.code_entry.specs.Codes.{Codes, Writable};

    ghost Value = { Codes };

    ghost view = { λ r. record { digits = r.digits; first = r.first; count = r.count } };

    ghost invariant = { λ r. Writable (record { digits = r.digits; first = r.first; count = r.count }) };

    ghost inverse = { λ c. record { digits = c.digits; first = c.first; count = c.count } };
}

impl CodeRange {
    // The key of the first code. By the invariant there is one.
    #[tactic(auto, using(dial_code::proofs::CountedKeys::sent), unfolding(dial_code::specs::Key::key))]
    pub fn first_key(self) -> u64
        ensures { result ≡ first_key self }
    {
        let code = Code {
            count: self.digits,
            value: self.first,
        };
        dial_code::code_key(code).unwrap()
    }

    // The key of the last code, likewise.
    #[tactic(auto, using(dial_code::proofs::CountedKeys::sent), unfolding(dial_code::specs::Key::key))]
    pub fn last_key(self) -> u64
        ensures { result ≡ last_key self }
    {
        let code = Code {
            count: self.digits,
            value: self.first + (self.count - 1),
        };
        dial_code::code_key(code).unwrap()
    }
}

// Digits as they are typed: how many they are, and their value. After 15 they are too many, whatever follows: 16, of value 0, so
// that the next digit needs no case. A `Code` may be any two numbers, these have an invariant.
#[derive(Clone, Copy)]
struct Typed {
    count: u64,
    value: u64,
}

impl Model for Typed {
    ghost use Rattle.std.specs.Prelude.{◌<◌, ◌^◌};
    ghost use Rattle.dial_code.specs.declared.Code.{Code};

    ghost Value = { Code };

    ghost view = { λ c. record { count = c.count; value = c.value } };

    ghost invariant = { λ c. c.value < 10 ^ c.count };

    ghost inverse = { λ c. record { count = c.count; value = c.value } };
}

// Whether a value of two digits is an allowed code. Not in line: few codes have two digits, and an entry is read faster without it.
#[inline(never)]
fn is_two_digit_code(value: u64) -> bool
    ensures { result ≡ is_ok (sent_code_key 2 value) }
{
    allowed_code::sent_code_key(Code { count: 2, value }).is_ok()
}

impl Typed {
    // No digits.
    fn none() -> Self
        ensures { result ≡ code_with 0 0 }
    {
        Typed { count: 0, value: 0 }
    }

    // The same with one digit more.
    #[tactic(auto, unfolding(crate::specs::Scan::pushed))]
    fn push(self, digit: u64) -> Self
        requires { digit < 10 }
        ensures { result ≡ pushed self digit }
    {
        if self.count < MOST_DIGITS {
            Typed {
                count: self.count + 1,
                value: self.value * 10 + digit,
            }
        } else {
            Typed {
                count: MOST_DIGITS + 1,
                value: 0,
            }
        }
    }

    // Whether they are an allowed code: from three digits on, where the first is not 0.
    #[inline(always)]
    fn is_code(self) -> bool
        ensures { result ≡ is_code (digits_of self) }
    {
        match self.count {
            1 => self.value == 1 || self.value == 7,
            2 => is_two_digit_code(self.value),
            3..=MOST_DIGITS => dial_code::ten_to(self.count - 1) <= self.value,
            _ => false,
        }
    }
}

// How many blanks stand at the front.
fn blanks(s: &[u8]) -> usize
    ensures value { result ≡ prefix_len is_blank s.now }
    ensures within { result ≤ length s.now }
{
    s.iter().take_while(|&&b| b == b' ').count()
}

// What is read below starts at a position of the cell and ends at one, which is what the next reading takes: parts of the cell
// would have to be measured again for it. That a code is allowed is asked by those that `read_code` gives one: a type of its own
// would be taken apart by each of them.

// Where the blanks from a position on end.
#[tactic(auto, using(std::proofs::lemmas::List::take_rest))]
fn skip_blanks(cell: &[u8], start: usize) -> usize
    requires { start ≤ length cell.now }
    ensures { result ≡ start + prefix_len is_blank (drop start cell.now) }
{
    start + blanks(&cell[start..])
}

// Whether an entry is over at a position: the cell ends, or a comma stands there.
#[tactic(auto, using(crate::proofs::Scanning::end_none, crate::proofs::Scanning::end_byte))]
fn is_end(cell: &[u8], at: usize) -> bool
    requires { at ≤ length cell.now }
    ensures { result ≡ is_end (drop at cell.now) }
{
    cell.get(at).is_none_or(|&b| b == b',')
}

// The ASCII digits from a position on, behind others, and where they end.
fn read_digits(own: Typed, cell: &[u8], start: usize) -> (Typed, usize)
    requires { start ≤ length cell.now }
    ensures { result ≡ run_of own start (drop start cell.now) }
{
    let mut code = own;
    for (i, &b) in cell[start..].iter().enumerate() {
        if !b.is_ascii_digit() {
            return (code, start + i);
        }
        code = code.push(u64::from(b - b'0'));
    }
    (code, cell.len())
}

// The digits of a country cell, which holds nothing else.
#[tactic(auto, using(crate::proofs::Entries::country_refused, crate::proofs::Entries::country_read))]
fn country_digits(country: &[u8]) -> Result<Typed, Refusal>
    ensures { result ≡ country_digits country.now }
{
    let (own, end) = read_digits(Typed::none(), country, 0);
    // A byte that is no digit.
    if end < country.len() {
        return Err(Refusal::EntryNotAllowed);
    }
    Ok(own)
}

// The code at a position, behind the digits of a country: it is typed, and allowed.
#[tactic(auto, using(crate::proofs::Entries::none_typed, crate::proofs::Entries::code_refused, crate::proofs::Entries::code_read))]
fn read_code(own: Typed, cell: &[u8], at: usize) -> Read<Typed>
    requires { at ≤ length cell.now }
    ensures { result ≡ typed_code own cell.now at }
{
    let (code, next) = read_digits(own, cell, at);
    if next == at || !code.is_code() {
        return Err(Refusal::EntryNotAllowed);
    }
    Ok((code, next))
}

// Where the entry ends whose codes end at a position: blanks alone stand between.
#[tactic(auto, unfolding(crate::specs::Scan::entry_end), using(crate::proofs::Entries::next_most))]
fn read_end(cell: &[u8], at: usize) -> Result<usize, Refusal>
    requires { at ≤ length cell.now }
    ensures { result ≡ entry_end cell.now at }
{
    let end = skip_blanks(cell, at);
    if !is_end(cell, end) {
        return Err(Refusal::EntryNotAllowed);
    }
    Ok(end)
}

// Whether so many codes from an allowed one on all are: from three digits on they are.
fn are_codes(first: Typed, count: u64) -> bool
    requires { (is_code (digits_of first) ≡ true) × (first.value + count ≤ 10 ^ first.count) }
    ensures { result ≡ all_codes (codes_from first.count first.value count) }
{
    2 < first.count
        || (first.value..first.value + count).all(|value| allowed_code::sent_code_key(Code {
            count: first.count,
            value,
        })
        .is_ok())
}

// The range between two allowed codes.
fn range_between(first: Typed, last: Typed) -> Result<CodeRange, Refusal>
    requires { is_code (digits_of first) ≡ true }
    ensures { result ≡ code_range true (digits_of first) (digits_of last) }
{
    if first.count != last.count || last.value < first.value {
        return Err(Refusal::RangeNotAllowed);
    }
    let count = last.value + 1 - first.value;
    if !are_codes(first, count) {
        return Err(Refusal::EntryNotAllowed);
    }
    if MOST_CODES < count {
        return Err(Refusal::RangeNotAllowed);
    }
    Ok(CodeRange {
        digits: first.count,
        first: first.value,
        count,
    })
}

// One allowed code.
fn one_code(code: Typed) -> CodeRange
    requires { is_code (digits_of code) ≡ true }
    ensures { result ≡ range_of code.count code.value 1 }
{
    CodeRange {
        digits: code.count,
        first: code.value,
        count: 1,
    }
}

// Whether a dash stands at a position.
#[tactic(auto, using(crate::proofs::Scanning::none_there))]
fn is_dash(cell: &[u8], at: usize) -> bool
    ensures { result ≡ eqb (get_or cell.now at 0) dash }
{
    cell.get(at).is_some_and(|&b| b == b'-')
}

// The entry of an allowed first code, at the bytes after its dash.
#[inline(always)]
#[tactic(auto, unfolding(crate::specs::Scan::typed_range))]
fn read_range(own: Typed, first: Typed, cell: &[u8], at: usize) -> Read<CodeRange>
    requires { (is_code (digits_of first) ≡ true) × (at ≤ length cell.now) }
    ensures { result ≡ typed_range own first cell.now at }
{
    let (last, next) = read_code(own, cell, at)?;
    let end = read_end(cell, next)?;
    Ok((range_between(first, last)?, end))
}

// The entry at the front of a cell, beside a country cell. In line, so that a range that is read need not go through memory: with
// a call, a cell of 2,000 codes takes 121 µs in place of 96.
#[inline(always)]
#[tactic(auto, unfolding(crate::specs::Scan::scanned), using(crate::proofs::Entries::scan_law, crate::proofs::Entries::code_facts))]
pub fn read_entry(country: &[u8], cell: &[u8]) -> Read<CodeRange>
    ensures { result ≡ read_entry country.now cell.now }
{
    let own = country_digits(country)?;
    let (first, at) = read_code(own, cell, blanks(cell))?;
    if is_dash(cell, at) {
        return read_range(own, first, cell, at + 1);
    }
    let end = read_end(cell, at)?;
    Ok((one_code(first), end))
}

// The country's own code.
#[tactic(auto, using(crate::proofs::Entries::own_law))]
pub fn own_code(country: &[u8]) -> Result<CodeRange, Refusal>
    ensures { result ≡ own_code country.now }
{
    let code = country_digits(country)?;
    if !code.is_code() {
        return Err(Refusal::EntryNotAllowed);
    }
    Ok(one_code(code))
}
