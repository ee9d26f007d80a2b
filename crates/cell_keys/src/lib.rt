// The keys of a cell of codes, written to a lent slice (document 02, request 1).
#![tactic(auto)]

ghost use Rattle.std.specs.Prelude.{◌≡◌, List, [], ◌∷◌, ◌+◌, ◌-◌, ◌^◌, ◌≤◌, ◌<◌, length, take, Ok};
ghost use Rattle.std.proofs.lemmas.List.Edits.{sets};
ghost use Rattle.dial_code.specs.Digits.{most_digits};
ghost use Rattle.code_entry.specs.Range.{range_keys, first_key};
ghost use Rattle.code_cell.specs.Cell.{insert_all, keys_named, own_keys, cell_keys, entry_keys, how_many, keys_of};
ghost use Rattle.code_cell.specs.Count.{all_keys};
ghost use Rattle.std.specs.Iterator.{Drains, HoldsAlong, IsFinite};
ghost use Rattle.code_entry.specs.declared.CodeRange.{CodeRange};
ghost use Rattle.code_cell.specs.Rising.{Rising};
ghost use Rattle.cell_keys.specs.Answers.{entry_read, seen};
ghost use Rattle.cell_keys.specs.Writing.{key_at, Run};

use code_cell::Entries;
use code_entry::CodeRange;
use refusal::Refusal;

// How far the key of the next code is: the weight of the last place, less 9 times that of each place that goes from 9 to 0.
fn key_step(digits: u64, value: u64, weight: u64) -> u64
    requires run { Run digits value 2 }
    requires weight_is { weight ≡ 11 ^ (most_digits - digits) }
    ensures { key_at digits value + result ≡ key_at digits (value + 1) }
{
    let mut v = value;
    let mut w = weight;
    let mut less: u64 = 0;
    // The value tells how many 9s it ends in: no index is counted up to a bound.
    while v % 10 == 9 {
        less += 9 * w;
        w *= 11;
        v /= 10;
    }
    w - less
}

// Writes the keys of a range's codes from a place on, given the first.
fn fill(range: CodeRange, start: u64, keys: &mut [u64], at: usize)
    requires start_is { start ≡ first_key range }
    requires room { at + range.count ≤ length keys.old }
    ensures { keys.new ≡ sets keys.old at (range_keys range) }
{
    let weight = dial_code::weight_of(range.digits);
    let mut key = start;
    keys[at] = key;
    let places = &mut keys[at + 1..at + range.count as usize];
    for (i, place) in places.iter_mut().enumerate() {
        key += key_step(range.digits, range.first + i as u64, weight);
        *place = key;
    }
}

// How many keys the rising ones at the front of a slice and those of a range are together. Both are read from their ends.
fn count_together(keys: &[u64], old: usize, range: CodeRange) -> usize
    requires in_bounds { old ≤ length keys.now }
    requires rising { Rising (take old keys.now) }
    ensures { result ≡ length (insert_all (range_keys range) (take old keys.now)) }
{
    let mut key = range.last_key();
    let weight = dial_code::weight_of(range.digits);
    let mut left = range.count;
    let mut p = old;
    let mut n: usize = 0;
    // From two ends, of which each turn takes one or both: no `for` goes so.
    while 0 < p {
        let x = keys[p - 1];
        n += 1;
        if key < x {
            p -= 1;
            continue;
        }
        p -= usize::from(x == key);
        left -= 1;
        if left == 0 {
            return n + p;
        }
        key -= key_step(range.digits, range.first + (left - 1), weight);
    }
    n + left as usize
}

// Puts the keys of a range to the rising ones at the front of a slice, the last first, given how many they are together.
fn merge(keys: &mut [u64], old: usize, together: usize, range: CodeRange)
    requires rising { Rising (take old keys.old) }
    requires in_bounds { (old ≤ length keys.old) × (together ≤ length keys.old) }
    requires together_is { together ≡ length (insert_all (range_keys range) (take old keys.old)) }
    ensures { keys.new ≡ sets keys.old 0 (insert_all (range_keys range) (take old keys.old)) }
{
    let mut key = range.last_key();
    let weight = dial_code::weight_of(range.digits);
    let mut left = range.count;
    let mut p = old;
    let mut end = together;
    // From two ends. `count_together` goes so too: in one function each store would hang on a flag.
    while 0 < p {
        let x = keys[p - 1];
        end -= 1;
        if key < x {
            keys[end] = x;
            p -= 1;
            continue;
        }
        keys[end] = key;
        p -= usize::from(x == key);
        left -= 1;
        if left == 0 {
            return;
        }
        key -= key_step(range.digits, range.first + (left - 1), weight);
    }
    let rest = CodeRange {
        digits: range.digits,
        first: range.first,
        count: left,
    };
    fill(rest, rest.first_key(), keys, 0);
}

// Puts the keys of a range to the rising ones at the front of a slice, and tells how many they are then. Above all of them they
// are appended. The slice and the count of those at its front are no struct: it would be no plainer, since contracts would name
// the words of `self.old.keys` and `self.new.keys` beside a count that is the result here.
fn put_range(keys: &mut [u64], old: usize, range: CodeRange) -> usize
    requires rising { Rising (take old keys.old) }
    requires in_bounds { (old ≤ length keys.old) × (length (insert_all (range_keys range) (take old keys.old)) ≤ length keys.old) }
    ensures value { result ≡ length (insert_all (range_keys range) (take old keys.old)) }
    ensures after { keys.new ≡ sets keys.old 0 (insert_all (range_keys range) (take old keys.old)) }
{
    let count = range.count as usize;
    let start = range.first_key();
    if old == 0 || keys[old - 1] < start {
        fill(range, start, keys, old);
        return old + count;
    }
    let together = count_together(keys, old, range);
    merge(keys, old, together, range);
    together
}

// Writes the keys of ranges, one range after the other, and tells how many they are.
fn write_ranges<I: Iterator<Item = CodeRange> + Drop>(ranges: I, keys: &mut [u64]) -> usize
    requires can { I.can_next ranges }
    requires ends { IsFinite (I.remaining ranges) }
    requires room { HoldsAlong I.next_gives ranges (λ rs. length (all_keys [] rs) ≤ length keys.old) }
    ensures { (rs : List CodeRange) × Drains I.next_gives ranges rs × (result ≡ length (all_keys [] rs)) × (keys.new ≡ sets keys.old 0 (all_keys [] rs)) }
{
    let mut n: usize = 0;
    for range in ranges {
        n = put_range(keys, n, range);
    }
    n
}

// Whether the last of a cell's entries is below the first, so that they are better read from the last on. Keys are the same
// either way.
fn is_falling(entries: Entries) -> bool {
    let mut left = entries;
    match (left.next(), left.next_back()) {
        (Some(first), Some(last)) => last.first_key() < first.first_key(),
        _ => false,
    }
}

// Writes the keys of what an entry names to the front of a slice, and tells how many they are: 52.
fn write_range(range: CodeRange, keys: &mut [u64]) -> Result<u64, Refusal>
    ensures value { result ≡ how_many (keys_named (length keys.old) [] (Ok range ∷ [])) }
    ensures after { keys.new ≡ sets keys.old 0 (keys_of (keys_named (length keys.old) [] (Ok range ∷ []))) }
{
    let count = range.count;
    if (keys.len() as u64) < count {
        return Err(Refusal::KeysTooMany);
    }
    fill(range, range.first_key(), keys, 0);
    Ok(count)
}

// Writes the key of the country's own code, which a cell that is empty or all blanks means. Whether it can is told by `check_cell`,
// too.
#[tactic(auto, using(crate::proofs::Ones::own_refused, crate::proofs::Ones::own_so))]
fn write_own(country: &[u8], keys: &mut [u64]) -> Result<u64, Refusal>
    ensures value { result ≡ how_many (own_keys country.now (length keys.old)) }
    ensures after { keys.new ≡ sets keys.old 0 (keys_of (own_keys country.now (length keys.old))) }
{
    let range = code_entry::own_code(country)?;
    write_range(range, keys)
}

// The keys that a cell of codes names beside a country cell, rising and each once, at the front of a lent slice, and how many
// they are: 50, 51, 52. A host lends the two cells each by itself.
pub fn cell_keys(country: &[u8], cell: &[u8], keys: &mut [u64]) -> Result<u64, Refusal>
    ensures value { result ≡ how_many (cell_keys country.now cell.now (length keys.old)) }
    ensures after { keys.new ≡ sets keys.old 0 (keys_of (cell_keys country.now cell.now (length keys.old))) }
{
    if code_cell::is_own(country, cell) {
        return write_own(country, keys);
    }
    code_cell::check_cell(country, cell, keys)?;
    let entries = Entries::new(country, cell);
    if is_falling(entries) {
        return Ok(write_ranges(entries.rev(), keys) as u64);
    }
    Ok(write_ranges(entries, keys) as u64)
}

// The keys of the entry at the front of a cell, at the front of a lent slice: how many they are, and the part of the cell still to
// be read, from the entry's comma on: 50, 51, 52.
pub fn entry_keys<'a>(
    country: &[u8],
    cell: &'a [u8],
    keys: &mut [u64],
) -> Result<(u64, &'a [u8]), Refusal>
    ensures value { seen result ≡ entry_read (entry_keys country.now cell.now (length keys.old)) cell.now }
    ensures after { keys.new ≡ sets keys.old 0 (keys_of (entry_keys country.now cell.now (length keys.old))) }
{
    let (range, size) = code_entry::read_entry(country, cell)?;
    let count = write_range(range, keys)?;
    Ok((count, &cell[size..]))
}
