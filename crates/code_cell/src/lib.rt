// What a cell of codes is refused for (document 02, request 1): known before a word is written, with no memory but a few numbers.
#![tactic(auto)]

ghost use Rattle.std.specs.Prelude.{◌≡◌, ◌≢◌, ℕ, MatchOption, EachIndex, slice_index, ◌||◌, ◌+◌, ◌^◌, ◌≤◌, ◌<◌, [], ◌∷◌, ◌++◌, length, leb};
ghost use Rattle.std.specs.Option.{option_map_or};
ghost use Rattle.std.specs.Iterator.{item_count};
ghost use Rattle.code_entry.specs.Entry.{is_blank, comma, entry_of, entry_codes};
ghost use Rattle.code_cell.specs.Reading.{names_left, good_ranges, ranges_left, ReadsFirst, GivesFirst, GivesLast};
ghost use Rattle.dial_code.specs.Digits.{every};
ghost use Rattle.code_entry.specs.Codes.{most_codes};
ghost use Rattle.code_cell.specs.Cell.{entries_of, entry_names, is_own, own_keys, cell_keys, checked};
ghost use Rattle.code_cell.specs.Count.{marks_end, outcome, all_keys, added, bound_of, told, stretch, closer, closest, order_with, ordered, no_order};

use code_entry::CodeRange;
use dial_code::KEYS_END;
use refusal::Refusal;
use std::ops::Range;

// Every code's number is below this.
const MARKS_END: u64 = 2_000_000_000_000_000;

// What the entries of a cell name beside a country cell: from the first on up to the first refused one, or from the last on. A
// refused one stays among those left.
#[derive(Clone, Copy)]
pub struct Entries<'a> {
    country: &'a [u8],
    rest: Option<&'a [u8]>,
}

impl<'a> Entries<'a> {
    pub fn new(country: &'a [u8], cell: &'a [u8]) -> Self
        ensures { names_left result ≡ entry_names country.now cell.now }
    {
        Entries {
            country,
            rest: Some(cell),
        }
    }

    // What the first of those left names, or why it is refused, if one is left. A refused one stays.
    #[inline(always)]
    fn read(&mut self) -> Option<Result<CodeRange, Refusal>>
        ensures { ReadsFirst self.old result self.new }
    {
        let cell = self.rest?;
        let (range, size) = match code_entry::read_entry(self.country, cell) {
            Ok(read) => read,
            Err(e) => return Some(Err(e)),
        };
        // Behind the entry's comma, if it has one.
        self.rest = cell[size..].get(1..);
        Some(Ok(range))
    }
}

impl<'a> Iterator for Entries<'a> {
    type Item = CodeRange;

    ghost next_gives = { GivesFirst };

    ghost remaining = { item_count names_left };

    #[inline(always)]
    fn next(&mut self) -> Option<CodeRange> {
        self.read()?.ok()
    }
}

impl<'a> DoubleEndedIterator for Entries<'a> {
    ghost next_back_gives = { GivesLast };

    #[inline(always)]
    fn next_back(&mut self) -> Option<CodeRange> {
        let (before, last) = split_last(self.rest?);
        let (range, _) = code_entry::read_entry(self.country, last).ok()?;
        self.rest = before;
        Some(range)
    }
}

// Where the last comma stands.
fn last_comma(cell: &[u8]) -> Option<usize>
    ensures { MatchOption result (EachIndex cell.now (λ k. slice_index cell.now k ≢ comma)) (λ i. (i < length cell.now) × (slice_index cell.now i ≡ comma) × ((k : ℕ) → i < k → k < length cell.now → slice_index cell.now k ≢ comma)) }
{
    cell.iter().rposition(|&b| b == b',')
}

// The last entry of a cell, and what stands before its comma.
fn split_last(cell: &[u8]) -> (Option<&[u8]>, &[u8])
    ensures { (entries_of cell.now ≡ option_map_or (λ s. entries_of s.now) result.0 [] ++ (result.1.now ∷ [])) × (entry_of result.1.now ≡ result.1.now) }
{
    match last_comma(cell) {
        Some(at) => (Some(&cell[..at]), &cell[at + 1..]),
        None => (None, cell),
    }
}

// A first look at a cell: whether all its entries can be read, and a bound of the distinct codes before the first that cannot.
#[derive(Clone, Copy)]
pub struct Survey {
    pub answer: Result<(), Refusal>,
    pub bound: u64,
}

// Whether ranges rise or fall, with the last and the first key of the last of them. `Option`s would be no plainer: at the first range
// there is no bound yet, which each test would have to ask.
#[derive(Clone, Copy)]
pub struct Order {
    pub rises: bool,
    pub falls: bool,
    pub top: u64,
    pub bottom: u64,
}

impl Order {
    // No ranges yet: every key is above 0 and below the keys' end.
    fn none() -> Self
        ensures { result ≡ no_order }
    {
        Order {
            rises: true,
            falls: true,
            top: 0,
            bottom: KEYS_END,
        }
    }

    // The same with one range more.
    #[tactic(auto, unfolding(crate::specs::Count::order_with))]
    fn with(self, range: CodeRange) -> Self
        ensures { result ≡ order_with self range }
    {
        let first = range.first_key();
        let last = range.last_key();
        Order {
            rises: self.rises && self.top < first,
            falls: self.falls && last < self.bottom,
            top: last,
            bottom: first,
        }
    }
}

// Whether all bytes are blanks. An entry's blanks are counted (`code_entry`), these stop at the first other byte. By `all` it takes 1.6
// times as long, as with the words of a book (`book`).
fn is_blank(cell: &[u8]) -> bool
    ensures { result ≡ every is_blank cell.now }
{
    for &b in cell {
        if b != b' ' {
            return false;
        }
    }
    true
}

// Whether a cell means the country's own code: it is empty or all blanks, and there is a country cell.
#[tactic(auto, using(crate::proofs::Looks::no_country, crate::proofs::Looks::some_country))]
pub fn is_own(country: &[u8], cell: &[u8]) -> bool
    ensures { result ≡ is_own country.now cell.now }
{
    !country.is_empty() && is_blank(cell)
}

// The bound with a range's codes, after one of the entry before.
#[tactic(auto, unfolding(crate::specs::Count::added, crate::specs::Count::same_range))]
fn added(room: usize, bound: u64, before: Option<CodeRange>, range: CodeRange) -> u64
    requires { room + most_codes < 2 ^ 64 }
    ensures { result ≡ added room bound before range }
{
    if (room as u64) < bound || before == Some(range) {
        return bound;
    }
    bound + range.count
}

// Looks at each entry up to the first that is refused.
#[tactic(auto, unfolding(crate::specs::Reading::good_ranges, crate::specs::Count::outcome, crate::specs::Count::bound_of))]
fn look_over(entries: Entries, room: usize) -> Survey
    requires { room + most_codes < 2 ^ 64 }
    ensures { result ≡ told (outcome (names_left entries.entry)) (bound_of room 0 None (ranges_left entries.entry)) }
{
    let mut left = entries;
    let mut bound: u64 = 0;
    let mut before = None;
    while let Some(read) = left.read() {
        match read {
            Ok(range) => {
                bound = added(room, bound, before, range);
                before = Some(range);
            }
            Err(e) => {
                return Survey {
                    answer: Err(e),
                    bound,
                };
            }
        }
    }
    Survey {
        answer: Ok(()),
        bound,
    }
}

// Of the stretch found so far and that of a range, the one that starts first from a number on. None yet is the empty stretch at the
// end, before which any other starts, so that the one comparison of starts serves, as in the rule (`closest`).
#[tactic(auto, unfolding(crate::specs::Count::closer))]
fn closer(from: u64, found: Range<u64>, range: CodeRange) -> Range<u64>
    ensures { result ≡ closer from found range }
{
    let low = dial_code::ten_to(range.digits) + range.first;
    let high = low + range.count;
    let start = low.max(from);
    if from < high && start < found.start {
        return start..high;
    }
    found
}

// The first stretch of numbers from one on that entries before the first refused one name, if there is one.
#[tactic(auto, unfolding(crate::specs::Reading::good_ranges, crate::specs::Count::closest))]
fn next_stretch(entries: Entries, from: u64) -> Option<Range<u64>>
    ensures { MatchOption result (marks_end ≤ (closest from (stretch marks_end marks_end) (ranges_left entries.entry)).start) (λ t. (t ≡ closest from (stretch marks_end marks_end) (ranges_left entries.entry)) × (t.start < marks_end)) }
{
    let mut found = MARKS_END..MARKS_END;
    for range in entries {
        found = closer(from, found, range);
    }
    (found.start < MARKS_END).then_some(found)
}

// Whether the distinct codes of the entries before the first refused one are no more than a room, counted stretch by stretch.
fn fits(entries: Entries, room: usize) -> bool
    ensures { result ≡ leb (length (all_keys [] (ranges_left entries.entry))) room }
{
    let mut from: u64 = 0;
    let mut left = room as u64;
    // Each search starts where the stretch before ended. A `for` over `std::iter::successors` was tried: it is not proved to end.
    while let Some(next) = next_stretch(entries, from) {
        let codes = next.end - next.start;
        if left < codes {
            return false;
        }
        left -= codes;
        from = next.end;
    }
    true
}

// Whether the entries before the first refused one rise, or fall: then no code is named twice.
#[tactic(auto, unfolding(crate::specs::Reading::good_ranges, crate::specs::Count::ordered))]
fn is_ordered(entries: Entries) -> bool
    ensures { result ≡ ordered no_order (ranges_left entries.entry) }
{
    let mut order = Order::none();
    for range in entries {
        order = order.with(range);
    }
    order.rises || order.falls
}

// Whether the country's own code can be used, with so much room. What writes it (`cell_keys`) asks the same again: no plainer as
// one, since this one is lent no keys to write to.
#[tactic(auto, using(crate::proofs::Refusals::own_not, crate::proofs::Refusals::own_full, crate::proofs::Refusals::own_fits))]
fn check_own(country: &[u8], room: usize) -> Result<(), Refusal>
    ensures { result ≡ checked (own_keys country.now room) }
{
    code_entry::own_code(country)?;
    if room == 0 {
        return Err(Refusal::KeysTooMany);
    }
    Ok(())
}

// Whether a cell can be used beside a country cell, with a slice lent for its keys; or why not.
pub fn check_cell(country: &[u8], cell: &[u8], keys: &[u64]) -> Result<(), Refusal>
    ensures { result ≡ checked (cell_keys country.now cell.now (length keys.now)) }
{
    let room = keys.len();
    if is_own(country, cell) {
        return check_own(country, room);
    }
    let entries = Entries::new(country, cell);
    let survey = look_over(entries, room);
    if survey.bound <= room as u64 {
        return survey.answer;
    }
    if !is_ordered(entries) && fits(entries, room) {
        return survey.answer;
    }
    Err(Refusal::KeysTooMany)
}
