// The words of a book (document 01, "The book"): its header and its entries, read and written at any place of any words.
#![tactic(auto)]

ghost use Rattle.std.specs.Prelude.{◌≡◌, List, [], ◌∷◌, map, ◌-◌, ◌/◌, ◌<◌, min, length, get_or, take, drop, replicate, MatchOption};
ghost use Rattle.std.proofs.lemmas.List.Edits.{sets};
ghost use Rattle.std.specs.Iterator.{YieldsFirst, item_count};
ghost use Rattle.book_words.specs.declared.Entry.{Entry};
ghost use Rattle.book_words.specs.Layout.{header_words, entry_words, no_entry, header_of, words_of_header, entry_at, row_entry, entries_from, held};

use std::marker::Model;

pub const HEADER_WORDS: usize = 4;

pub const ENTRY_WORDS: usize = 3;

// Where an entry's words after its key stand.
pub const DAY_WORD: usize = 1;

pub const OFFER_WORD: usize = 2;

pub const MOST_ENTRIES: usize = 65_535;

// The words before the entries: how many entries there are, the notice period, the last received day and the latest effective day.
#[derive(Clone, Copy, PartialEq, Eq)]
pub struct Header {
    pub count: u64,
    pub period: u64,
    pub received: u64,
    pub latest: u64,
}

// An entry of a book: a code's key, a day, and the offer word of the code from that day on.
#[derive(Clone, Copy, PartialEq, Eq)]
pub struct Entry {
    pub key: u64,
    pub day: u64,
    pub offer: u64,
}

// The entry of its words.
impl From<[u64; ENTRY_WORDS]> for Entry {
    ghost from_gives = { λ words entry. entry ≡ row_entry words };

    fn from([key, day, offer]: [u64; ENTRY_WORDS]) -> Self {
        Entry { key, day, offer }
    }
}

// The words after the header's.
fn after_header(words: &[u64]) -> &[u64]
    ensures { result.now ≡ drop header_words words.now }
{
    words.get(HEADER_WORDS..).unwrap_or(&[])
}

// The entries of a book that a walk over them has left, the next first.
#[derive(Drop)]
pub struct Entries<'a> {
    rows: &'a [[u64; ENTRY_WORDS]],
}

impl<'a> Model for Entries<'a> {
    ghost Value = { List Entry };

    ghost view = { λ e. map row_entry e.rows.now };
}

// The entries of rows.
impl<'a> From<&'a [[u64; ENTRY_WORDS]]> for Entries<'a> {
    ghost from_gives = { λ rows entries. entries ≡ map row_entry rows.now };

    fn from(rows: &'a [[u64; ENTRY_WORDS]]) -> Self {
        Entries { rows }
    }
}

impl<'a> Entries<'a> {
    // The first entries of a book's words: so many, or as many as there are words for.
    #[tactic(auto, using(crate::proofs::Rows::rows_first))]
    pub fn of(words: &'a [u64], count: usize) -> Self
        ensures { result ≡ entries_from words.now header_words (min count ((length words.now - header_words) / entry_words)) }
    {
        let (rows, _) = after_header(words).as_chunks();
        Entries::from(rows).first(count)
    }

    // How many there are.
    pub fn len(&self) -> usize
        ensures { result ≡ length self.now }
    {
        self.rows.len()
    }

    // Their words, a row for each.
    pub fn rows(&self) -> &'a [[u64; ENTRY_WORDS]]
        ensures { map row_entry result.now ≡ self.now }
    {
        self.rows
    }

    // So many of the first, or all.
    #[tactic(auto, using(crate::proofs::Rows::first_rows))]
    pub fn first(self, count: usize) -> Self
        ensures { result ≡ take count self.entry }
    {
        Entries {
            rows: &self.rows[..count.min(self.rows.len())],
        }
    }

    // The next, which stays.
    pub fn peek(&self) -> Option<Entry>
        ensures { MatchOption result (self.now ≡ []) (λ e. self.now ≡ e ∷ drop 1 self.now) }
    {
        self.rows.first().copied().map(Entry::from)
    }

    // The last, which stays.
    pub fn peek_back(&self) -> Option<Entry>
        ensures { MatchOption result (self.now ≡ []) (λ e. (0 < length self.now) × (e ≡ get_or self.now (length self.now - 1) no_entry)) }
    {
        self.rows.last().copied().map(Entry::from)
    }
}

impl<'a> Iterator for Entries<'a> {
    type Item = Entry;

    ghost next_gives = { YieldsFirst (λ entries. entries) };

    ghost remaining = { item_count (λ entries. entries) };

    fn next(&mut self) -> Option<Entry> {
        let (row, rows) = self.rows.split_first()?;
        self.rows = rows;
        Some(Entry::from(*row))
    }
}

// The word at a place, 0 past the end.
fn word_at(words: &[u64], at: usize) -> u64
    ensures { result ≡ get_or words.now at 0 }
{
    words.get(at).copied().unwrap_or(0)
}

// The entry that starts at a place; words past the end count as 0. A place of 32 bits has one test and no end of its own.
#[tactic(auto, unfolding(crate::specs::Layout::entry_at))]
pub fn entry_at(words: &[u64], at: u32) -> Entry
    ensures { result ≡ entry_at words.now at }
{
    let from = at as usize;
    if from + ENTRY_WORDS <= words.len() {
        return Entry {
            key: words[from],
            day: words[from + DAY_WORD],
            offer: words[from + OFFER_WORD],
        };
    }
    Entry {
        key: word_at(words, from),
        day: word_at(words, from + DAY_WORD),
        offer: word_at(words, from + OFFER_WORD),
    }
}

// Sets the word at a place, where there is one.
fn put_word(words: &mut [u64], at: usize, word: u64)
    ensures { words.new ≡ sets words.old at (word ∷ []) }
{
    // By place: after a write through `get_mut` a proof knows the slice's length alone.
    if at < words.len() {
        words[at] = word;
    }
}

// The header words, four by name: plainer than a `From` for an array that a slice may be too short for.
pub fn header_of(words: &[u64]) -> Header
    ensures { result ≡ header_of words.now }
{
    Header {
        count: word_at(words, 0),
        period: word_at(words, 1),
        received: word_at(words, 2),
        latest: word_at(words, 3),
    }
}

// Writes the header words, as far as there are words for them: one by one, since a slice may be too short for an array.
pub fn write_header(words: &mut [u64], h: Header)
    ensures { words.new ≡ sets words.old 0 (words_of_header h) }
{
    put_word(words, 0, h.count);
    put_word(words, 1, h.period);
    put_word(words, 2, h.received);
    put_word(words, 3, h.latest);
}

// Sets every word from a place on to 0.
#[tactic(auto, using(slice_laws::proofs::Slices::written_over))]
pub fn clear(words: &mut [u64], from: usize)
    ensures { words.new ≡ sets words.old from (replicate (length words.old - from) 0) }
{
    if from < words.len() {
        words[from..].fill(0);
    }
}

// How many entries a book of so many words can hold.
#[tactic(auto, unfolding(crate::specs::Layout::held))]
pub fn entries_held(len: usize) -> usize
    ensures { result ≡ held len }
{
    (len.saturating_sub(HEADER_WORDS) / ENTRY_WORDS).min(MOST_ENTRIES)
}
