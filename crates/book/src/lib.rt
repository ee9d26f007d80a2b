// The book (document 01, "The book"): a lent slice of 64-bit words, whatever it holds. When it is sound, and what keeps it from
// being used.
#![tactic(auto)]

ghost use Rattle.std.specs.Prelude.{◌≡◌, not, ◌&&◌, ◌≤◌, true, eqb, length};
ghost use Rattle.allowed_code.specs.Code.{is_code_key};
ghost use Rattle.book_words.specs.Layout.{header_words, most_entries, entries_from};
ghost use Rattle.book.specs.Soundness.{in_range, begins, follows, sound_entries, all_zero, sound_header, counted, headed_count, sound};
ghost use Rattle.book.specs.Answers.{fresh_answer, fresh_words, check_book};

use book_words::{ENTRY_WORDS, Entries, Entry, HEADER_WORDS, Header};
use calendar::Day;
use rate::Offer;
use refusal::Refusal;

const MOST_PERIOD: u64 = 365;

// Whether an entry's day and offer word are in range.
#[tactic(auto, unfolding(crate::specs::Soundness::in_range, crate::specs::Soundness::is_offer_word))]
fn in_range(e: Entry) -> bool
    ensures { result ≡ in_range e }
{
    Day(e.day).in_range() && Offer::try_from(e.offer).is_ok()
}

// Whether an entry's day and offer can be the first of a code: in range, and not closed. Closed is the word 0: the words of a book
// may be any, and so may those of its rules.
fn can_open(e: Entry) -> bool
    ensures { result ≡ (not (eqb e.offer 0) && in_range e) }
{
    e.offer != 0 && in_range(e)
}

// Whether an entry can be the first of all.
#[tactic(auto, unfolding(crate::specs::Soundness::begins))]
fn can_begin(e: Entry) -> bool
    ensures { result ≡ begins e }
{
    can_open(e) && allowed_code::is_code_key(e.key)
}

// Whether one entry can stand after another, which is of an allowed code.
#[tactic(auto, unfolding(crate::specs::Soundness::begins, crate::specs::Soundness::follows), using(crate::proofs::Rules::next_code))]
fn can_follow(e: Entry, f: Entry) -> bool
    requires { is_code_key e.key ≡ true }
    ensures { result ≡ follows e f }
{
    if e.key == f.key {
        return e.day < f.day && e.offer != f.offer && in_range(f);
    }
    e.key < f.key && can_open(f) && allowed_code::is_code_key_after(e.key, f.key)
}

// Whether some entries are sound, each read once and held against the one before it.
#[tactic(auto, unfolding(crate::specs::Soundness::sound_entries, crate::specs::Soundness::sound_after), using(crate::proofs::SoundLists::begins_facts, crate::proofs::SoundLists::follows_facts))]
fn are_sound(entries: Entries) -> bool
    ensures { result ≡ sound_entries entries.entry }
{
    let mut rest = entries;
    let Some(first) = rest.next() else {
        return true;
    };
    if !can_begin(first) {
        return false;
    }
    let mut before = first;
    for e in rest {
        if !can_follow(before, e) {
            return false;
        }
        before = e;
    }
    true
}

// Whether every word is 0. A cell's blanks are told likewise. By `all` either takes up to 1.6 times as long: its loop asks for the end
// before each word and goes on before it looks at it.
fn is_clear(words: &[u64]) -> bool
    ensures { result ≡ all_zero words.now }
{
    for &word in words {
        if word != 0 {
            return false;
        }
    }
    true
}

// Whether the header words are in range, and so many entries held.
#[tactic(auto, unfolding(crate::specs::Soundness::sound_header))]
fn is_headed(words: &[u64]) -> bool
    ensures { result ≡ sound_header words.now }
{
    let h = book_words::header_of(words);
    h.count <= book_words::entries_held(words.len()) as u64
        && h.period <= MOST_PERIOD
        && Day(h.received).can_be_received()
        && Day(h.latest).in_range()
}

// How many entries the header counts, where it is sound.
#[tactic(auto, unfolding(crate::specs::Soundness::counted))]
fn counted(words: &[u64]) -> Option<usize>
    ensures { result ≡ counted words.now }
{
    if words.len() < HEADER_WORDS || !is_headed(words) {
        return None;
    }
    let h = book_words::header_of(words);
    Some(h.count as usize)
}

// How many entries the header counts: none where it is not sound, as the rule has it, so that a walk over them goes over none.
#[tactic(auto, unfolding(crate::specs::Soundness::headed_count))]
pub fn headed_count(words: &[u64]) -> usize
    ensures { result ≡ headed_count words.now }
{
    counted(words).unwrap_or(0)
}

// The entries that the header counts, where it is sound.
#[tactic(auto, using(crate::proofs::Headers::all_counted), unfolding(crate::specs::Soundness::headed_count))]
pub fn entries(words: &[u64]) -> Entries
    ensures { result ≡ entries_from words.now header_words (headed_count words.now) }
{
    Entries::of(words, headed_count(words))
}

// Whether a book is sound, in one pass over its words.
#[tactic(auto, using(crate::proofs::Headers::sound_steps))]
fn is_sound(words: &[u64]) -> bool
    ensures { result ≡ sound words.now }
{
    let Some(count) = counted(words) else {
        return false;
    };
    are_sound(Entries::of(words, count)) && is_clear(&words[HEADER_WORDS + count * ENTRY_WORDS..])
}

// Whether a book can be used: 20, then 21.
#[tactic(auto, unfolding(crate::specs::Answers::check_book))]
pub fn check_book(words: &[u64]) -> Result<(), Refusal>
    ensures { result ≡ check_book words.now }
{
    if words.len() < HEADER_WORDS {
        return Err(Refusal::BookTooShort);
    }
    if !is_sound(words) {
        return Err(Refusal::BookNotSound);
    }
    Ok(())
}

// Sets every word of a lent slice to a fresh book's; 22 or 20 change none.
#[tactic(auto, unfolding(crate::specs::Answers::fresh_answer, crate::specs::Answers::fresh_words), using(crate::proofs::FreshBooks::cleared))]
pub fn fresh(words: &mut [u64], period: u64) -> Result<(), Refusal>
    ensures value { result ≡ fresh_answer (length words.old) period }
    ensures after { words.new ≡ fresh_words words.old period }
{
    if period > MOST_PERIOD {
        return Err(Refusal::PeriodTooLong);
    }
    if words.len() < HEADER_WORDS {
        return Err(Refusal::BookTooShort);
    }
    book_words::clear(words, 0);
    let header = Header {
        count: 0,
        period,
        received: 0,
        latest: 0,
    };
    book_words::write_header(words, header);
    Ok(())
}
