// The calls of the library for programs in C, or in any language that can call C: each a proved call with its answer as a struct of
// 64-bit numbers. include/rate_book.h declares them.
#![tactic(auto)]

ghost use Rattle.std.specs.Prelude.{◌≡◌, length};
ghost use Rattle.std.proofs.lemmas.List.Edits.{sets};
ghost use Rattle.book.specs.Answers.{fresh_answer, fresh_words};
ghost use Rattle.lookup.specs.Lookup.{lookup};
ghost use Rattle.history.specs.Applying.{apply_answer, applied};
ghost use Rattle.rating.specs.Call.{rate_call};
ghost use Rattle.batch.specs.Batch.{batch_answer, batch_rows};
ghost use Rattle.listing.specs.List.{list_answer, list_bytes};
ghost use Rattle.code_cell.specs.Cell.{cell_keys, entry_keys, keys_of, how_many};
ghost use Rattle.answers.specs.Answers.{number_or_zero, applied_of, offer_of, call_of, batch_of, list_of, cell_of, entry_answer_of};
ghost use Rattle.rate_book.specs.Exported.{day as dayAt, moment as momentAt, words_for};

use answers::{
    RateBookApplied, RateBookBatch, RateBookCall, RateBookCell, RateBookCellEntry, RateBookList,
    RateBookOffer,
};
use calendar::{Day, Moment};

// How many words to lend for a book of so many entries; a book holds no more than 65,535.
#[unsafe(no_mangle)]
#[tactic(auto, unfolding(crate::specs::Exported::words_for))]
pub extern "C" fn rate_book_words(entries: u64) -> u64
    ensures { result ≡ words_for entries }
{
    let header = book_words::HEADER_WORDS as u64;
    let each = book_words::ENTRY_WORDS as u64;
    header + entries.min(book_words::MOST_ENTRIES as u64) * each
}

// A fresh book with a notice period, in every word of the lent slice: 22, 20. In C the answer is the refusal's number, or 0.
#[unsafe(no_mangle)]
pub extern "C" fn rate_book_fresh(book: &mut [u64], period: u64) -> u64
    ensures value { result ≡ number_or_zero (fresh_answer (length book.old) period) }
    ensures after { book.new ≡ fresh_words book.old period }
{
    answers::number_or_zero(book::fresh(book, period))
}

// Applies a notice to an old book and writes the new one: 20 and 21 for the old book, 20 for the new, 1 to 9, 10, 30.
#[unsafe(no_mangle)]
pub extern "C" fn rate_book_apply(old: &[u64], notice: &[u8], new: &mut [u64]) -> RateBookApplied
    ensures value { result ≡ applied_of (apply_answer old.now notice.now (length new.old)) }
    ensures after { new.new ≡ applied old.now notice.now new.old }
{
    RateBookApplied::from(update::apply(old, notice, new))
}

// What a number costs on a day: 20, 21, 40, 41.
#[unsafe(no_mangle)]
pub extern "C" fn rate_book_lookup(book: &[u64], number: &[u8], day: u64) -> RateBookOffer
    ensures { result ≡ offer_of (lookup book.now number.now (dayAt day)) }
{
    RateBookOffer::from(lookup::look_up(book, number, Day(day)))
}

// Rates one call: 20, 21, 40 to 44.
#[unsafe(no_mangle)]
pub extern "C" fn rate_book_rate_call(
    book: &[u64],
    number: &[u8],
    moment: u64,
    duration: u64,
) -> RateBookCall
    ensures { result ≡ call_of (rate_call book.now number.now (momentAt moment) duration) }
{
    RateBookCall::from(rating::rate_call(book, number, Moment(moment), duration))
}

// Rates a batch of calls, each into four words of the rows: 20, 21, 1, 2, 4, 9, 23.
#[unsafe(no_mangle)]
pub extern "C" fn rate_book_rate_batch(
    book: &[u64],
    batch: &[u8],
    rows: &mut [u64],
) -> RateBookBatch
    ensures value { result ≡ batch_of (batch_answer book.now batch.now (length rows.old)) }
    ensures after { rows.new ≡ batch_rows book.now batch.now rows.old }
{
    RateBookBatch::from(batch::rate_batch(book, batch, rows))
}

// Writes the standing list of a day: 20, 21, 41, 43, 23.
#[unsafe(no_mangle)]
pub extern "C" fn rate_book_list(book: &[u64], day: u64, out: &mut [u8]) -> RateBookList
    ensures value { result ≡ list_of (list_answer book.now (dayAt day) (length out.old)) }
    ensures after { out.new ≡ list_bytes book.now (dayAt day) out.old }
{
    RateBookList::from(listing::write_list(book, Day(day), out))
}

// The keys of the codes that a cell names beside a country cell: 50, 51, 52.
#[unsafe(no_mangle)]
pub extern "C" fn rate_book_cell(country: &[u8], cell: &[u8], keys: &mut [u64]) -> RateBookCell
    ensures value { result ≡ cell_of (how_many (cell_keys country.now cell.now (length keys.old))) }
    ensures after { keys.new ≡ sets keys.old 0 (keys_of (cell_keys country.now cell.now (length keys.old))) }
{
    RateBookCell::from(cell_keys::cell_keys(country, cell, keys))
}

// The keys of the entry at the front of a cell, and where the part still to be read begins: 50, 51, 52.
#[unsafe(no_mangle)]
pub extern "C" fn rate_book_cell_entry(
    country: &[u8],
    cell: &[u8],
    keys: &mut [u64],
) -> RateBookCellEntry
    ensures value { result ≡ entry_answer_of (entry_keys country.now cell.now (length keys.old)) cell.now }
    ensures after { keys.new ≡ sets keys.old 0 (keys_of (entry_keys country.now cell.now (length keys.old))) }
{
    // Made here and not by a `From`, since it takes the cell to tell where the rest begins.
    match cell_keys::entry_keys(country, cell, keys) {
        Ok((count, rest)) => RateBookCellEntry {
            refusal: 0,
            count,
            rest: (cell.len() - rest.len()) as u64,
        },
        Err(e) => RateBookCellEntry {
            refusal: u64::from(e),
            ..RateBookCellEntry::default()
        },
    }
}
