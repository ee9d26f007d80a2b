// The merge of a book's entries with the lines of a notice (document 01, "The book"). Between the
// lines stand the entries of codes that the notice does not list, and at each line those of the line's code.
#![tactic(auto)]

ghost use Rattle.std.specs.Prelude.{◌≡◌, [], ◌∷◌, ◌+◌, ◌*◌, ◌≤◌, length};
ghost use Rattle.book_words.specs.Layout.{put_entries};
ghost use Rattle.closing.specs.Closings.{closes_by};
ghost use Rattle.merge_rule.specs.Passes.{goes_on, unlisted_as, gap_below, rest_from, listed_group, kept_of, status_of, rest_after, line_entries, line_rest};
ghost use Rattle.merge.specs.Merge.{most_merged, merged_answer, merged_leaves};

use book_words::{Entries, Entry};
use closing::Closings;
use notice::Lines;

// What a merge comes to: how many entries, and the latest effective day.
#[derive(Clone, Copy, PartialEq, Eq)]
pub struct Merged {
    pub count: usize,
    pub latest: u64,
}

// Where a merge stands: the old entries that are left, and how many entries the new book has so far. That these stay few is no
// invariant: a line adds an entry that no old entry pays for, so that passing one asks for more than it keeps. The new words stand
// beside it and not in it: what a pass leaves in them is said of the slice that was lent.
#[derive(Drop)]
struct Place<'a> {
    rest: Entries<'a>,
    count: usize,
}

// Puts an entry into the new book after so many, where there are words for all of it.
#[tactic(auto, using(slice_laws::proofs::Slices::written_over, book_words::proofs::Places::one_stored), unfolding(book_words::specs::Layout::put_entries, book_words::specs::Layout::put_entry))]
fn put(new: &mut [u64], count: usize, e: Entry)
    requires { count ≤ most_merged }
    ensures { new.new ≡ put_entries new.old count (e ∷ []) }
{
    let at = book_words::HEADER_WORDS + count * book_words::ENTRY_WORDS;
    if at + book_words::ENTRY_WORDS <= new.len() {
        new[at..at + book_words::ENTRY_WORDS].copy_from_slice(&[e.key, e.day, e.offer]);
    }
}

// Whether the entry after one is of the same code and before a day.
#[tactic(auto, unfolding(merge_rule::specs::Passes::goes_on))]
fn goes_on(rest: &Entries, e: Entry, day: u64) -> bool
    ensures { result ≡ goes_on day e rest.now }
{
    rest.peek().is_some_and(|f| e.key == f.key && f.day < day)
}

// Puts what stays of an entry whose code the notice does not list, before the entries after it. Answers how many entries the new
// book then has. Closed is the word 0 here: words of a book, which may be any, are compared and put as they stand. The day is the
// notice's, for all that it closes: as an `Option` it would be wrapped for each entry.
#[tactic(auto, unfolding(merge_rule::specs::Passes::unlisted_as, merge_rule::specs::Passes::closed_one, book_words::specs::Layout::put_entries))]
fn put_unlisted(
    e: Entry,
    rest: &Entries,
    closed: bool,
    day: u64,
    new: &mut [u64],
    count: usize,
) -> usize
    requires { count + 2 ≤ most_merged }
    ensures value { result ≡ count + length (unlisted_as closed day e rest.now) }
    ensures after { new.new ≡ put_entries new.old count (unlisted_as closed day e rest.now) }
{
    if !closed {
        put(new, count, e);
        return count + 1;
    }
    if day <= e.day {
        return count;
    }
    put(new, count, e);
    if e.offer == 0 || goes_on(rest, e, day) {
        return count + 1;
    }
    let end = Entry {
        key: e.key,
        day,
        offer: 0,
    };
    put(new, count + 1, end);
    count + 2
}

// Passes the entries of keys below one, none of which the notice lists. Whether they are closed is worked out once for codes that
// follow one another and are closed alike.
#[tactic(auto, unfolding(merge_rule::specs::Passes::gap_below, merge_rule::specs::Passes::rest_from, book_words::specs::Layout::put_entries), using(book_words::proofs::Places::puts_append, closing::proofs::ClosingLaws::anyway_alike, closing::proofs::ClosingLaws::range_alike, closing::proofs::ClosingLaws::range_closed))]
fn pass_unlisted<'a>(from: Place<'a>, below: u64, closings: &Closings, new: &mut [u64]) -> Place<'a>
    requires { from.count + 2 * length from.rest ≤ most_merged }
    ensures rest { result.rest ≡ rest_from below from.entry.rest }
    ensures count { result.count ≡ from.entry.count + length (gap_below below (closes_by closings.now.plan closings.now.marks.now) closings.now.plan.closing from.entry.rest) }
    ensures after { new.new ≡ put_entries new.old from.entry.count (gap_below below (closes_by closings.now.plan closings.now.marks.now) closings.now.plan.closing from.entry.rest) }
{
    let Place {
        mut rest,
        mut count,
    } = from;
    let day = closings.plan.closing;
    let mut alike = closing::closed_anyway(closings.plan);
    // No `for`: it stops before an entry that it leaves to the next pass.
    while let Some(e) = rest.peek() {
        if below <= e.key {
            return Place { rest, count };
        }
        if !country_code::is_within(alike.keys, e.key) {
            alike = closings.closed_range(e.key);
        }
        rest.next();
        count = put_unlisted(e, &rest, alike.closed, day, new, count);
    }
    Place { rest, count }
}

// Keeps the entries of a listed code that stand before its line's effective day. Answers the code's status after them as well: a
// book's word, 0 where none stood, as the rule has it of any words.
#[tactic(auto, unfolding(merge_rule::specs::Passes::kept_of, merge_rule::specs::Passes::status_of, merge_rule::specs::Passes::rest_after, book_words::specs::Layout::put_entries))]
fn keep_listed<'a>(from: Place<'a>, change: Entry, new: &mut [u64]) -> (Place<'a>, u64)
    requires { from.count + 2 * length from.rest ≤ most_merged }
    ensures rest { result.0.rest ≡ rest_after change.key from.entry.rest }
    ensures count { result.0.count ≡ from.entry.count + length (kept_of change from.entry.rest) }
    ensures status { result.1 ≡ status_of change 0 from.entry.rest }
    ensures after { new.new ≡ put_entries new.old from.entry.count (kept_of change from.entry.rest) }
{
    let Place {
        mut rest,
        mut count,
    } = from;
    let mut status = 0;
    // No `for`: it stops before an entry that it leaves to the next pass.
    while let Some(e) = rest.peek() {
        if e.key != change.key {
            return (Place { rest, count }, status);
        }
        rest.next();
        if e.day < change.day {
            put(new, count, e);
            count += 1;
            status = e.offer;
        }
    }
    (Place { rest, count }, status)
}

// Passes the entries of a listed code, and puts its line's change after those that stay.
#[tactic(auto, using(crate::proofs::PassLaws::listed_same, crate::proofs::PassLaws::listed_new, crate::proofs::PassLaws::listed_more, crate::proofs::PassLaws::kept_most, book_words::proofs::Stores::puts_on))]
fn pass_listed<'a>(from: Place<'a>, change: Entry, new: &mut [u64]) -> Place<'a>
    requires { from.count + 2 * length from.rest ≤ most_merged }
    ensures rest { result.rest ≡ rest_after change.key from.entry.rest }
    ensures count { result.count ≡ from.entry.count + length (listed_group change 0 from.entry.rest) }
    ensures after { new.new ≡ put_entries new.old from.entry.count (listed_group change 0 from.entry.rest) }
{
    let (Place { rest, count }, status) = keep_listed(from, change, new);
    if status == change.offer {
        return Place { rest, count };
    }
    put(new, count, change);
    Place {
        rest,
        count: count + 1,
    }
}

// Passes the entries up to a line's code, and those of the code itself.
#[tactic(auto, unfolding(merge_rule::specs::Passes::line_entries, merge_rule::specs::Passes::line_rest), using(book_words::proofs::Stores::puts_on, merge_rule::proofs::MergedLength::gap_length))]
fn pass_line<'a>(from: Place<'a>, change: Entry, closings: &Closings, new: &mut [u64]) -> Place<'a>
    requires { from.count + 2 * length from.rest ≤ most_merged }
    ensures rest { result.rest ≡ line_rest change from.entry.rest }
    ensures count { result.count ≡ from.entry.count + length (line_entries change (closes_by closings.now.plan closings.now.marks.now) closings.now.plan.closing from.entry.rest) }
    ensures after { new.new ≡ put_entries new.old from.entry.count (line_entries change (closes_by closings.now.plan closings.now.marks.now) closings.now.plan.closing from.entry.rest) }
{
    let to = pass_unlisted(from, change.key, closings, new);
    pass_listed(to, change, new)
}

// Merges the entries that a book's header counts with the lines of a notice from a place on, at most so many and up to the first
// that does not read. Writes those that there is room for after the new book's header: into no words, it only counts them.
pub fn merge(
    old: &[u64],
    notice: &[u8],
    start: usize,
    lines: u64,
    closings: &Closings,
    new: &mut [u64],
) -> Merged
    ensures value { result ≡ merged_answer old.now closings.now.plan closings.now.marks.now notice.now start lines }
    ensures after { new.new ≡ merged_leaves old.now closings.now.plan closings.now.marks.now notice.now start lines new.old }
{
    let mut place = Place {
        rest: book::entries(old),
        count: 0,
    };
    let mut latest = book_words::header_of(old).latest;
    for line in Lines::of(notice, start, lines.min(notice_header::MOST_LINES)) {
        let change = effect::change_of(old, closings.plan, line);
        latest = latest.max(change.day);
        place = pass_line(place, change, closings, new);
    }
    let to = pass_unlisted(place, dial_code::KEYS_END, closings, new);
    Merged {
        count: to.count,
        latest,
    }
}
