// Which entries stand on a day, the lines that they add to the standing list, how many these are and how many bytes they take
// (document 01, "Charging and writing"). Of any words: the entries are those that a sound header counts.
#![tactic(auto)]

ghost use Rattle.std.specs.Prelude.{◌≡◌, List, length};
ghost use Rattle.std.specs.Iterator.{YieldsFirst, item_count};
ghost use Rattle.line_writing.specs.LineLayout.{encode_lines};
ghost use Rattle.notice_line.specs.declared.Line.{Line};
ghost use Rattle.standing.specs.Pass.{stands, entry_line, passed, lines_by};

use book_words::{Entries, Entry};
use notice_line::Line;
use rate::Offer;
use std::marker::Model;

// Whether an entry is its code's status on a day, and that is not closed; `after` are the entries after it. Closed is the word 0: it
// is a word of a book, which may be any.
#[tactic(auto, unfolding(crate::specs::Pass::stands, crate::specs::Pass::is_replaced))]
pub fn is_standing(e: Entry, after: &Entries, day: u64) -> bool
    ensures { result ≡ stands e after.now day }
{
    e.day <= day
        && e.offer != 0
        && !after
            .peek()
            .is_some_and(|next| next.key == e.key && next.day <= day)
}

// The line of an entry: it has no listed day.
#[tactic(auto, unfolding(crate::specs::Pass::entry_line))]
pub fn line_of(e: Entry) -> Line
    ensures { result ≡ entry_line e }
{
    Line {
        key: e.key,
        // Every entry of a sound book has an offer word.
        offer: Offer::try_from(e.offer).unwrap_or(Offer::Closed),
        listed: 0,
    }
}

// The lines of a day that are left, the next first.
#[derive(Drop)]
pub struct Lines<'a> {
    rest: Entries<'a>,
    day: u64,
}

impl<'a> Model for Lines<'a> {
    ghost Value = { List Line };

    ghost view = { λ lines. passed lines.rest lines.day };
}

impl<'a> Lines<'a> {
    // Those of a book's words. No key is taken apart.
    #[tactic(auto, unfolding(crate::specs::Pass::lines_by))]
    pub fn of(words: &'a [u64], day: u64) -> Self
        ensures { result ≡ lines_by words.now day }
    {
        Lines {
            rest: book::entries(words),
            day,
        }
    }
}

impl<'a> Iterator for Lines<'a> {
    type Item = Line;

    ghost next_gives = { YieldsFirst (λ lines. lines) };

    ghost remaining = { item_count (λ lines. lines) };

    #[tactic(auto, unfolding(crate::specs::Pass::passed, crate::specs::Pass::added_by))]
    fn next(&mut self) -> Option<Line> {
        // Not a `for`: the entries after one tell whether it stands.
        while let Some(e) = self.rest.next() {
            if is_standing(e, &self.rest, self.day) {
                return Some(line_of(e));
            }
        }
        None
    }
}

// How many lines the entries add to the list of a day. Words and day stay two here and below: of any `Lines` a proof would not know
// that their count and size have room in a word.
#[tactic(auto, using(crate::proofs::Counted::lines_few))]
pub fn count_lines(words: &[u64], day: u64) -> usize
    ensures { result ≡ length (lines_by words.now day) }
{
    Lines::of(words, day).count()
}

// How many bytes these lines take: each has a size, since its fields have encodings.
#[tactic(auto, using(crate::proofs::Counted::bytes_few, crate::proofs::Counted::lines_encodable, crate::proofs::Counted::first_sized), unfolding(line_writing::specs::LineLayout::encode_lines))]
pub fn lines_size(words: &[u64], day: u64) -> usize
    ensures { result ≡ length (encode_lines (lines_by words.now day)) }
{
    let mut size = 0;
    for line in Lines::of(words, day) {
        size += line_writing::line_size(line).unwrap();
    }
    size
}
