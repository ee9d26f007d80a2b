// The standing list of a day (document 01, "Charging and writing").
#![tactic(auto)]

ghost use Rattle.std.specs.Prelude.{◌≡◌, ◌+◌, ◌≤◌, leb, length, MatchResult, Ok};
ghost use Rattle.std.proofs.lemmas.List.Edits.{sets};
ghost use Rattle.notice_header.specs.HeaderRule.{kind_number};
ghost use Rattle.notice_header.specs.declared.Kind.TheVariants.{Full};
ghost use Rattle.line_writing.specs.LineLayout.{encode_lines};
ghost use Rattle.book_words.specs.Layout.{entries_of};
ghost use Rattle.standing.specs.Pass.{lines_by};
ghost use Rattle.listing.specs.List.{standing_lines, list_of, check_list, list_answer, list_bytes};

use calendar::Day;
use notice_header::Kind;
use notice_writing::Fields;
use refusal::Refusal;
use standing::Lines;

// A line of the list takes at most so many bytes.
const MOST_LINE: usize = 21;

// Writes the lines of a day from a place of the lent bytes on, and gives the place after them. They have room, and every field of
// a line has an encoding.
fn write_lines(words: &[u64], day: u64, out: &mut [u8], from: usize) -> usize
    requires { from + length (encode_lines (lines_by words.now day)) ≤ length out.old }
    ensures value { result ≡ from + length (encode_lines (lines_by words.now day)) }
    ensures after { out.new ≡ sets out.old from (encode_lines (lines_by words.now day)) }
{
    let mut end = from;
    for line in Lines::of(words, day) {
        end = line_writing::write_line(out, end, line).unwrap();
    }
    end
}

// A standing list that is not empty: that of a book that can be used, on a day on which it can be received, of so many lines.
#[derive(Clone, Copy)]
struct StandingList<'a> {
    words: &'a [u64],
    day: Day,
    lines: usize,
    ghost is_there: { check_list words.now day ≡ Ok tt },
    ghost lines_counted: { lines ≡ length (standing_lines (entries_of words.now) day.0) },
}

impl<'a> StandingList<'a> {
    // The list of a day, or why there is none: 20, 21, 41, 43.
    #[tactic(auto, using(crate::proofs::Answering::no_book, crate::proofs::Answering::counted, crate::proofs::Answering::by_pass))]
    fn new(words: &'a [u64], day: Day) -> Result<Self, Refusal>
        ensures { MatchResult result (λ list. (list.words.now ≡ words.now) × (list.day ≡ day)) (λ e. check_list words.now day ≡ Err e) }
    {
        book::check_book(words)?;
        if !day.can_be_received() {
            return Err(Refusal::TimeOutOfRange);
        }
        let lines = standing::count_lines(words, day.0);
        if lines == 0 {
            return Err(Refusal::NoOffer);
        }
        Ok(StandingList { words, day, lines })
    }

    // The fields before its lines.
    fn header(&self) -> Fields
        ensures { result ≡ record { kind = kind_number Full; received = self.now.day.0; country = 0; lines = self.now.lines } }
    {
        Fields {
            kind: u64::from(Kind::Full),
            received: self.day.0,
            country: 0,
            lines: self.lines as u64,
        }
    }

    // Whether so many bytes hold it. Its lines' sizes are added up only where lines of the largest size would not fit.
    fn fits(&self, room: usize) -> bool
        ensures { result ≡ leb (length (list_of self.now.words.now self.now.day)) room }
    {
        let header = notice_writing::header_size(self.header()).unwrap();
        header + self.lines * MOST_LINE <= room
            || header + standing::lines_size(self.words, self.day.0) <= room
    }

    // Writes it, and gives its length.
    fn write(&self, out: &mut [u8]) -> usize
        requires { length (list_of self.now.words.now self.now.day) ≤ length out.old }
        ensures value { result ≡ length (list_of self.now.words.now self.now.day) }
        ensures after { out.new ≡ sets out.old 0 (list_of self.now.words.now self.now.day) }
    {
        let at = notice_writing::write_header(out, 0, self.header()).unwrap();
        write_lines(self.words, self.day.0, out, at)
    }
}

// Writes the standing list of a day into lent bytes: 20, 21, 41, 43, 23. The bytes after it are untouched, and a refusal
// leaves all of them.
#[tactic(auto, using(crate::proofs::Answering::refused_answer, crate::proofs::Answering::refused_bytes, crate::proofs::Answering::answer_by_room, crate::proofs::Answering::bytes_by_room))]
pub fn write_list(words: &[u64], day: Day, out: &mut [u8]) -> Result<usize, Refusal>
    ensures value { result ≡ list_answer words.now day (length out.old) }
    ensures after { out.new ≡ list_bytes words.now day out.old }
{
    let list = StandingList::new(words, day)?;
    if !list.fits(out.len()) {
        return Err(Refusal::BufferTooShort);
    }
    Ok(list.write(out))
}
