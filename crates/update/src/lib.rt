// Applying a notice to a book (document 01, "Effective days", "The book"): the notice is checked, its countries are noted, and the
// book is merged with its lines, counted first unless there is room in any case.
#![tactic(auto)]

ghost use Rattle.std.specs.Prelude.{◌≡◌, true, Ok, ◌+◌, ◌*◌, ◌≤◌, leb, length};
ghost use Rattle.calendar.specs.Time.{last_received_day};
ghost use Rattle.notice_header.specs.HeaderRule.{most_lines};
ghost use Rattle.notice.specs.NoticeRule.{check_notice};
ghost use Rattle.book_words.specs.Layout.{header_words, entry_words, most_period, held, book_of, period_of, put_entries};
ghost use Rattle.book.specs.Soundness.{sound};
ghost use Rattle.history.specs.Applying.{apply_answer, applied};
ghost use Rattle.notice.specs.Lines.{lines_at};
ghost use Rattle.update.specs.Plans.{plan_of};
ghost use Rattle.update.specs.NewBooks.{Contents, contents};

use book_words::Header;
use closing::Closings;
use effect::Plan;
use history::Applied;
use merge::Merged;
use notice::{Lines, Summary};
use notice_header::Kind;
use refusal::Refusal;
use std::marker::Model;

// Applies a notice to an old book and writes the new one: 20 and 21 for the old book, 20 for the new, the notice's own refusals,
// 10, 30. A refused apply changes no word.
#[tactic(auto, unfolding(history::specs::Applying::apply_notice, history::specs::Applying::apply_answer, history::specs::Applying::applied), using(book::proofs::Usable::usable_sound, notice::proofs::Checking::check_refused, crate::proofs::Answering::refuses_notice))]
pub fn apply(old: &[u64], notice: &[u8], new: &mut [u64]) -> Result<Applied, Refusal>
    ensures value { result ≡ apply_answer old.now notice.now (length new.old) }
    ensures after { new.new ≡ applied old.now notice.now new.old }
{
    book::check_book(old)?;
    if new.len() < book_words::HEADER_WORDS {
        return Err(Refusal::BookTooShort);
    }
    let m = notice::check_notice(notice)?;
    apply_checked(old, notice, m, new)
}

// Applies a notice that has been checked. Nothing is written until nothing can be refused.
fn apply_checked<'a>(
    old: &'a [u64],
    notice: &'a [u8],
    m: Summary,
    new: &mut [u64],
) -> Result<Applied, Refusal>
    requires { (sound old.now ≡ true) × (header_words ≤ length new.old) × (check_notice notice.now ≡ Ok m) }
    ensures value { result ≡ apply_answer old.now notice.now (length new.old) }
    ensures after { new.new ≡ applied old.now notice.now new.old }
{
    let header = book_words::header_of(old);
    if m.header.received < header.received {
        return Err(Refusal::ReceivedEarlier);
    }
    // In the form that document 01 names, of the type `Marks`, which holds it to the length.
    let mut marks: country_code::Marks = [0; 1000];
    country_marks::mark_countries(
        Some(m.header.kind),
        Lines::of(notice, m.header.start, m.header.lines),
        &mut marks,
    );
    let closings = Closings {
        plan: plan_of(m, header.period, header.latest),
        marks: &marks,
    };
    let book = NewBook {
        before: old,
        notice,
        header: m.header,
        closings,
    };
    if !book.has_room(new.len()) {
        return Err(Refusal::BookFull);
    }
    let done = book.fill(new);
    Ok(Applied {
        entries: done.count as u64,
        received: m.header.received,
        latest: done.latest,
    })
}

// What a notice asks of every line and of the codes that it does not list.
#[tactic(auto, unfolding(crate::specs::Plans::plan_of))]
fn plan_of(m: Summary, period: u64, latest: u64) -> Plan
    requires { (m.header.received ≤ last_received_day) × (period ≤ most_period) }
    ensures { result ≡ plan_of m period latest }
{
    let floor = m.header.received + period;
    let wanted = m.header.received.max(m.earliest);
    let replaces = matches!(m.header.kind, Kind::Replacement(_));
    Plan {
        kind: Some(m.header.kind),
        received: m.header.received,
        floor,
        noticed: replaces || wanted < latest,
        closing: if replaces { wanted.max(floor) } else { floor },
    }
}

// The book after a checked notice: the one before it, merged with the lines of the notice.
#[derive(Drop)]
struct NewBook<'a, 'm> {
    before: &'a [u64],
    notice: &'a [u8],
    header: notice_header::Header,
    closings: Closings<'m>,
}

impl<'a, 'm> Model for NewBook<'a, 'm> {
    ghost Value = { Contents };

    ghost view = { λ b. contents b.before.now b.closings.plan b.closings.marks.now b.header.received (lines_at b.header.lines b.notice.now b.header.start) };

    ghost invariant = { λ b. b.header.lines ≤ most_lines };
}

impl NewBook<'_, '_> {
    // Puts those of its entries that there is room for into words: into no words, it only counts them.
    #[tactic(auto, using(merge::proofs::Merging::written))]
    fn merge(&self, new: &mut [u64]) -> Merged
        ensures value { (result.count ≡ length self.now.entries) × (result.latest ≡ self.now.latest) }
        ensures after { new.new ≡ put_entries new.old 0 self.now.entries }
    {
        merge::merge(
            self.before,
            self.notice,
            self.header.start,
            self.header.lines,
            &self.closings,
            new,
        )
    }

    // Whether so many words can hold it. The entries are at most two for each of the book before and one for each line, and are
    // counted only where there might be no room for so many.
    fn has_room(&self, len: usize) -> bool
        ensures { result ≡ leb (length self.now.entries) (held len) }
    {
        let most = book_words::entries_held(len);
        if (book::headed_count(self.before) as u64) * 2 + self.header.lines <= most as u64 {
            return true;
        }
        let counted = self.merge(&mut []);
        counted.count <= most
    }

    // Writes it: entries, zeros, header.
    fn fill(&self, new: &mut [u64]) -> Merged
        requires { header_words + length self.now.entries * entry_words ≤ length new.old }
        ensures value { (result.count ≡ length self.now.entries) × (result.latest ≡ self.now.latest) }
        ensures after { new.new ≡ book_of (length new.old) self.now.period self.now.received self.now.latest self.now.entries }
    {
        let done = self.merge(new);
        book_words::clear(
            new,
            book_words::HEADER_WORDS + done.count * book_words::ENTRY_WORDS,
        );
        let header = Header {
            count: done.count as u64,
            period: book_words::header_of(self.before).period,
            received: self.header.received,
            latest: done.latest,
        };
        book_words::write_header(new, header);
        done
    }
}
