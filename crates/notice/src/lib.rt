// A whole price notice (document 01, "Notice layout"): the fields before the lines, the lines, and the end.
#![tactic(auto)]

ghost use Rattle.std.specs.Prelude.{◌≡◌, List};
ghost use Rattle.std.specs.Iterator.{YieldsFirst, item_count};
ghost use Rattle.notice_line.specs.declared.Line.{Line};
ghost use Rattle.notice.specs.Lines.{lines_at};
ghost use Rattle.notice.specs.NoticeRule.{read_lines, scanned, check_notice};

use calendar::Day;
use notice_header::Header;
use notice_line::Line;
use refusal::Refusal;
use std::marker::Model;

// What later passes need of a checked notice: the fields before its lines, and the earliest listed day, where a line that lists
// none counts as listing day 0.
#[derive(Clone, Copy, PartialEq, Eq)]
pub struct Summary {
    pub header: Header,
    pub earliest: u64,
}

// Reads so many lines and then the end: each line from the place where the one before ended. Gives the earliest listed day.
#[tactic(auto, using(crate::proofs::Scanning::starts, crate::proofs::Scanning::turn, crate::proofs::Scanning::over, notice_line::proofs::LineLaws::line_spans, slice_laws::proofs::Slices::rest))]
fn scan_lines(named: Option<u64>, count: u64, lines: &[u8]) -> Result<u64, Refusal>
    ensures { result ≡ scanned (read_lines count named None lines.now) }
{
    let mut rest = lines;
    let mut before = None;
    let mut earliest = Day::LAST.0;
    // Document 01 names this form: the part from the next line's first byte on is handed to the line reader.
    for _ in 0..count {
        let (line, size) = notice_line::read_line(named, before, rest)?;
        rest = &rest[size..];
        before = Some(line);
        earliest = earliest.min(line.listed_day());
    }
    if !rest.is_empty() {
        return Err(Refusal::BytesLeft);
    }
    Ok(earliest)
}

// Checks a whole notice in one pass: what later passes need of it, or the first refusal of 1 to 9.
#[tactic(auto, using(notice_header::proofs::HeaderLaws::header_spans, slice_laws::proofs::Slices::rest, crate::proofs::Checking::check_steps))]
pub fn check_notice(notice: &[u8]) -> Result<Summary, Refusal>
    ensures { result ≡ check_notice notice.now }
{
    let header = notice_header::leading_fields(notice)?;
    let earliest = scan_lines(header.kind.country(), header.lines, &notice[header.start..])?;
    Ok(Summary { header, earliest })
}

// The lines of a checked notice that a walk over them has left, the next first, each read by itself.
#[derive(Drop)]
pub struct Lines<'a> {
    notice: &'a [u8],
    at: usize,
    left: u64,
}

impl<'a> Model for Lines<'a> {
    ghost Value = { List Line };

    ghost view = { λ lines. lines_at lines.left lines.notice.now lines.at };
}

impl<'a> Lines<'a> {
    // Those from a place on: so many, or those before the first that does not read.
    pub fn of(notice: &'a [u8], start: usize, lines: u64) -> Self
        ensures { result ≡ lines_at lines notice.now start }
    {
        Lines {
            notice,
            at: start,
            left: lines,
        }
    }
}

impl<'a> Iterator for Lines<'a> {
    type Item = Line;

    ghost next_gives = { YieldsFirst (λ lines. lines) };

    ghost remaining = { item_count (λ lines. lines) };

    #[tactic(auto, unfolding(crate::specs::Lines::lines_at))]
    fn next(&mut self) -> Option<Line> {
        self.left = self.left.checked_sub(1)?;
        let (line, end) = notice_line::line_at(self.notice, self.at).ok()?;
        self.at = end;
        Some(line)
    }
}
