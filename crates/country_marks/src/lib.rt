// The countries that a partial notice names, as marks (document 01, "Effective days").
#![tactic(auto)]

ghost use Rattle.std.specs.Prelude.{◌≡◌};
ghost use Rattle.country_code.specs.CountryCode.{country_of_key};
ghost use Rattle.country_marks.specs.Marks.{marked, marks_of, marks_for};

use country_code::{Marks, VALUES_END};
use notice::Lines;
use notice_header::Kind;

// Marks the country of a key. The test is by hand: after a write through `get_mut` a proof does not know the marks.
#[tactic(auto, using(crate::proofs::Marking::marks_past))]
fn mark(marks: &mut Marks, key: u64)
    ensures { marks.new ≡ marked (country_of_key key) marks.old }
{
    if let Some(country) = country_code::country_of_key(key) {
        if country < VALUES_END as u64 {
            marks[country as usize] = 1;
        }
    }
}

// Marks the countries of lines.
#[tactic(auto, unfolding(crate::specs::Marks::marks_of))]
fn mark_lines(lines: Lines, marks: &mut Marks)
    ensures { marks.new ≡ marks_of marks.old lines.entry }
{
    for line in lines {
        mark(marks, line.key);
    }
}

// For a partial notice the countries named are first noted in the marks; for another notice, or with no kind, none. They are lent,
// since a copy of an answer would want `memcpy`, which a host may not have.
#[tactic(auto, unfolding(crate::specs::Marks::marks_for))]
pub fn mark_countries(kind: Option<Kind>, lines: Lines, marks: &mut Marks)
    ensures { marks.new ≡ marks_for kind lines.entry }
{
    marks.fill(0);
    if kind == Some(Kind::Partial) {
        mark_lines(lines, marks);
    }
}
