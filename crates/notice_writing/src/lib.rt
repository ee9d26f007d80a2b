// Writing the fields of a notice before its lines (document 01, "Notice layout").
#![tactic(auto)]

ghost use Rattle.std.specs.Prelude.{◌≡◌, length};
ghost use Rattle.std.specs.Fn.{CalledAt};
ghost use Rattle.varint_encoding.specs.Several.{sizes_if_encodable};
ghost use Rattle.varint_writing.specs.Writing.{answer_all, leaves_all};
ghost use Rattle.notice_writing.specs.Layout.{header_fields, country_count};

use notice_header::Kind;
use varint_encoding::numbers_size;
use varint_writing::{WriteError, write_numbers};

// How many digits a country code has, by its value.
fn country_count(country: u64) -> u64
    ensures { result ≡ country_count country }
{
    match country {
        0..=9 => 1,
        10..=99 => 2,
        _ => 3,
    }
}

// The fields before the lines, as they are sent: any numbers, since a `Kind` would ask more of callers. `country` is the value of a
// replacement's country, and is not sent for another kind.
#[derive(Clone, Copy, PartialEq, Eq)]
pub struct Fields {
    pub kind: u64,
    pub received: u64,
    pub country: u64,
    pub lines: u64,
}

// The fields' numbers, lent to what sizes or writes them: by `&mut`, so that its caller knows what it wrote.
#[tactic(auto, unfolding(crate::specs::Layout::header_fields))]
fn with_fields<R, F: FnMut(&[u64]) -> R>(fields: Fields, f: &mut F) -> R
    requires { F.IsAlwaysCallable f.old }
    ensures { CalledAt F.FnMut f.old (header_fields fields.kind fields.received fields.country fields.lines) result f.new }
{
    let Fields {
        kind,
        received,
        country,
        lines,
    } = fields;
    if kind == u64::from(Kind::Replacement(country)) {
        return f(&[kind, received, country_count(country), country, lines]);
    }
    f(&[kind, received, lines])
}

// How many bytes the fields before the lines take; None where one is too large to have an encoding.
pub fn header_size(fields: Fields) -> Option<usize>
    ensures { result ≡ sizes_if_encodable (header_fields fields.kind fields.received fields.country fields.lines) }
{
    with_fields(fields, &mut numbers_size)
}

// Writes the fields before the lines at a position of a lent slice. Where there is no room, or one is too large, no byte changes.
pub fn write_header(out: &mut [u8], at: usize, fields: Fields) -> Result<usize, WriteError>
    ensures value { result ≡ answer_all (length out.old) at (header_fields fields.kind fields.received fields.country fields.lines) }
    ensures after { out.new ≡ leaves_all out.old at (header_fields fields.kind fields.received fields.country fields.lines) }
{
    with_fields(fields, &mut |numbers| write_numbers(out, at, numbers))
}
