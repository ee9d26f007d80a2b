// Writing a line of a notice (document 01, "Notice layout"; rates with 8 decimals as in a standing list, "Charging and writing").
#![tactic(auto)]

ghost use Rattle.std.specs.Prelude.{◌≡◌, length};
ghost use Rattle.std.specs.Fn.{CalledAt};
ghost use Rattle.varint_encoding.specs.Several.{sizes_if_encodable};
ghost use Rattle.varint_writing.specs.Writing.{answer_all, leaves_all};
ghost use Rattle.line_writing.specs.LineLayout.{line_fields};

use dial_code::Code;
use line_terms::Status;
use notice_line::Line;
use rate::Offer;
use varint_encoding::numbers_size;
use varint_writing::{WriteError, write_numbers};

const SENT_DECIMALS: u64 = 8;

// A line's fields, lent to what sizes or writes them: by `&mut`, so that its caller knows what it wrote.
#[tactic(auto, unfolding(crate::specs::LineLayout::line_fields, crate::specs::LineLayout::offer_fields))]
fn with_fields<R, F: FnMut(&[u64]) -> R>(line: Line, f: &mut F) -> R
    requires { F.IsAlwaysCallable f.old }
    ensures { CalledAt F.FnMut f.old (line_fields line) result f.new }
{
    let Code { count, value } = dial_code::key_code(line.key);
    match line.offer {
        Offer::Closed => f(&[count, value, u64::from(Status::Delete), line.listed]),
        Offer::Blocked => f(&[count, value, u64::from(Status::Block), line.listed]),
        Offer::Open { rate, first, next } => f(&[
            count,
            value,
            u64::from(Status::Rate),
            SENT_DECIMALS,
            u64::from(rate.0),
            u64::from(first),
            u64::from(next),
            line.listed,
        ]),
    }
}

// How many bytes a line takes; None where its last field is too large to have an encoding.
pub fn line_size(line: Line) -> Option<usize>
    ensures { result ≡ sizes_if_encodable (line_fields line) }
{
    with_fields(line, &mut numbers_size)
}

// Writes a line at a position of a lent slice. Where there is no room, or a field is too large, no byte changes.
pub fn write_line(out: &mut [u8], at: usize, line: Line) -> Result<usize, WriteError>
    ensures value { result ≡ answer_all (length out.old) at (line_fields line) }
    ensures after { out.new ≡ leaves_all out.old at (line_fields line) }
{
    with_fields(line, &mut |fields| write_numbers(out, at, fields))
}
