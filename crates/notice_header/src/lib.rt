// A notice's leading fields (document 01, "Notice layout"), read through a reader that gives its numbers one by one.
#![tactic(auto)]

ghost use Rattle.std.specs.Prelude.{◌≡◌};
ghost use Rattle.notice_header.specs.HeaderRule.{kind_number, kind_country, read_country, read_kind, read_header};
ghost use Rattle.notice_header.specs.Placed.{placed};

use calendar::Day;
use country_code::country_of_key;
use dial_code::Code;
use refusal::Refusal;
use varint_reader::Reader;

pub const MOST_LINES: u64 = 65_535;

// The numbers of the kinds, as document 01 sends them: here once, for what is read and for `From`.
const FULL: u64 = 1;

const PARTIAL: u64 = 2;

const UPDATE: u64 = 3;

const REPLACEMENT: u64 = 4;

// The kind of a notice. A replacement has the value of the country whose codes it replaces.
#[derive(Clone, Copy, PartialEq, Eq)]
pub enum Kind {
    Full,
    Partial,
    Update,
    Replacement(u64),
}

// The number of a kind.
impl From<Kind> for u64 {
    ghost from_gives = { λ kind number. number ≡ kind_number kind };

    fn from(kind: Kind) -> u64 {
        match kind {
            Kind::Full => FULL,
            Kind::Partial => PARTIAL,
            Kind::Update => UPDATE,
            Kind::Replacement(_) => REPLACEMENT,
        }
    }
}

impl Kind {
    // The country whose codes a replacement replaces.
    pub fn country(self) -> Option<u64>
        ensures { result ≡ kind_country self }
    {
        match self {
            Kind::Replacement(country) => Some(country),
            _ => None,
        }
    }
}

// The fields before the lines; `start` is where the first line starts.
#[derive(Clone, Copy, PartialEq, Eq)]
pub struct Header {
    pub kind: Kind,
    pub received: u64,
    pub lines: u64,
    pub start: usize,
}

// The country that a replacement names: its digit count, then its value, exactly a country code.
#[tactic(auto, using(crate::proofs::Countries::read_steps, varint::proofs::Ranges::held_is))]
fn read_country(reader: &mut Reader<'_>) -> Result<u64, Refusal>
    ensures country { placed result reader.new.at ≡ read_country reader.old.src.now reader.old.at }
    ensures bytes { reader.new.src ≡ reader.old.src }
{
    let (count, _) = varint::in_range(reader.next(), 1, dial_code::MOST_DIGITS)?;
    let (value, _) = reader.next()?;
    let key = allowed_code::sent_code_key(Code { count, value })?;
    if country_of_key(key) != Some(value) {
        return Err(Refusal::CodeNotAllowed);
    }
    Ok(value)
}

// The kind of a number, as it is sent: only a replacement has fields of its own, which come after the received day, so that no
// `Kind` can be made before. Any other number is no kind's.
#[tactic(auto, unfolding(crate::specs::HeaderRule::read_kind))]
fn read_kind(number: u64, reader: &mut Reader<'_>) -> Result<Kind, Refusal>
    ensures kind { placed result reader.new.at ≡ read_kind number reader.old.src.now reader.old.at }
    ensures bytes { reader.new.src ≡ reader.old.src }
{
    Ok(match number {
        FULL => Kind::Full,
        PARTIAL => Kind::Partial,
        UPDATE => Kind::Update,
        REPLACEMENT => Kind::Replacement(read_country(reader)?),
        _ => return Err(Refusal::UnknownKind),
    })
}

// The fields before the lines.
#[tactic(auto, unfolding(crate::specs::HeaderRule::read_header, crate::specs::HeaderRule::read_dated, varint::specs::Ranged::read_ranged), using(varint::proofs::Ranges::held_is))]
pub fn leading_fields(notice: &[u8]) -> Result<Header, Refusal>
    ensures { result ≡ read_header notice.now }
{
    let mut reader = Reader::new(notice);
    let (number, _) = reader.next()?;
    if !(FULL..=REPLACEMENT).contains(&number) {
        return Err(Refusal::UnknownKind);
    }
    let (received, _) = varint::in_range(reader.next(), 0, Day::LAST_RECEIVED.0)?;
    let kind = read_kind(number, &mut reader)?;
    let (lines, start) = varint::in_range(reader.next(), 1, MOST_LINES)?;
    Ok(Header {
        kind,
        received,
        lines,
        start,
    })
}
