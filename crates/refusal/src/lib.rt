// The refusals of document 01, "Who can cause a refusal", and the number of each: the one place where a number is written for the
// code. specs/Refusal.antt has the numbers for the rules.
#![tactic(auto)]

ghost use Rattle.std.specs.Prelude.{◌≡◌};
ghost use Rattle.refusal.specs.Refusal.{number_of};

#[derive(Clone, Copy, PartialEq, Eq)]
pub enum Refusal {
    // The supplier or the call feed.
    // Bytes end before a due field's end, short of nine bytes.
    BytesEnd = 1,
    // A number not in its shortest form, or a ninth byte with its top bit set.
    NotShortest = 2,
    // Unknown kind or status.
    UnknownKind = 3,
    // A field outside its range.
    OutOfRange = 4,
    // A code that is not allowed, or a replacement country that is not exactly a country code.
    CodeNotAllowed = 5,
    // Keys not rising.
    KeysNotRising = 6,
    // A line outside the replacement's country.
    OutsideCountry = 7,
    // Replacement days differ.
    DaysDiffer = 8,
    // Bytes after the end.
    BytesLeft = 9,
    // Received before the last accepted notice.
    ReceivedEarlier = 10,
    // The host maker.
    // A book too short for a header.
    BookTooShort = 20,
    // A book that is not sound.
    BookNotSound = 21,
    // A notice period above 365.
    PeriodTooLong = 22,
    // Rows or list buffer too short.
    BufferTooShort = 23,
    // Supplier and host together.
    // More change days than the new book's entries held.
    BookFull = 30,
    // The caller.
    // A number that is empty, over 15 digits, with a non-digit or starting with 0.
    NotANumber = 40,
    // A day or moment beyond its end.
    TimeOutOfRange = 41,
    // A duration beyond its end.
    DurationTooLong = 42,
    // No offer; for a list, nothing standing.
    NoOffer = 43,
    // A blocked offer.
    OfferBlocked = 44,
    // The supplier's cells, and the memory lent for their keys (document 02, request 1).
    // An empty entry or range end, a stray byte, or a code that is not allowed.
    EntryNotAllowed = 50,
    // A range with ends of unequal length, falling, or of too many codes.
    RangeNotAllowed = 51,
    // More distinct keys than the lent slice holds.
    KeysTooMany = 52,
}

// What reading at a place comes to: what was read with the place after it, or a refusal.
pub type Read<T> = Result<(T, usize), Refusal>;

// The number of a refusal.
impl From<Refusal> for u64 {
    ghost from_gives = { λ e number. number ≡ number_of e };

    fn from(e: Refusal) -> u64 {
        e as u64
    }
}
