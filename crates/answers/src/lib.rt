// The answers of the library's calls as structs of 64-bit numbers, which a program in C can take: `refusal` is 0 or the number of
// the refusal, and with one all else is 0 but a blocked call's key.
#![tactic(auto)]

ghost use Rattle.std.specs.Prelude.{◌≡◌};
ghost use Rattle.answers.specs.Answers.{applied_of, answer_of, offer_of, call_of, batch_of, list_of, cell_of, number_or_zero};

use batch::Batch;
use history::Applied;
use longest_match::Answer;
use rate::Offer;
use rating::Call;
use refusal::Refusal;

#[repr(C)]
#[derive(Clone, Copy, PartialEq, Eq, Default)]
pub struct RateBookApplied {
    pub refusal: u64,
    pub entries: u64,
    pub received: u64,
    pub latest: u64,
}

// `status` is 0 for closed, 1 for blocked, 2 for open; rate and increments are 0 unless it is open.
#[repr(C)]
#[derive(Clone, Copy, PartialEq, Eq, Default)]
pub struct RateBookOffer {
    pub refusal: u64,
    pub key: u64,
    pub status: u64,
    pub rate: u64,
    pub first: u64,
    pub next: u64,
}

#[repr(C)]
#[derive(Clone, Copy, PartialEq, Eq, Default)]
pub struct RateBookCall {
    pub refusal: u64,
    pub key: u64,
    pub seconds: u64,
    pub charge: u64,
}

#[repr(C)]
#[derive(Clone, Copy, PartialEq, Eq, Default)]
pub struct RateBookBatch {
    pub refusal: u64,
    pub rated: u64,
    pub refused: u64,
    pub total: u64,
}

#[repr(C)]
#[derive(Clone, Copy, PartialEq, Eq, Default)]
pub struct RateBookList {
    pub refusal: u64,
    pub length: u64,
}

#[repr(C)]
#[derive(Clone, Copy, PartialEq, Eq, Default)]
pub struct RateBookCell {
    pub refusal: u64,
    pub count: u64,
}

// `rest` is where the part of the cell still to be read begins.
#[repr(C)]
#[derive(Clone, Copy, PartialEq, Eq, Default)]
pub struct RateBookCellEntry {
    pub refusal: u64,
    pub count: u64,
    pub rest: u64,
}

// The number of a refusal, 0 for none, as a host in C gets it.
pub fn number_or_zero(answer: Result<(), Refusal>) -> u64
    ensures { result ≡ number_or_zero answer }
{
    match answer {
        Ok(()) => 0,
        Err(e) => u64::from(e),
    }
}

impl From<Result<Applied, Refusal>> for RateBookApplied {
    ghost from_gives = { λ answer r. r ≡ applied_of answer };

    fn from(answer: Result<Applied, Refusal>) -> RateBookApplied {
        match answer {
            Ok(a) => RateBookApplied {
                refusal: 0,
                entries: a.entries,
                received: a.received,
                latest: a.latest,
            },
            Err(e) => RateBookApplied {
                refusal: u64::from(e),
                ..Self::default()
            },
        }
    }
}

impl From<Answer> for RateBookOffer {
    ghost from_gives = { λ answer r. r ≡ answer_of answer.key answer.offer };

    fn from(answer: Answer) -> RateBookOffer {
        let (status, rate, first, next) = match answer.offer {
            Offer::Closed => (0, 0, 0, 0),
            Offer::Blocked => (1, 0, 0, 0),
            Offer::Open { rate, first, next } => {
                (2, u64::from(rate.0), u64::from(first), u64::from(next))
            }
        };
        RateBookOffer {
            refusal: 0,
            key: answer.key,
            status,
            rate,
            first,
            next,
        }
    }
}

impl From<Result<Answer, Refusal>> for RateBookOffer {
    ghost from_gives = { λ found r. r ≡ offer_of found };

    fn from(found: Result<Answer, Refusal>) -> RateBookOffer {
        match found {
            Ok(answer) => RateBookOffer::from(answer),
            Err(e) => RateBookOffer {
                refusal: u64::from(e),
                ..Self::default()
            },
        }
    }
}

impl From<Call<Refusal>> for RateBookCall {
    ghost from_gives = { λ call r. r ≡ call_of call };

    fn from(call: Call<Refusal>) -> RateBookCall {
        match call.charged {
            Ok(charged) => RateBookCall {
                refusal: 0,
                key: call.key,
                seconds: charged.seconds,
                charge: charged.amount,
            },
            Err(e) => RateBookCall {
                refusal: u64::from(e),
                key: call.key,
                ..Self::default()
            },
        }
    }
}

impl From<Result<Batch, Refusal>> for RateBookBatch {
    ghost from_gives = { λ answer r. r ≡ batch_of answer };

    fn from(answer: Result<Batch, Refusal>) -> RateBookBatch {
        match answer {
            Ok(b) => RateBookBatch {
                refusal: 0,
                rated: b.rated,
                refused: b.refused,
                total: b.total,
            },
            Err(e) => RateBookBatch {
                refusal: u64::from(e),
                ..Self::default()
            },
        }
    }
}

impl From<Result<usize, Refusal>> for RateBookList {
    ghost from_gives = { λ written r. r ≡ list_of written };

    fn from(written: Result<usize, Refusal>) -> RateBookList {
        match written {
            Ok(length) => RateBookList {
                refusal: 0,
                length: length as u64,
            },
            Err(e) => RateBookList {
                refusal: u64::from(e),
                ..Self::default()
            },
        }
    }
}

impl From<Result<u64, Refusal>> for RateBookCell {
    ghost from_gives = { λ written r. r ≡ cell_of written };

    fn from(written: Result<u64, Refusal>) -> RateBookCell {
        match written {
            Ok(count) => RateBookCell { refusal: 0, count },
            Err(e) => RateBookCell {
                refusal: u64::from(e),
                ..Self::default()
            },
        }
    }
}
