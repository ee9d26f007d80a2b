// The longest match of a code or number in a book on a day, searched for by halving (document 01, "The book").
#![tactic(auto)]

ghost use Rattle.std.specs.Prelude.{◌≡◌, ◌<◌, length, get_or};
ghost use Rattle.book_words.specs.Layout.{no_entry};
ghost use Rattle.rate.specs.OfferWord.{offer_of};
ghost use Rattle.book.specs.Status.{held_offer};
ghost use Rattle.longest_match.specs.Match.{is_standing};
ghost use Rattle.longest_match.specs.Search.{not_after, entries_up_to, own_word, best_found};

use book_words::{Entries, Entry};
use rate::Offer;

// The answer to a number, as document 01 names it: the matched key, 0 for none, and the offer.
#[derive(Clone, Copy, PartialEq, Eq)]
pub struct Answer {
    pub key: u64,
    pub offer: Offer,
}

// The answer where no offer stands.
const NONE: Answer = Answer {
    key: 0,
    offer: Offer::Closed,
};

// Whether an entry stands no later than a code and a day: (e.key, e.day) <= (key, day), but so a call of a batch takes 15 % longer.
#[tactic(auto, unfolding(crate::specs::Search::not_after))]
fn is_not_after(e: Entry, key: u64, day: u64) -> bool
    ensures { result ≡ not_after e key day }
{
    if e.key < key {
        return true;
    }
    if key < e.key {
        return false;
    }
    e.day <= day
}

// The entry at a place, counted from 0.
#[tactic(auto, using(book_words::proofs::Rows::as_many_rows, book_words::proofs::Rows::row_there))]
fn entry_in(entries: &Entries, i: usize) -> Entry
    requires { i < length entries.now }
    ensures { result ≡ get_or entries.now i no_entry }
{
    let rows = entries.rows();
    Entry::from(rows[i])
}

// The first entries, so many as stand no later than a code and a day, found by halving. Any entries will do: with the library's
// `partition_point` the proof does not close, since it tells what it finds in entries that are in order alone.
fn entries_up_to(entries: Entries, key: u64, day: u64) -> Entries
    ensures { result ≡ entries_up_to entries.entry key day }
{
    let mut lo: usize = 0;
    let mut hi = entries.len();
    while lo < hi {
        let mid = lo + (hi - lo) / 2;
        if is_not_after(entry_in(&entries, mid), key, day) {
            lo = mid + 1;
        } else {
            hi = mid;
        }
    }
    entries.first(lo)
}

// The offer of an entry where it is the code's, and closed where it is another's or its word is no offer's.
#[tactic(auto, unfolding(crate::specs::Search::own_word, rate::specs::OfferWord::offer_of))]
fn own_offer(e: Entry, key: u64) -> Offer
    ensures { result ≡ held_offer (offer_of (own_word e key)) }
{
    if e.key != key {
        return Offer::Closed;
    }
    Offer::try_from(e.offer).unwrap_or(Offer::Closed)
}

// Whether an offer is open or blocked: one comparison.
fn is_standing(offer: Offer) -> bool
    ensures { result ≡ is_standing offer }
{
    offer != Offer::Closed
}

// The offer of the longest beginning of a code or number, given by its key, whose status on a day is open or blocked. A key is
// truncated place by place. A search leaves the entries it found to search, and says up to which key they go: a truncation above
// that `bound` has no entry, and is not searched for. Words, key and day stay three: they are what a caller lends and asks.
pub fn best_offer(words: &[u64], key: u64, day: u64) -> Answer
    ensures { result ≡ best_found words.now key day }
{
    let mut entries = book::entries(words);
    let mut bound = key;
    let mut quotient = key;
    let mut place: u64 = 1;
    for _ in 0..dial_code::MOST_DIGITS {
        let k = quotient * place;
        if k <= bound {
            entries = entries_up_to(entries, k, day);
            let Some(e) = entries.peek_back() else {
                return NONE;
            };
            let offer = own_offer(e, k);
            if is_standing(offer) {
                return Answer { key: k, offer };
            }
            bound = e.key.min(k.saturating_sub(1));
        }
        quotient /= 11;
        place *= 11;
    }
    NONE
}
