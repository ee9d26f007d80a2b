// What a number costs on a day (document 01, "The book").
#![tactic(auto)]

ghost use Rattle.std.specs.Prelude.{◌≡◌};
ghost use Rattle.lookup.specs.Lookup.{lookup};

use calendar::Day;
use longest_match::Answer;
use refusal::Refusal;

// What a number costs on a day: 20, 21, 40, 41, else the answer by longest match.
#[tactic(auto, using(crate::proofs::Lookups::lookup_steps))]
pub fn look_up(words: &[u64], number: &[u8], day: Day) -> Result<Answer, Refusal>
    ensures { result ≡ lookup words.now number.now day }
{
    book::check_book(words)?;
    let key = dialled_number::number_key(number)?;
    if !day.in_range() {
        return Err(Refusal::TimeOutOfRange);
    }
    Ok(longest_match::best_offer(words, key, day.0))
}
