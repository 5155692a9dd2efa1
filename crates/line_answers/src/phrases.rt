// Parts of the line of an answer: counts, a number with its place, a limit.
// Put by a `Writer` and not by `Display`: std's `write!` says what it put only at `Ok`, which no clause promises.
ghost use Rattle.answer.specs.Numbers.{limit_meant};
ghost use Rattle.answer.specs.Meant.{counts_used};
ghost use Rattle.line_pieces.specs.Page.{puts};
ghost use Rattle.line_pieces.specs.Writes.{Writes};
ghost use Rattle.line_answers.specs.Written.{placed, counted, exhausted};

use line_pieces::Writer;
use machine::outcome::{Limit, Used};

#[tactic(auto, using(crate::proofs::PhraseSteps::counted_put))]
pub fn put_counts(page: &mut Writer, used: Used)
    ensures { Writes page.old page.new (λ p. puts (counted (counts_used used)) p) }
{
    page.put_word(b" steps ");
    page.put_number(used.steps as u64);
    page.put_word(b" cells ");
    page.put_number(used.cells as u64);
    page.put_word(b" bytes ");
    page.put_number(used.bytes as u64);
}

// A number and the place that it is about.
#[tactic(auto, using(crate::proofs::PhraseSteps::placed_put))]
pub fn put_placed(page: &mut Writer, number: u8, place: usize)
    ensures { Writes page.old page.new (λ p. puts (placed number place) p) }
{
    page.put_number(u64::from(number));
    page.put_word(b" at ");
    page.put_number(place as u64);
}

#[tactic(auto, unfolding(crate::specs::Written::exhausted))]
pub fn put_limit(page: &mut Writer, limit: Limit)
    ensures { Writes page.old page.new (λ p. puts (exhausted (limit_meant limit)) p) }
{
    match limit {
        Limit::Steps => page.put_word(b"Exhausted Steps"),
        Limit::Cells => page.put_word(b"Exhausted Cells"),
        Limit::Text => page.put_word(b"Exhausted Text"),
        Limit::Nesting => page.put_word(b"Exhausted Nesting"),
    }
}
