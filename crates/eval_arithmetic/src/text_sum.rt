// `+` on texts: both are copied, one after the other, to the end of the room.
ghost use Rattle.rooms.specs.Value.{plain_of};
ghost use Rattle.machine.specs.Numbers.{string_sum, bytes_sum};
ghost use Rattle.eval_outcomes.specs.Gives.{Gives};
ghost use Rattle.eval_arithmetic.specs.TextSums.{joined_of};

use eval_outcomes::outcomes::{no_overload, with_bytes};
use machine::outcome::{Limit, Outcome, Used};
use rooms::memory::Lent;
use rooms::value::{Plain, Span, TextSpace, Value, plain_of};
use rooms_taking::copying::copy_text;
use rooms_taking::take_text;

// What two texts make, one after the other at the end of the evaluation's text, and what is used with it.
#[derive(Clone, Copy)]
pub struct Joined {
    pub span: Span,
    pub used: Used,
}

// None if there is not enough room.
fn join_texts(lent: &mut Lent, span: Span, other: Span, used: Used) -> Option<Joined>
    ensures { Gives result lent.old lent.new (λ r. joined_of span other used r) }
{
    let end = used.bytes;
    let all = (span.length as usize) + (other.length as usize);
    let after = take_text(lent.view().text, end, all)?;
    let to = end as u16;
    copy_text(lent, span, to);
    copy_text(lent, other, to + span.length);
    let joined = Span {
        space: TextSpace::Evaluation,
        first: to,
        length: all as u16,
    };
    Some(Joined {
        span: joined,
        used: with_bytes(used, after),
    })
}

pub fn string_sum(lent: &mut Lent, span: Span, right: Value, at: usize, used: Used) -> Outcome
    ensures { Gives result lent.old lent.new (λ r. string_sum at span.space span.first span.length (plain_of right) used r) }
{
    let Plain::String(other) = plain_of(right) else {
        return no_overload(at, used);
    };
    match join_texts(lent, span, other, used) {
        Some(joined) => Outcome::Value(Value::String(joined.span), joined.used),
        None => Outcome::Exhausted(Limit::Text, used),
    }
}

// Apart from `string_sum`: the kind stands in the pattern, in the value and in the machine's rule, and nothing but these is left to share.
pub fn bytes_sum(lent: &mut Lent, span: Span, right: Value, at: usize, used: Used) -> Outcome
    ensures { Gives result lent.old lent.new (λ r. bytes_sum at span.space span.first span.length (plain_of right) used r) }
{
    let Plain::Bytes(other) = plain_of(right) else {
        return no_overload(at, used);
    };
    match join_texts(lent, span, other, used) {
        Some(joined) => Outcome::Value(Value::Bytes(joined.span), joined.used),
        None => Outcome::Exhausted(Limit::Text, used),
    }
}
