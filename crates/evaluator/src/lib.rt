// The evaluator of rules: from a table, its literal text, bindings, lent rooms and a step limit to a value, an error, exhaustion or a refusal.
#![tactic(auto)]

ghost use Rattle.std.specs.Prelude.{min};
ghost use Rattle.meaning.specs.Limits.{most_steps};
ghost use Rattle.table_check.specs.Records.{Sound, expr_of};
ghost use Rattle.rooms.specs.Rooms.{rooms};
ghost use Rattle.machine.specs.Answer.{answered};
ghost use Rattle.eval_outcomes.specs.Gives.{Gives};
ghost use Rattle.answer.specs.Evaluated.{ended};
ghost use Rattle.answer.specs.Meant.{Evaluates};

use answer::Answer;
use bindings_sound::Bindings;
use eval_record::eval::eval;
use machine::outcome::Used;
use meaning::refusal::Reason;
use rooms::memory::Lent;
use rooms::scope::Scope;

// An accepted table, run from nothing and ended. `evaluate` has judged the binding room before; nothing here asks that it did.
fn run(table: &[u8], lent: &mut Lent, steps: usize, scope: Scope) -> Answer
    requires { Sound table.now lent.old.literal.now 0 }
    ensures { Gives result lent.old lent.new (λ r. ended (answered table.now (min steps most_steps) (expr_of table.now lent.old.literal.now 0) scope r)) }
{
    let nothing = Used {
        steps: 0,
        cells: 0,
        bytes: 0,
    };
    let limit = answer::step_limit(steps);
    let outcome = eval(table, lent, limit, 0, scope, nothing);
    let text = &mut *lent.text;
    answer::answered(lent.cells, text, outcome)
}

// Any table, literal text, bindings with their lent cells and text, evaluation rooms and step limit have an answer. Refused is first what the table
// is refused for, then a binding room that is not sound.
pub fn evaluate(
    table: &[u8],
    literal: &[u8],
    bindings: Bindings,
    binding_cells: &[u64],
    binding_text: &[u8],
    cells: &mut [u64],
    text: &mut [u8],
    steps: usize,
) -> Answer
    ensures { Evaluates table.now bindings steps (rooms literal.now binding_cells.now binding_text.now cells.old text.old) result (rooms literal.now binding_cells.now binding_text.now cells.new text.new) }
{
    if let Err(refusal) = table_check::check(table, literal) {
        return Answer::Refused(refusal);
    }
    if let Err(place) = bindings_sound::sound(binding_cells, binding_text, bindings) {
        return Answer::Refused(Reason::UnsoundBinding.at(place));
    }
    let mut lent = Lent {
        literal,
        binding_cells,
        binding_text,
        cells,
        text,
    };
    run(table, &mut lent, steps, bindings.scope)
}
