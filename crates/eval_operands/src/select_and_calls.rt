// Select and the functions of one argument, after their operand. An error or exhaustion of the operand is the answer.
ghost use Rattle.machine.specs.Outcomes.{with_value};
ghost use Rattle.machine.specs.Selection.{select_field};
ghost use Rattle.machine.specs.Calls.{called};
ghost use Rattle.eval_outcomes.specs.Gives.{GivesCells};
ghost use Rattle.eval_outcomes.specs.Seen.{function_seen};

use eval_functions::optional_of::present;
use eval_functions::optional_value::{has_value, value};
use eval_functions::size::size;
use eval_outcomes::operators::Function;
use eval_selection::select::select_field;
use machine::outcome::{Outcome, Used};
use rooms::memory::Inputs;
use rooms::value::Value;

pub fn select(
    inputs: &Inputs,
    cells: &mut [u64],
    text: &[u8],
    limit: usize,
    test: bool,
    operand: Outcome,
    field: Value,
    at: usize,
) -> Outcome
    ensures { GivesCells result inputs.now text.now cells.old cells.new (λ r. with_value operand r (λ v u q. select_field limit at test field v u q)) }
{
    let Outcome::Value(container, used) = operand else {
        return operand;
    };
    select_field(inputs, cells, text, limit, test, container, field, at, used)
}

fn call_value(
    inputs: &Inputs,
    cells: &mut [u64],
    text: &[u8],
    function: Function,
    argument: Value,
    at: usize,
    used: Used,
) -> Outcome
    ensures { GivesCells result inputs.now text.now cells.old cells.new (λ r. called at (function_seen function) argument used r) }
{
    match function {
        Function::Size => size(&inputs.view(cells, text), argument, at, used),
        Function::Of => present(cells, argument, used),
        Function::HasValue => has_value(argument, at, used),
        Function::Value => value(&inputs.view(cells, text), argument, at, used),
    }
}

pub fn call(
    inputs: &Inputs,
    cells: &mut [u64],
    text: &[u8],
    function: Function,
    argument: Outcome,
    at: usize,
) -> Outcome
    ensures { GivesCells result inputs.now text.now cells.old cells.new (λ r. with_value argument r (λ v u q. called at (function_seen function) v u q)) }
{
    let Outcome::Value(value, used) = argument else {
        return argument;
    };
    call_value(inputs, cells, text, function, value, at, used)
}
