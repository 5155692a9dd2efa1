// The function size.
ghost use Rattle.std.specs.Prelude.{◌≡◌};
ghost use Rattle.rooms.specs.Memory.{rooms_seen};
ghost use Rattle.rooms_text.specs.Sizes.{size_of};
ghost use Rattle.machine.specs.Calls.{size_out};

use eval_outcomes::outcomes::no_overload;
use machine::outcome::{Outcome, Used};
use rooms::memory::View;
use rooms::value::Value;
use rooms_text::sizes::size_in;

pub fn size(view: &View, v: Value, at: usize, used: Used) -> Outcome
    ensures { result ≡ size_out at used (size_of (rooms_seen view.now) v) }
{
    let Some(count) = size_in(view, v) else {
        return no_overload(at, used);
    };
    Outcome::Value(Value::Int(count as i64), used)
}
