// `||` and `&&`: whether one operand decides whatever the other is, and whether the right one is begun.
ghost use Rattle.std.specs.Prelude.{◌≡◌};
ghost use Rattle.meaning.specs.Logic.{absorbing, absorbs};
ghost use Rattle.machine.specs.Logic.{logic_left};
ghost use Rattle.eval_outcomes.specs.Seen.{fold_seen};

use eval_outcomes::operators::Fold;
use eval_outcomes::outcomes::truth_of;
use machine::outcome::{Outcome, Used};

// The operand that decides whatever the other is.
#[tactic(auto, unfolding(meaning::specs::Logic::absorbing))]
pub fn absorbing(fold: Fold) -> bool
    ensures { result ≡ absorbing (fold_seen fold) }
{
    matches!(fold, Fold::Or)
}

#[tactic(auto, unfolding(meaning::specs::Logic::absorbs))]
pub fn absorbs(fold: Fold, seen: Option<bool>) -> bool
    ensures { result ≡ absorbs (fold_seen fold) seen }
{
    match seen {
        Some(truth) => truth == absorbing(fold),
        None => false,
    }
}

// After the left operand: with which counts the right one is begun; if it is not, the left outcome is the answer.
// An error on the left goes on, exhaustion does not.
pub fn logic_left(fold: Fold, left: Outcome) -> Option<Used>
    ensures { result ≡ logic_left (fold_seen fold) left }
{
    match left {
        Outcome::Value(v, used) => {
            if absorbs(fold, truth_of(v)) {
                None
            } else {
                Some(used)
            }
        }
        Outcome::Error(_, _, used) => Some(used),
        Outcome::Exhausted(_, _) => None,
    }
}
