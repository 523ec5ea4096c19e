// What C is told of a step that is not refused. It exports nothing.
#![tactic(auto)]

ghost use Rattle.std.specs.Prelude.{◌≡◌};
ghost use Rattle.c_numbers.specs.declared.numbers.Told.{Told};
ghost use Rattle.c_numbers.specs.Numbers.{alone, Small};
ghost use Rattle.c_told.specs.Told.{told_by, outcome_of};

use c_numbers::numbers::Told;
use das_answer::Answer;

// The number of a step's ending, 600 where it goes on, and the four numbers beside it, whatever they were.
#[tactic(auto, unfolding(crate::specs::Told::told_by))]
pub fn tell(ending: Option<Answer>) -> Told
    requires { Small (told_by (outcome_of ending) (alone 0)) }
    ensures { (old : Told) → result ≡ told_by (outcome_of ending) old }
{
    match ending {
        None => Told::alone(600),
        Some(a) => c_numbers::numbers::tell(a, Told::alone(0)),
    }
}
