// How many operators change each variable.

ghost use Rattle.std.specs.Prelude.{◌≡◌, ◌==◌, IfOk, All, length};
ghost use Rattle.sas_task.specs.Effects.{changes};
ghost use Rattle.task_simplifier.specs.Tallies.{IsTally, AreCounted, AreTallies, counted_in};

use sas_task::{Operator, SasTask, Var};
use std::alloc::{AllocError, Global};

/// How many operators were found to change a variable, and the turn of the last of them. Turns count from 1.
#[derive(Clone, Copy)]
pub(crate) struct Tally {
    pub operators: u64,
    pub last: u64,
}

impl Tally {
    /// The tally once an operator is found to change the variable in this turn. It counts once.
    fn counted(self, turn: u64) -> Tally
        requires { IsTally turn self }
        ensures { result ≡ counted_in turn self }
    {
        if self.last == turn {
            return self;
        }
        Tally {
            operators: self.operators + 1,
            last: turn,
        }
    }
}

/// Counts a change of the variable, if it has a tally.
fn count_change(tallies: &mut [Tally], turn: u64, var: Var)
    requires { All (IsTally turn) tallies.old }
    ensures { AreCounted turn (λ v. var == v) tallies.old tallies.new }
{
    let place = var as usize;
    if place < tallies.len() {
        tallies[place] = tallies[place].counted(turn);
    }
}

/// Counts the changes of an operator.
fn count_changes(tallies: &mut [Tally], turn: u64, operator: &Operator)
    requires { All (IsTally turn) tallies.old }
    ensures { AreCounted turn (changes operator.now) tallies.old tallies.new }
{
    for effect in operator.effects.as_slice() {
        count_change(tallies, turn, effect.var);
    }
}

/// The tally of each variable.
pub(crate) fn tallies(alloc: Global, task: &SasTask) -> Result<Vec<Tally>, AllocError>
    ensures { IfOk result (λ tallies. AreTallies task.now (length task.now.operators) task.now.operators tallies.items) }
{
    let none = Tally {
        operators: 0,
        last: 0,
    };
    let mut tallies = vec![in alloc; none; task.variables() as usize]?;
    let mut turn = 0;
    for operator in task.operator_slice() {
        turn += 1;
        count_changes(tallies.as_mut_slice(), turn, operator);
    }
    Ok(tallies)
}
