// The order of the variables.

ghost use Rattle.std.specs.Prelude.{◌≡◌, map, IfOk, slice_index_or};
ghost use Rattle.std.specs.List.{range_with_len};
ghost use Rattle.sas_restriction.specs.Reordered as meaning;
ghost use Rattle.task_simplifier.specs.Counted.{no_tally, counted_cmp, counted_total, counted_by};

use crate::tallies::{Tally, tallies};
use sas_task::{Ranked, SasTask, Var, ordered};
use std::alloc::{AllocError, Global};
use std::cmp::Ordering;

/// A variable, with the number of operators that change it.
#[derive(Drop)]
pub(crate) struct Counted {
    pub operators: u64,
    pub var: Var,
}

impl Ranked for Counted {
    ghost cmp = { counted_cmp };

    ghost total = { counted_total };

    fn order(&self, back: &Counted) -> Ordering {
        self.operators
            .cmp(&back.operators)
            .then(self.var.cmp(&back.var))
    }
}

/// How many operators a tally has counted, and 0 where there is no tally.
fn operators_at(tallies: &[Tally], var: Var) -> u64
    ensures { result ≡ (slice_index_or tallies.now var no_tally).operators }
{
    match tallies.get(var as usize) {
        Some(tally) => tally.operators,
        None => 0,
    }
}

/// The variables with their tallies.
fn all_counted(alloc: Global, tallies: &[Tally], count: u64) -> Result<Vec<Counted>, AllocError>
    ensures { IfOk result (λ all. all.items ≡ map (counted_by (λ var. (slice_index_or tallies.now var no_tally).operators)) (range_with_len 0 count)) }
{
    (0..count)
        .map(|var| Counted {
            operators: operators_at(tallies, var),
            var,
        })
        .collect(alloc)
}

/// The variables alone.
fn variables_of(alloc: Global, all: &[Counted]) -> Result<Vec<Var>, AllocError>
    ensures { IfOk result (λ variables. variables.items ≡ map (λ c. c.var) all.now) }
{
    all.iter().map(|counted| counted.var).collect(alloc)
}

/// The variables, those that fewer operators change first.
pub(crate) fn variable_order(alloc: Global, task: &SasTask) -> Result<Vec<Var>, AllocError>
    ensures { IfOk result (λ order. order.items ≡ meaning.variable_order task.now) }
{
    let tallies = tallies(alloc, task)?;
    let all = all_counted(alloc, tallies.as_slice(), task.variables())?;
    let sorted = ordered(all)?;
    let variables = variables_of(alloc, sorted.as_slice())?;
    Ok(variables)
}
