//! The groups of normal tasks.

ghost use Rattle.std.specs.Prelude.{◌≡◌, true, IfOk};
ghost use Rattle.std.specs.List.{list_all};
ghost use Rattle.normal_task.specs.Lawful.{IsLawful};
ghost use Rattle.invariant_check.specs.WellFormed.{is_well_formed};

use crate::grounds::reached_task;
use group_cover::Groups;
use invariant_guess::laws::finds;
use invariant_guess::{Found, find};
use mutex_groups::groups;
use normal_task::Normal;
use reached_task::Reached;
use std::alloc::{AllocError, Global};

/// A reached task, and groups of its facts.
#[derive(Drop)]
pub(crate) struct Grouped {
    pub(crate) reached: Reached,
    pub(crate) groups: Groups,
}

/// The accepted ones of at most 100,000 candidates.
fn found_of(alloc: Global, normal: &Normal) -> Result<Found, AllocError>
    ensures { IfOk result (λ found. list_all (is_well_formed normal.now) found.accepted ≡ true) }
{
    finds();
    find(alloc, normal, 100000)
}

/// The reached task of a normal task, and the groups of the candidates that are accepted.
pub(crate) fn grouped_of(alloc: Global, normal: &Normal) -> Result<Grouped, AllocError>
    requires { IsLawful normal.now }
{
    let found = found_of(alloc, normal)?;
    let reached = reached_task(alloc, normal)?;
    let groups = groups(alloc, normal, found.accepted.as_slice(), &reached)?;
    Ok(Grouped { reached, groups })
}
