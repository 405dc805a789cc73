//! From a pair without faults to the task.

ghost use Rattle.std.specs.Prelude.{◌≡◌, ◌<◌, [], true, IfOk, length};
ghost use Rattle.std.specs.List.{list_all};
ghost use Rattle.type_checker.specs.Checked.{IsChecked};
ghost use Rattle.normal_task.specs.Lawful.{IsLawful as IsLawfulNormal};
ghost use Rattle.invariant_check.specs.WellFormed.{is_well_formed};
ghost use Rattle.invariant_guess.specs.Trial.{IsFound};
ghost use Rattle.ground_task.specs.Lawful.{IsLawful as IsLawfulGround};
ghost use Rattle.reached_task.specs.Lawful.{IsLawful};
ghost use Rattle.reached_task.specs.Reachable.{IsReachedTask};
ghost use Rattle.mutex_groups.specs.Laws.{IsReachedOf};
ghost use Rattle.run_task.specs.RunTask.{IsRunEncoding, IsRunTask, IsTaskOf};

use axiom_layers::layers;
use command_line::Settings;
use fdr_encoder::into_encoding;
use ground_task::Ground;
use group_cover::cover;
use invariant_guess::laws::finds;
use invariant_guess::{Found, find};
use mutex_groups::groups;
use mutex_groups::laws::groups_of_facts;
use normal_task::Normal;
use normaliser::normalise;
use reachable_instances::laws::same_reached_effects;
use reachable_instances::reachable_effects;
use reached_task::{Reached, Steps};
use relaxed_reach::into_reached;
use sas_task::SasTask;
use std::alloc::{AllocError, Global};
use std::marker::Brand;
use std::sync::ledger::{Blank, Ledger};
use task_simplifier::simplify;
use type_checker::Checked;

/// The invariants that were found, and the task to be written.
#[derive(Drop)]
pub struct Made {
    pub found: Found,
    pub task: SasTask,
}

/// The task that a pair means, stage by stage, before any pass, with as many candidates for invariants as the settings say, and
/// over whole groups where they say so. Where memory is wanting, there is none.
pub fn task_of_pair(alloc: Global, checked: Checked, settings: Settings) -> Result<Made, AllocError>
    requires { IsChecked checked }
    ensures { IfOk result (λ made. IsTaskOf checked settings [] made.found made.task) }
{
    let normalised = normalise(alloc, &checked);
    drop(checked);
    let normal = normalised?;
    let made = task_of_normal(alloc, &normal, settings);
    drop(normal);
    made
}

/// The invariants of a normal task, and the task that is made of it with these.
fn task_of_normal(alloc: Global, normal: &Normal, settings: Settings) -> Result<Made, AllocError>
    requires { IsLawfulNormal normal.now }
    ensures { IfOk result (λ made. IsFound normal.now settings.max_candidates made.found × IsRunTask settings.full_encoding normal.now made.found made.task) }
{
    finds();
    let found = find(alloc, normal, settings.max_candidates as u64)?;
    let task = simplified(alloc, normal, &found, settings.full_encoding)?;
    Ok(Made { found, task })
}

/// The task that is made of a normal task with these invariants.
fn simplified(
    alloc: Global,
    normal: &Normal,
    found: &Found,
    full: bool,
) -> Result<SasTask, AllocError>
    requires lawful { IsLawfulNormal normal.now }
    requires well_formed { list_all (is_well_formed normal.now) found.now.accepted ≡ true }
    ensures { IfOk result (IsRunTask full normal.now found.now) }
{
    let reached = reached_of(alloc, normal)?;
    let encoded = encoded(alloc, normal, found, reached, full)?;
    let task = simplify(alloc, encoded)?;
    Ok(task)
}

/// The encoding of the reached task over the cover by the groups of the invariants, with `full` by whole groups.
fn encoded(
    alloc: Global,
    normal: &Normal,
    found: &Found,
    reached: Reached,
    full: bool,
) -> Result<SasTask, AllocError>
    requires lawful { IsLawfulNormal normal.now }
    requires well_formed { list_all (is_well_formed normal.now) found.now.accepted ≡ true }
    requires reached { IsReachedOf normal.now reached }
    requires lawful_reached { IsLawful reached }
    ensures { IfOk result (IsRunEncoding full normal.now found.now) }
{
    groups_of_facts();
    let layers = layers(alloc, &reached)?;
    let groups = groups(alloc, normal, found.accepted.as_slice(), &reached)?;
    let cover = cover(alloc, facts_of(&reached), &groups, full)?;
    into_encoding(alloc, reached, &cover, &groups, &layers)
}

/// The number of facts.
fn facts_of(reached: &Reached) -> u64
    ensures { result ≡ length reached.now.facts }
{
    reached.facts.len() as u64
}

/// What can be reached of the normal task's instances.
fn reached_of(alloc: Global, normal: &Normal) -> Result<Reached, AllocError>
    requires { IsLawfulNormal normal.now }
    ensures reached { IfOk result (IsReachedOf normal.now) }
    ensures lawful { IfOk result IsLawful }
{
    same_reached_effects();
    let ground = reachable_effects(alloc, normal)?;
    reached::<Brand>(alloc, ground, Blank::new(1))
}

/// What can be reached of a ground task. Its steps are counted in the blank's ledger, which nothing asks for.
fn reached<L: Ledger>(alloc: Global, ground: Ground, blank: Blank) -> Result<Reached, AllocError>
    requires name { blank.name ≡ L.name }
    requires parts { blank.parts ≡ L.parts }
    requires some { 0 < L.parts }
    requires lawful { IsLawfulGround ground }
    ensures reached { IfOk result (IsReachedTask ground) }
    ensures lawful { IfOk result IsLawful }
{
    let mut steps = Steps::<L>::new(blank);
    into_reached(alloc, ground, &mut steps)
}
