//! The laws over all stages. The functions do nothing: their clauses are the laws.

ghost use Rattle.std.specs.Prelude.{[]};
ghost use Rattle.command_line.specs.declared.accepted.Settings.{Settings};
ghost use Rattle.type_checker.specs.Checked.{FilePair, IsChecked};
ghost use Rattle.normal_task.specs.Normalised.{normal};
ghost use Rattle.invariant_guess.specs.declared.types.Found.{Found};
ghost use Rattle.invariant_guess.specs.Trial.{IsFound};
ghost use Rattle.sas_task.specs.Task.{Task};
ghost use Rattle.run_task.specs.OneTask.{OneRunTask, OneTaskOfPair};
ghost use Rattle.run_task.specs.RunTask.{IsRunTask};
ghost use Rattle.run_task.specs.Theorem.{TranslatesPair, TasksTranslate, PassedTasksStand};
ghost use Rattle.run_task.specs.OperatorCosts.{InEncodings, InRestrictions, InProjections};

use fdr_encoder::laws::{covers, exclusive_covers, simulation, validity};
use ground_task::laws::one_ground_task;
use group_cover::laws::one_cover_of_same;
use invariant_guess::laws::finds;
use mutex_groups::laws::{groups_are_exclusive, groups_of_facts, one_set_of_groups};
use normal_task::laws::{names_tell_costs, same_task};
use pass_book::laws::passes_keep;
use pddl_syntax::laws::idle_steps;
use plan_backmap::solutions_cost_the_total;
use task_simplifier::laws::{orders_forgotten, projection_keeps};

/// The task that a run without passes makes of a pair without faults is valid, and translates the pair.
fn run_task_translates()
    ensures { (pair : FilePair) (settings : Settings) (found : Found) (task : Task) → IsChecked pair → IsFound (normal pair.domain pair.problem) settings.max_candidates found →
        IsRunTask settings.full_encoding (normal pair.domain pair.problem) found task → TranslatesPair [] pair task }
{
    // The pair: steps that change nothing can be left out of its plans.
    idle_steps();
    // The normal task: it is lawful, and its plans are the pair's.
    normal_task::laws::lawful();
    same_task();
    // The ground task: it is lawful, no axiom needs itself, and its plans are the normal task's.
    ground_task::laws::lawful();
    ground_task::laws::statics_kept();
    ground_task::laws::instances_ranked();
    ground_task::laws::no_recursion();
    ground_task::laws::same_meaning();
    // The reached task: it is lawful, and its plans are the ground task's.
    reached_task::laws::lawful();
    reached_task::laws::same_meaning();
    // The invariants: they hold, so at most one fact of a group is ever true.
    finds();
    groups_are_exclusive();
    groups_of_facts();
    // The cover: its sets have every fact, and at most one fact of a set is ever true.
    covers();
    exclusive_covers();
    // The encoding: it is valid, and its plans are the reached task's.
    validity();
    simulation();
    // The projection: it is valid, and its plans are the encoding's.
    projection_keeps();
    // The costs: names tell what operators cost, so plans cost what their steps do.
    names_tell_costs();
    operators_tell_costs();
    solutions_cost_the_total();
}

/// The translation theorem: the task that a run makes of a pair without faults is valid, and translates the pair, whatever passes
/// were asked for.
pub fn tasks_translate()
    ensures { TasksTranslate }
{
    run_task_translates();
    passes_keep();
    solutions_cost_the_total();
}

/// What passes make of a valid written task is valid, and may stand for it.
pub fn passed_tasks_stand()
    ensures { PassedTasksStand }
{
    passes_keep();
}

/// A normal task has one task of a run without passes, with what was found for it (`task`). So a pair of files has one for each
/// number of candidates that may be tried, over whole groups or not, and each list of passes (`pair`).
pub fn one_task_of_a_run()
    ensures task { OneRunTask }
    ensures pair { OneTaskOfPair }
{
    finds();
    one_ground_task();
    reached_task::laws::one_but_for_order();
    one_set_of_groups();
    one_cover_of_same();
    fdr_encoder::laws::one_but_for_order();
    orders_forgotten();
    passes_keep();
}

/// Operators of one name have one cost, where steps of the normal task do: in an encoding of what is reached of the
/// task, in a restriction of a task whose operators do, and in its projection.
pub fn operators_tell_costs()
    ensures encodings { InEncodings }
    ensures restrictions { InRestrictions }
    ensures projections { InProjections }
{}
