//! The laws of runs. The functions do nothing: their clauses are the laws.

ghost use Rattle.translator.specs.OneRun.{OneEnding};
ghost use Rattle.translator.specs.Theorem.{OutputsTranslate};

use pass_book::laws::passes_keep;
use pddl_parser::laws::{domains_are_spelled, problems_are_spelled};
use run_task::laws::{one_task_of_a_run, passed_tasks_stand, tasks_translate};
use sas_reader::texts;

/// What the files hold and what the words ask for fix how a run ends, each byte that it writes, and its summary, since a pair
/// of files has one task.
pub fn one_ending_of_a_run()
    ensures { OneEnding }
{
    one_task_of_a_run();
    passes_keep();
}

/// The translation theorem: what a run writes is the text of a task that translates the pair of files, or may stand for the
/// written task, from which the run starts.
pub fn outputs_translate()
    ensures { OutputsTranslate }
{
    domains_are_spelled();
    problems_are_spelled();
    tasks_translate();
    texts();
    passed_tasks_stand();
}
