//! From two texts to the task.

ghost use Rattle.std.specs.Prelude.{[], IfOk, IfErr};
ghost use Rattle.pddl_parser.specs.DomainReading.{domain_reading};
ghost use Rattle.pddl_parser.specs.ProblemReading.{problem_reading};
ghost use Rattle.pddl_syntax.specs.Spelled.{IsWellSpelled, IsWellSpelledProblem};
ghost use Rattle.type_checker.specs.Checked.{IsChecked};
ghost use Rattle.type_checker.specs.Faults.{check_faults};
ghost use Rattle.translator.specs.Run as run;
ghost use Rattle.translator.specs.Stages.{Answers, IsMadeOf, StopsWhere, text_by};

use command_line::Settings;
use lists::Stop;
use messages::{End, Message};
use pddl_lexer::{Tree, read_tree};
use pddl_parser::{parse_domain, parse_problem};
use pddl_syntax::{Domain, Problem};
use run_task::{Made, task_of_pair};
use std::alloc::Global;
use type_checker::{Checked, Side, check};

/// A text, and the name under which its faults are told.
#[derive(Clone, Copy)]
pub(crate) struct Input<'n, 'b> {
    pub(crate) name: &'n str,
    pub(crate) bytes: &'b [u8],
}

/// The task that two texts mean, stage by stage. The first fault of the two ends it, or want of memory.
pub(crate) fn task_of<'n>(
    alloc: Global,
    domain: &Input<'n, '_>,
    problem: &Input<'n, '_>,
    settings: Settings,
) -> Result<Made, End<'n>>
    ensures ok { IfOk result (λ made. IsMadeOf (run.of_texts (text_by domain.now) (text_by problem.now)) settings [] made.found made.task) }
    ensures err { IfErr result (StopsWhere (run.of_texts (text_by domain.now) (text_by problem.now))) }
{
    let domain_tree = tree_of(alloc, domain)?;
    let problem_tree = tree_of(alloc, problem)?;
    let read_domain = domain_of(alloc, domain.name, domain_tree)?;
    let read_problem = problem_of(alloc, problem.name, problem_tree)?;
    let checked = checked(alloc, domain, problem, read_domain, read_problem)?;
    let made = task_of_pair(alloc, checked, settings)?;
    Ok(made)
}

/// The task that the made texts with this number of balls mean.
pub(crate) fn made_task<'n>(alloc: Global, balls: u32, settings: Settings) -> Result<Made, End<'n>>
    ensures ok { IfOk result (λ made. IsMadeOf (run.of_texts run.made_domain (run.made_problem balls)) settings [] made.found made.task) }
    ensures err { IfErr result (StopsWhere (run.of_texts run.made_domain (run.made_problem balls))) }
{
    let domain_bytes = made_texts::domain(alloc)?;
    let problem_bytes = made_texts::problem(alloc, balls)?;
    let domain = Input {
        name: "domain",
        bytes: &domain_bytes,
    };
    let problem = Input {
        name: "problem",
        bytes: &problem_bytes,
    };
    task_of(alloc, &domain, &problem, settings)
}

/// The one nested list of a text.
fn tree_of<'n, 'b>(alloc: Global, text: &Input<'n, 'b>) -> Result<Tree<'b>, End<'n>>
    ensures { Answers (run.tree_of (text_by text.now)) result }
{
    match read_tree(alloc, text.bytes) {
        Ok(tree) => Ok(tree),
        Err(Stop::Fault(fault)) => Err(End::Refused(text.name, Message::Fault(fault))),
        Err(Stop::NoMemory) => Err(End::NoMemory),
    }
}

/// The domain that is read in the tree of the file of this name.
fn domain_of<'n>(alloc: Global, name: &'n str, tree: Tree<'_>) -> Result<Domain, End<'n>>
    ensures reading { Answers (run.said name.now (domain_reading tree.entry)) result }
    ensures spelled { IfOk result IsWellSpelled }
{
    match parse_domain(alloc, &tree) {
        Ok(domain) => Ok(domain),
        Err(Stop::Fault(fault)) => Err(End::Refused(name, Message::Fault(fault))),
        Err(Stop::NoMemory) => Err(End::NoMemory),
    }
}

/// The problem that is read in the tree of the file of this name.
fn problem_of<'n>(alloc: Global, name: &'n str, tree: Tree<'_>) -> Result<Problem, End<'n>>
    ensures reading { Answers (run.said name.now (problem_reading tree.entry)) result }
    ensures spelled { IfOk result IsWellSpelledProblem }
{
    match parse_problem(alloc, &tree) {
        Ok(problem) => Ok(problem),
        Err(Stop::Fault(fault)) => Err(End::Refused(name, Message::Fault(fault))),
        Err(Stop::NoMemory) => Err(End::NoMemory),
    }
}

/// The pair of what was read in two texts, without a check fault.
fn checked<'n>(
    alloc: Global,
    domain: &Input<'n, '_>,
    problem: &Input<'n, '_>,
    read_domain: Domain,
    read_problem: Problem,
) -> Result<Checked, End<'n>>
    requires domain { IsWellSpelled read_domain }
    requires problem { IsWellSpelledProblem read_problem }
    ensures pair { Answers (run.unless_checked (text_by domain.now) (text_by problem.now) (check_faults read_domain read_problem) (record { domain = read_domain; problem = read_problem })) result }
    ensures checked { IfOk result IsChecked }
{
    match check(alloc, read_domain, read_problem) {
        Ok(pair) => Ok(pair),
        Err(Stop::Fault((Side::Domain, fault))) => Err(End::Refused(
            domain.name,
            Message::Fault(fault),
        )),
        Err(Stop::Fault((Side::Problem, fault))) => Err(End::Refused(
            problem.name,
            Message::Fault(fault),
        )),
        Err(Stop::NoMemory) => Err(End::NoMemory),
    }
}
