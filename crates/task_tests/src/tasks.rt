//! The checked pair and the normal task of two texts, and what is asked of that task.

ghost use Rattle.std.specs.Prelude.{IfOk, IfSome};
ghost use Rattle.pddl_syntax.specs.Spelled.{IsWellSpelled, IsWellSpelledProblem};
ghost use Rattle.type_checker.specs.Checked.{IsChecked};
ghost use Rattle.normal_task.specs.Lawful.{IsLawful};

use lists::Stop;
use normal_task::Normal;
use normaliser::normalise;
use pddl_lexer::{Fault, read_tree};
use pddl_parser::{parse_domain, parse_problem};
use pddl_syntax::{Domain, Problem};
use std::alloc::Global;
use std::process::Abort;
use std::test::*;
use type_checker::{Checked, Side, check};

/// What is asked of a normal task, with the answer that was worked by hand.
pub(crate) trait Asked {
    /// Whether that is the answer.
    fn is_answered(&self, alloc: Global, normal: &Normal) -> bool
        requires { IsLawful normal.now };
}

/// A domain, a problem, and what is asked of their normal task.
pub(crate) type Row<Q> = (&'static str, &'static str, Q);

fn domain_of(alloc: Global, text: &str) -> Option<Domain>
    ensures { IfSome result IsWellSpelled }
{
    let tree = read_tree(alloc, text.as_bytes()).ok()?;
    parse_domain(alloc, &tree).ok()
}

fn problem_of(alloc: Global, text: &str) -> Option<Problem>
    ensures { IfSome result IsWellSpelledProblem }
{
    let tree = read_tree(alloc, text.as_bytes()).ok()?;
    parse_problem(alloc, &tree).ok()
}

fn check_pair(
    alloc: Global,
    domain: Domain,
    problem: Problem,
) -> Result<Checked, Stop<(Side, Fault)>>
    requires domain { IsWellSpelled domain }
    requires problem { IsWellSpelledProblem problem }
    ensures { IfOk result IsChecked }
{
    check(alloc, domain, problem)
}

/// The pair of two texts, where they have no fault.
fn checked_of(alloc: Global, domain: &str, problem: &str) -> Option<Checked>
    ensures { IfSome result IsChecked }
{
    let domain = domain_of(alloc, domain)?;
    let Some(problem) = problem_of(alloc, problem) else {
        drop(domain);
        return None;
    };
    check_pair(alloc, domain, problem).ok()
}

/// The normal task of two texts, where they have no fault.
fn normal_task(alloc: Global, domain: &str, problem: &str) -> Option<Normal>
    ensures { IfSome result IsLawful }
{
    let checked = checked_of(alloc, domain, problem)?;
    let normal = normalise(alloc, &checked);
    drop(checked);
    normal.ok()
}

/// Whether what is asked of the normal task of two texts has its answer.
pub(crate) fn is_answered<Q: Asked>(alloc: Global, domain: &str, problem: &str, asked: &Q) -> bool {
    match normal_task(alloc, domain, problem) {
        Some(normal) => {
            let is_answered = asked.is_answered(alloc, &normal);
            drop(normal);
            is_answered
        }
        None => false,
    }
}

/// Asserts that what each row asks has the row's answer.
pub(crate) fn assert_answers<Q: Asked>(rt: &impl Abort, alloc: Global, rows: &[Row<Q>]) {
    for row in rows {
        let (domain, problem, asked) = row;
        assert!(rt;
            is_answered(alloc, domain, problem, asked),
            "{domain} {problem}"
        );
    }
}
