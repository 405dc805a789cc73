//! Texts that are read.

ghost use Rattle.std.specs.Prelude.{IfOk};
ghost use Rattle.pddl_syntax.specs.Spelled.{IsWellSpelled, IsWellSpelledProblem};

use lists::Stop;
use pddl_lexer::{Fault, read_tree};
use pddl_parser::{parse_domain, parse_problem};
use pddl_syntax::{Domain, Problem};
use std::alloc::Global;

pub(crate) fn domain_of(alloc: Global, text: &str) -> Result<Domain, Stop<Fault>>
    ensures { IfOk result IsWellSpelled }
{
    let tree = read_tree(alloc, text.as_bytes()).map_err(|_| Stop::NoMemory)?;
    parse_domain(alloc, &tree)
}

pub(crate) fn problem_of(alloc: Global, text: &str) -> Result<Problem, Stop<Fault>>
    ensures { IfOk result IsWellSpelledProblem }
{
    let tree = read_tree(alloc, text.as_bytes()).map_err(|_| Stop::NoMemory)?;
    parse_problem(alloc, &tree)
}

/// Which sort of file a text is.
#[derive(Clone, Copy)]
pub(crate) enum File {
    Domain,
    Problem,
}

/// Whether the parser answers this fault.
pub(crate) fn has_first_fault(alloc: Global, file: File, text: &str, expected: Fault) -> bool {
    let end = match file {
        File::Domain => domain_of(alloc, text).err(),
        File::Problem => problem_of(alloc, text).err(),
    };
    matches!(end, Some(Stop::Fault(fault)) if fault == expected)
}
