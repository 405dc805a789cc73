// Conditions and effects inside others.
ghost use Rattle.pddl_syntax.specs.Outcome.{Outcome, Gives};

use lists::{Boxed, Stop};
use pddl_lexer::Fault;
use std::alloc::Global;

/// What was read, for what stands around it.
pub(crate) fn boxed<T: Drop>(
    alloc: Global,
    read: Result<T, Stop<Fault>>,
) -> Result<Boxed<T>, Stop<Fault>>
    ensures { (reading : Outcome T) → Gives read reading → Gives result reading }
{
    Ok(Boxed::new(alloc, read?)?)
}
