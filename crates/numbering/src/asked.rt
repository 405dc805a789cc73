// The types that variables range over.
ghost use Rattle.std.specs.Prelude.{◌≡◌, ◌++◌, map, IfOk, OnOk};
ghost use Rattle.fault_positions.specs.Seen.{all_seen, seen};
ghost use Rattle.numbering.specs.Asked.{types_at, types_of, variable_types};

use fault_positions::{Mention, mentions_in_domain, mentions_in_problem};
use pddl_syntax::{Domain, Named, Problem, Typed};
use std::alloc::{AllocError, Global};

/// The lists of types of all variables of actions, axioms and the goal. The heads of predicates and functions, which a domain
/// mentions first, have variables that range over nothing.
pub(crate) fn asked_types<'a>(
    alloc: Global,
    domain: &'a Domain,
    problem: &'a Problem,
) -> Result<Vec<&'a [Named]>, AllocError>
    ensures { IfOk result (λ asked. map (λ listed. listed.now) asked.items ≡ variable_types domain.now problem.now) }
{
    let heads = domain.predicates.as_slice().len() + domain.functions.as_slice().len();
    let in_domain = mentions_in_domain(alloc, domain)?;
    let in_problem = mentions_in_problem(alloc, problem)?;
    let mut asked = Vec::new(alloc);
    ask(&mut asked, &in_domain[heads..])?;
    ask(&mut asked, &in_problem)?;
    Ok(asked)
}

/// Adds the types of each variable that is mentioned.
fn ask<'a>(asked: &mut Vec<&'a [Named]>, mentions: &[Mention<'a>]) -> Result<(), AllocError>
    ensures { OnOk result (map (λ listed. listed.now) asked.new.items ≡ map (λ listed. listed.now) asked.old.items ++ types_of (all_seen mentions.now)) }
{
    for mention in mentions {
        ask_at(asked, mention)?;
    }
    Ok(())
}

/// Adds the types of each variable of the list, where one is mentioned.
fn ask_at<'a>(asked: &mut Vec<&'a [Named]>, mention: &Mention<'a>) -> Result<(), AllocError>
    ensures { OnOk result (map (λ listed. listed.now) asked.new.items ≡ map (λ listed. listed.now) asked.old.items ++ types_at (seen mention.now)) }
{
    match mention {
        Mention::Variables(variables) => ask_each(asked, variables),
        _ => Ok(()),
    }
}

/// Adds the types of each of the variables.
fn ask_each<'a>(asked: &mut Vec<&'a [Named]>, variables: &'a [Typed]) -> Result<(), AllocError>
    ensures { OnOk result (map (λ listed. listed.now) asked.new.items ≡ map (λ listed. listed.now) asked.old.items ++ map (λ variable. variable.types) variables.now) }
{
    for variable in variables {
        asked.push(variable.types.as_slice())?;
    }
    Ok(())
}
