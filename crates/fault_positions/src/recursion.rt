// Derived predicates that depend on themselves.
ghost use Rattle.std.specs.Prelude.{◌≡◌, ◌++◌, map, IfOk, OnOk};
ghost use Rattle.std.specs.List.{filter, flat_map, list_any};
ghost use Rattle.pddl_syntax.specs.Words.{is_same};
ghost use Rattle.names.specs.Links.{link};
ghost use Rattle.fault_positions.specs.Positions.{earliest};
ghost use Rattle.fault_positions.specs.Links as spec;
ghost use Rattle.fault_positions.specs.Mentions.{asked_predicates};
ghost use Rattle.fault_positions.specs.Seen.{all_seen};

use crate::mentions::{Mention, mentions_in_condition};
use crate::positions::first_of;
use names::{Links, Names};
use pddl_lexer::At;
use pddl_syntax::{Derived, Domain};
use std::alloc::{AllocError, Global};

/// The first position of an axiom whose predicate depends on itself.
pub fn first_recursive_axiom(alloc: Global, domain: &Domain) -> Result<Option<At>, AllocError>
    ensures { IfOk result (λ at. at ≡ earliest (spec.recursive_axioms domain.now)) }
{
    let axioms = domain.axioms.as_slice();
    let links = axiom_links(alloc, axioms)?;
    let cycles = links.cycles(alloc)?;
    let first = first_derived(&cycles, axioms);
    drop(cycles);
    Ok(first)
}

/// The first position of an axiom of one of these predicates.
fn first_derived(names: &Names<'_>, axioms: &[Derived]) -> Option<At>
    ensures { result ≡ earliest (map (λ rule. rule.at) (filter (λ rule. list_any (is_same rule.head.name.name) names.now) axioms.now)) }
{
    first_of(axioms, |rule| {
        names.has(rule.head.name.name.as_slice()).then_some(rule.at)
    })
}

/// The links from the predicates of axioms to those that they depend on.
fn axiom_links(alloc: Global, axioms: &[Derived]) -> Result<Links<'_>, AllocError>
    ensures { IfOk result (λ links. links ≡ spec.axiom_links axioms.now) }
{
    let mut links = Links::new(alloc);
    for rule in axioms {
        add_axiom(alloc, &mut links, rule)?;
    }
    Ok(links)
}

fn add_axiom<'a>(alloc: Global, links: &mut Links<'a>, rule: &'a Derived) -> Result<(), AllocError>
    ensures { OnOk result (links.new ≡ links.old ++ spec.dependence_links rule.now) }
{
    let mentions = mentions_in_condition(alloc, &rule.body)?;
    add_asked(links, rule.head.name.name.as_slice(), &mentions)
}

/// Adds a link from the name to each predicate that is asked for.
fn add_asked<'a>(
    links: &mut Links<'a>,
    from: &'a [u8],
    mentions: &[Mention<'a>],
) -> Result<(), AllocError>
    ensures { OnOk result (links.new ≡ links.old ++ map (λ predicate. link from.now predicate.name) (flat_map asked_predicates (all_seen mentions.now))) }
{
    for mention in mentions {
        if let Mention::Asked(atom) = mention {
            links.add(from, atom.predicate.name.as_slice())?;
        }
    }
    Ok(())
}
