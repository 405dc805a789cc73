// Types that are on a cycle of supertypes.
ghost use Rattle.std.specs.Prelude.{◌≡◌, ◌++◌, map, IfOk, OnOk};
ghost use Rattle.std.specs.List.{filter, list_any};
ghost use Rattle.pddl_syntax.specs.Words.{is_same};
ghost use Rattle.names.specs.Links.{link};
ghost use Rattle.fault_positions.specs.Positions.{earliest};
ghost use Rattle.fault_positions.specs.Links as spec;

use crate::positions::first_of;
use names::{Links, Names};
use pddl_lexer::At;
use pddl_syntax::{Domain, Named, Typed};
use std::alloc::{AllocError, Global};

/// The first position of a declaration of a type that is on a cycle of supertypes.
pub fn first_type_on_cycle(alloc: Global, domain: &Domain) -> Result<Option<At>, AllocError>
    ensures { IfOk result (λ at. at ≡ earliest (spec.type_cycles domain.now)) }
{
    let types = domain.types.as_slice();
    let links = type_links(alloc, types)?;
    let cycles = links.cycles(alloc)?;
    let first = first_declared(&cycles, types);
    drop(cycles);
    Ok(first)
}

/// The first position of a declaration of one of these types.
fn first_declared(names: &Names<'_>, types: &[Typed]) -> Option<At>
    ensures { result ≡ earliest (map (λ entry. entry.name.at) (filter (λ entry. list_any (is_same entry.name.name) names.now) types.now)) }
{
    first_of(types, |entry| {
        names
            .has(entry.name.name.as_slice())
            .then_some(entry.name.at)
    })
}

/// The links from types to their supertypes.
fn type_links<'a>(alloc: Global, types: &'a [Typed]) -> Result<Links<'a>, AllocError>
    ensures { IfOk result (λ links. links ≡ spec.type_links types.now) }
{
    let mut links = Links::new(alloc);
    for entry in types {
        add_supertypes(entry, &mut links)?;
    }
    Ok(links)
}

fn add_supertypes<'a>(entry: &'a Typed, links: &mut Links<'a>) -> Result<(), AllocError>
    ensures { OnOk result (links.new ≡ links.old ++ spec.supertype_links entry.now) }
{
    let name = entry.name.name.as_slice();
    if name == b"object".as_slice() {
        return Ok(());
    }
    add_links(name, entry.types.as_slice(), links)
}

fn add_links<'a>(
    from: &'a [u8],
    names: &'a [Named],
    links: &mut Links<'a>,
) -> Result<(), AllocError>
    ensures { OnOk result (links.new ≡ links.old ++ map (λ name. link from.now name.name) names.now) }
{
    for name in names {
        links.add(from, name.name.as_slice())?;
    }
    Ok(())
}
