// Which names are on a cycle of links.
ghost use Rattle.std.specs.Prelude.{◌≡◌, map, IfOk};
ghost use Rattle.std.specs.List.{list_any};
ghost use Rattle.names.specs.Names.{Name, is_same};
ghost use Rattle.names.specs.Cycles.{closes, arc_of, links_of};
ghost use Rattle.names.specs.Links as spec;
ghost use Rattle.names.specs.Links.{link};

use crate::arcs::Arc;
use crate::components::Searches;
use crate::links::Ends;
use crate::table::Names;
use std::alloc::{AllocError, Global};

pub(crate) fn on_cycles<'a>(alloc: Global, pairs: &[Ends<'a>]) -> Result<Names<'a>, AllocError>
    ensures { IfOk result (λ names. (name : Name) → list_any (is_same name) names ≡ spec.is_on_cycle (links_of pairs.now) name) }
{
    let answers = closing(alloc, pairs)?;
    let mut names = Names::new(alloc);
    for (position, pair) in pairs.iter().enumerate() {
        if answers[position] {
            names.add(pair.from)?;
        }
    }
    Ok(names)
}

/// Of each link, whether a chain leads from its end back to its beginning.
fn closing(alloc: Global, pairs: &[Ends]) -> Result<Vec<bool>, AllocError>
    ensures { IfOk result (λ answers. answers.items ≡ map (closes (links_of pairs.now)) (links_of pairs.now)) }
{
    let names = names_of(alloc, pairs)?;
    closing_among(alloc, &names, pairs)
}

/// Whether a chain closes each link, by searches among these names.
fn closing_among(alloc: Global, names: &Names, pairs: &[Ends]) -> Result<Vec<bool>, AllocError>
    ensures { IfOk result (λ answers. answers.items ≡ map (closes (links_of pairs.now)) (links_of pairs.now)) }
{
    let arcs = arcs_of(alloc, names, pairs)?;
    let searches = Searches::new(alloc, names.len(), &arcs)?;
    if searches.are_right(names.len(), &arcs) {
        searches.stay(alloc, &arcs)
    } else {
        closing_by_definition(alloc, pairs)
    }
}

/// Whether a chain closes each link, by the definition. It is slow, and is there for searches that aren't right, which there should be none of.
fn closing_by_definition(alloc: Global, pairs: &[Ends]) -> Result<Vec<bool>, AllocError>
    ensures { IfOk result (λ answers. answers.items ≡ map (closes (links_of pairs.now)) (links_of pairs.now)) }
{
    pairs
        .iter()
        .map(|pair| leads(pairs, pairs.len(), pair.to, pair.from))
        .collect(alloc)
}

/// Whether a chain of at most so many links leads from one name to another.
fn leads(pairs: &[Ends], steps: usize, from: &[u8], to: &[u8]) -> bool
    ensures { result ≡ spec.leads (links_of pairs.now) steps from.now to.now }
{
    if from == to {
        return true;
    }
    if steps == 0 {
        return false;
    }
    for pair in pairs {
        if pair.from == from && leads(pairs, steps - 1, pair.to, to) {
            return true;
        }
    }
    false
}

fn names_of<'a>(alloc: Global, pairs: &[Ends<'a>]) -> Result<Names<'a>, AllocError> {
    let mut names = Names::new(alloc);
    for pair in pairs {
        add_ends(&mut names, pair)?;
    }
    Ok(names)
}

fn add_ends<'a>(names: &mut Names<'a>, pair: &Ends<'a>) -> Result<(), AllocError> {
    names.add(pair.from)?;
    names.add(pair.to)?;
    Ok(())
}

/// The links as arcs between the positions of the names.
fn arcs_of(alloc: Global, names: &Names, pairs: &[Ends]) -> Result<Vec<Arc>, AllocError>
    ensures { IfOk result (λ arcs. arcs.items ≡ map (arc_of names.now) (links_of pairs.now)) }
{
    pairs
        .iter()
        .map(|pair| arc_between(names, pair))
        .collect(alloc)
}

fn arc_between(names: &Names, pair: &Ends) -> Arc
    ensures { result ≡ arc_of names.now (link pair.now.from.now pair.now.to.now) }
{
    Arc {
        from: names.position(pair.from),
        to: names.position(pair.to),
    }
}
