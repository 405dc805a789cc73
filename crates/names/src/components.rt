// Strongly connected components of a graph whose nodes are numbers: two numbers are in one component where each reaches
// the other. Kosaraju's algorithm finds them by two searches in depth: along the arcs, and then against them, from the
// number that the first search left last; each component has one root in the second search. What they found is
// checked, so that nothing rests on the searches.
ghost use Rattle.std.specs.Prelude.{◌≡◌, ℕ, ◌<◌, true, map, IfOk};
ghost use Rattle.std.specs.List.{list_all};
ghost use Rattle.names.specs.Arcs as graph;
ghost use Rattle.names.specs.Components as spec;

use crate::arcs::{Arc, ArcsBySource};
use std::alloc::{AllocError, Global};

/// How a search came to a number.
#[derive(Clone, Copy)]
pub struct Place {
    /// Where it had begun.
    pub root: usize,
    /// How many numbers it had found before.
    pub order: usize,
    /// The position of the arc that it took.
    pub arc: usize,
}

// ---- the searches

/// The places of the numbers in the two searches.
#[derive(Drop)]
pub struct Searches {
    pub along: Vec<Option<Place>>,
    pub against: Vec<Option<Place>>,
}

impl Searches {
    /// Searches all numbers below `count`. What they find is right; no contract says so, and `are_right` tells.
    pub fn new(alloc: Global, count: usize, arcs: &[Arc]) -> Result<Searches, AllocError> {
        let along = search_along(alloc, count, arcs)?;
        let turned = turned(alloc, arcs)?;
        let against = search_back(alloc, count, turned.as_slice(), along.left.as_slice())?;
        Ok(Searches {
            along: along.places,
            against,
        })
    }
}

/// Searches from all numbers below `count`, in order.
fn search_along(alloc: Global, count: usize, arcs: &[Arc]) -> Result<Search<'_>, AllocError> {
    let mut search = Search::new(alloc, count, arcs)?;
    for start in 0..count {
        search.search_from(start)?;
    }
    Ok(search)
}

/// The places of a search from these numbers, the last one first.
fn search_back(
    alloc: Global,
    count: usize,
    arcs: &[Arc],
    starts: &[usize],
) -> Result<Vec<Option<Place>>, AllocError> {
    let mut search = Search::new(alloc, count, arcs)?;
    for start in starts.iter().rev() {
        search.search_from(*start)?;
    }
    Ok(search.places)
}

fn turned(alloc: Global, arcs: &[Arc]) -> Result<Vec<Arc>, AllocError> {
    arcs.iter()
        .map(|arc| Arc {
            from: arc.to,
            to: arc.from,
        })
        .collect(alloc)
}

/// A search in depth.
#[derive(Drop)]
struct Search<'a> {
    arcs: &'a [Arc],
    /// The arcs that weren't taken.
    rest: ArcsBySource,
    places: Vec<Option<Place>>,
    found: usize,
    /// The numbers that were found and not left, the last one on top.
    open: Vec<usize>,
    /// The numbers that were left, in order.
    left: Vec<usize>,
}

impl<'a> Search<'a> {
    fn new(alloc: Global, count: usize, arcs: &'a [Arc]) -> Result<Search<'a>, AllocError> {
        Ok(Search {
            arcs,
            rest: ArcsBySource::new(alloc, count, arcs)?,
            places: vec![in alloc; None; count]?,
            found: 0,
            open: Vec::new(alloc),
            left: Vec::new(alloc),
        })
    }

    /// Finds all that the number leads to and that wasn't found before. Each turn takes an arc or leaves a number.
    fn search_from(&mut self, start: usize) -> Result<(), AllocError> {
        self.find(start, start, 0)?;
        let turns = self.arcs.len().saturating_add(self.places.len());
        for _ in 0..turns {
            let Some(number) = self.open.pop() else {
                break;
            };
            match self.rest.take(number) {
                Some(position) => {
                    self.open.push(number)?;
                    self.follow(position, start)?;
                }
                None => self.left.push(number)?,
            }
        }
        Ok(())
    }

    fn follow(&mut self, position: usize, root: usize) -> Result<(), AllocError> {
        match self.arcs.get(position) {
            Some(arc) => self.find(arc.to, root, position),
            None => Ok(()),
        }
    }

    fn find(&mut self, number: usize, root: usize, arc: usize) -> Result<(), AllocError> {
        if let Some(slot) = self.places.as_mut_slice().get_mut(number) {
            if slot.is_none() {
                *slot = Some(Place {
                    root,
                    order: self.found,
                    arc,
                });
                self.found = self.found.wrapping_add(1);
                self.open.push(number)?;
            }
        }
        Ok(())
    }
}

// ---- the check

fn place_at(places: &[Option<Place>], number: usize) -> Place
    ensures { result ≡ spec.place_at places.now number }
{
    if number < places.len() {
        if let Some(place) = places[number] {
            return place;
        }
    }
    Place {
        root: 0,
        order: 0,
        arc: 0,
    }
}

fn arc_at(arcs: &[Arc], number: usize) -> Arc
    ensures { result ≡ graph.arc_at arcs.now number }
{
    if number < arcs.len() {
        arcs[number]
    } else {
        Arc { from: 0, to: 0 }
    }
}

fn has_one_root(places: &[Option<Place>], number: usize, other: usize) -> bool
    ensures { result ≡ spec.has_one_root places.now number other }
{
    place_at(places, number).root == place_at(places, other).root
}

fn rank(places: &[Option<Place>], number: usize) -> usize
    ensures { result ≡ spec.rank places.now number }
{
    place_at(places, place_at(places, number).root).order
}

fn leads_on(count: usize, against: &[Option<Place>], arc: Arc) -> bool
    ensures { result ≡ spec.leads_on count against.now arc }
{
    arc.from < count
        && arc.to < count
        && (has_one_root(against, arc.from, arc.to)
            || rank(against, arc.from) < rank(against, arc.to))
}

fn all_lead_on(count: usize, against: &[Option<Place>], arcs: &[Arc]) -> bool
    ensures { result ≡ list_all (spec.leads_on count against.now) arcs.now }
{
    arcs.iter().all(|arc| leads_on(count, against, *arc))
}

fn leads_to_root(arcs: &[Arc], against: &[Option<Place>], number: usize) -> bool
    ensures { result ≡ spec.leads_to_root arcs.now against.now number }
{
    let place = place_at(against, number);
    let arc = arc_at(arcs, place.arc);
    place.arc < arcs.len()
        && arc.from == number
        && has_one_root(against, arc.to, number)
        && place_at(against, arc.to).order < place.order
}

fn is_led_to(
    arcs: &[Arc],
    against: &[Option<Place>],
    along: &[Option<Place>],
    number: usize,
) -> bool
    ensures { result ≡ spec.is_led_to arcs.now against.now along.now number }
{
    let place = place_at(along, number);
    let arc = arc_at(arcs, place.arc);
    place.arc < arcs.len()
        && arc.to == number
        && has_one_root(against, arc.from, number)
        && place_at(along, arc.from).order < place.order
}

fn is_joined(
    arcs: &[Arc],
    against: &[Option<Place>],
    along: &[Option<Place>],
    number: usize,
) -> bool
    ensures { result ≡ spec.is_joined arcs.now against.now along.now number }
{
    place_at(against, number).root == number
        || leads_to_root(arcs, against, number) && is_led_to(arcs, against, along, number)
}

fn are_joined(
    count: usize,
    arcs: &[Arc],
    against: &[Option<Place>],
    along: &[Option<Place>],
) -> bool
    ensures { result ≡ true → (number : ℕ) → number < count → spec.is_joined arcs.now against.now along.now number ≡ true }
{
    for number in 0..count {
        if !is_joined(arcs, against, along, number) {
            return false;
        }
    }
    true
}

impl Searches {
    /// Whether they show which numbers reach each other, as searches of these arcs do.
    pub fn are_right(&self, count: usize, arcs: &[Arc]) -> bool
        ensures { result ≡ true → spec.IsShown count arcs.now self.now.against.items self.now.along.items }
    {
        let against = self.against.as_slice();
        all_lead_on(count, against, arcs) && are_joined(count, arcs, against, self.along.as_slice())
    }

    /// Of each arc, whether it stays in one component.
    pub fn stay(&self, alloc: Global, arcs: &[Arc]) -> Result<Vec<bool>, AllocError>
        ensures { IfOk result (λ answers. answers.items ≡ map (λ arc. spec.has_one_root self.now.against.items arc.from arc.to) arcs.now) }
    {
        let against = self.against.as_slice();
        arcs.iter()
            .map(|arc| has_one_root(against, arc.from, arc.to))
            .collect(alloc)
    }
}
