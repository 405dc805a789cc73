// The layers: each fact is lifted above the facts on which it rests, until none has to be lifted.
ghost use Rattle.std.specs.Prelude.{◌≡◌, ◌<◌, ◌^◌, true, false, length, sum, All, IfOk, slice_index, nat_le};
ghost use Rattle.reached_task.specs.Lawful.{IsLawful};
ghost use Rattle.reached_task.specs.Layers.{AreLayers};
ghost use Rattle.axiom_layers.specs.Arcs.{AreSound, AreHeld, IsAbove, lifted};

use crate::arcs::arcs;
use crate::order::order;
use names::Arc;
use reached_task::Reached;
use std::alloc::{AllocError, Global};

/// Lifts the fact to which the arc leads above the lower fact from which it leads. Answers whether it had to.
fn lift(layers: &mut [u64], arc: Arc) -> bool
    requires fact { arc.to < length layers.old }
    requires low { arc.from < length layers.old }
    requires small { slice_index layers.old arc.from < 2 ^ 63 }
    ensures layers { layers.new ≡ lifted layers.old arc }
    ensures lifts { result ≡ nat_le (slice_index layers.old arc.to) (slice_index layers.old arc.from) }
{
    let low = layers[arc.from];
    let lifts = layers[arc.to] <= low;
    if lifts {
        layers[arc.to] = low + 1;
    }
    lifts
}

/// Lifts along the arcs at these positions, one after another.
fn lift_along(layers: &mut [u64], arcs: &[Arc], order: &[usize])
    requires sound { AreSound (length layers.old) arcs.now }
    requires held { AreHeld arcs.now layers.old }
    requires short { length layers.old < 2 ^ 63 }
    ensures { AreHeld arcs.now layers.new }
{
    for place in order {
        if let Some(arc) = arcs.get(*place) {
            lift(layers, *arc);
        }
    }
}

/// Lifts along each arc once. Answers whether some fact had to be lifted.
fn lift_all(layers: &mut [u64], arcs: &[Arc]) -> bool
    requires sound { AreSound (length layers.old) arcs.now }
    requires held { AreHeld arcs.now layers.old }
    requires short { length layers.old < 2 ^ 63 }
    ensures held { AreHeld arcs.now layers.new }
    ensures lifts { result ≡ true → sum layers.old < sum layers.new }
    ensures stays { result ≡ false → All (IsAbove layers.new) arcs.now }
{
    let mut lifts = false;
    for arc in arcs {
        if lift(layers, *arc) {
            lifts = true;
        }
    }
    lifts
}

/// Lifts along the arcs until each fact is above those on which it rests.
fn settle(layers: &mut [u64], arcs: &[Arc])
    requires sound { AreSound (length layers.old) arcs.now }
    requires held { AreHeld arcs.now layers.old }
    requires short { length layers.old < 2 ^ 63 }
    ensures held { AreHeld arcs.now layers.new }
    ensures above { All (IsAbove layers.new) arcs.now }
{
    while lift_all(layers, arcs) {}
}

/// Lifts along the arcs in this order, and then until no fact has to be lifted.
fn lift_to_rest(layers: &mut [u64], arcs: &[Arc], order: &[usize])
    requires sound { AreSound (length layers.old) arcs.now }
    requires held { AreHeld arcs.now layers.old }
    requires short { length layers.old < 2 ^ 63 }
    ensures held { AreHeld arcs.now layers.new }
    ensures above { All (IsAbove layers.new) arcs.now }
{
    lift_along(layers, arcs, order);
    settle(layers, arcs);
}

/// The layers of the facts, one number a fact, in fact order: a derived fact's layer, and 0 for a basic fact (the
/// planner's output format, axiom layers). The arcs are gone through in an order in which one time is enough, and once
/// more to see that no fact has to be lifted.
pub fn layers(alloc: Global, reached: &Reached) -> Result<Vec<u64>, AllocError>
    requires lawful { IsLawful reached.now }
    ensures layers { IfOk result (λ layers. AreLayers reached.now layers.items) }
    ensures small { IfOk result (λ layers. All (λ layer. layer < 2 ^ 63) layers.items) }
{
    let facts = reached.facts.len();
    let arcs = arcs(alloc, reached)?;
    let order = order(alloc, facts, arcs.as_slice())?;
    let mut layers = vec![in alloc; 0u64; facts]?;
    lift_to_rest(layers.as_mut_slice(), arcs.as_slice(), order.as_slice());
    Ok(layers)
}
