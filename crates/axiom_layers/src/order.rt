// An order of arcs in which each one comes after those of its lower fact.
use names::{Arc, ArcsBySource};
use std::alloc::{AllocError, Global};

/// What is left to wait for. Facts are taken one by one, each after the facts on which it rests.
#[derive(Drop)]
struct Waiting<'a> {
    arcs: &'a [Arc],
    /// The arcs that weren't taken, by their lower facts.
    rest: ArcsBySource,
    /// For each fact how many of the facts on which it rests weren't taken.
    open: Vec<u64>,
    /// The facts that wait for none, and weren't taken.
    ready: Vec<usize>,
}

impl<'a> Waiting<'a> {
    fn new(alloc: Global, facts: usize, arcs: &'a [Arc]) -> Result<Waiting<'a>, AllocError> {
        let mut open = vec![in alloc; 0u64; facts]?;
        for arc in arcs {
            if let Some(count) = open.as_mut_slice().get_mut(arc.to) {
                *count = count.wrapping_add(1);
            }
        }
        let mut ready = Vec::new(alloc);
        for (fact, count) in open.iter().enumerate() {
            if *count == 0 {
                ready.push(fact)?;
            }
        }
        Ok(Waiting {
            arcs,
            rest: ArcsBySource::new(alloc, facts, arcs)?,
            open,
            ready,
        })
    }

    /// The arc's fact waits for one fact less.
    fn pass(&mut self, place: usize) -> Result<(), AllocError> {
        let Some(arc) = self.arcs.get(place) else {
            return Ok(());
        };
        if let Some(count) = self.open.as_mut_slice().get_mut(arc.to) {
            *count = count.wrapping_sub(1);
            if *count == 0 {
                self.ready.push(arc.to)?;
            }
        }
        Ok(())
    }
}

/// The positions of the arcs, each after those of the arcs from its lower fact. Each turn takes an arc or a fact.
pub(crate) fn order(alloc: Global, facts: usize, arcs: &[Arc]) -> Result<Vec<usize>, AllocError> {
    let mut waiting = Waiting::new(alloc, facts, arcs)?;
    let mut order = Vec::new(alloc);
    for _ in 0..arcs.len().saturating_add(facts) {
        let Some(fact) = waiting.ready.pop() else {
            break;
        };
        if let Some(place) = waiting.rest.take(fact) {
            waiting.ready.push(fact)?;
            waiting.pass(place)?;
            order.push(place)?;
        }
    }
    Ok(order)
}
