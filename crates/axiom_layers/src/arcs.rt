// Which derived facts the axioms' facts rest on.
ghost use Rattle.std.specs.Prelude.{◌≡◌, ◌++◌, map, filter, IfOk, OnOk};
ghost use Rattle.std.specs.List.{flat_map};
ghost use Rattle.reached_task.specs.ReachedTask.{is_derived};
ghost use Rattle.axiom_layers.specs.Arcs.{arc_to, arcs_at, arcs_of};

use names::Arc;
use reached_task::{FactNumber, Reached, ReachedAxiom};
use std::alloc::{AllocError, Global};

/// Adds an arc to the fact from each derived fact among the literals.
fn push_arcs(
    arcs: &mut Vec<Arc>,
    reached: &Reached,
    fact: FactNumber,
    literals: &[u64],
) -> Result<(), AllocError>
    ensures { OnOk result (arcs.new.items ≡ arcs.old.items ++ map (arc_to fact) (filter (is_derived reached.now.facts) literals.now)) }
{
    for low in literals {
        if reached.is_derived(*low) {
            arcs.push(Arc {
                from: *low as usize,
                to: fact as usize,
            })?;
        }
    }
    Ok(())
}

/// Adds the arcs of one axiom.
fn push_axiom(arcs: &mut Vec<Arc>, reached: &Reached, row: &ReachedAxiom) -> Result<(), AllocError>
    ensures { OnOk result (arcs.new.items ≡ arcs.old.items ++ arcs_at reached.now.facts row.now) }
{
    push_arcs(arcs, reached, row.fact, row.condition.positive.as_slice())?;
    push_arcs(arcs, reached, row.fact, row.condition.negative.as_slice())
}

/// The arcs of all axioms, one for each derived fact in a body.
pub(crate) fn arcs(alloc: Global, reached: &Reached) -> Result<Vec<Arc>, AllocError>
    ensures { IfOk result (λ arcs. arcs.items ≡ arcs_of reached.now) }
{
    let mut arcs = Vec::new(alloc);
    for row in reached.axioms.as_slice() {
        push_axiom(&mut arcs, reached, row)?;
    }
    Ok(arcs)
}
