// Effects that add or delete one atom.
ghost use Rattle.std.specs.Prelude.{◌≡◌, map, IfOk};
ghost use Rattle.normal_rows.specs.Changes.{changed_row};

use crate::parts::copied_places;
use lists::List;
use normal_task::{EffectRow, Part, Place, Predicate};
use std::alloc::{AllocError, Global};

/// An atom that is added or deleted, by its number, and the places of its arguments.
#[derive(Clone, Copy)]
pub struct Change<'a> {
    pub adds: bool,
    pub predicate: Predicate,
    pub places: &'a [Place],
}

fn effect_row(alloc: Global, change: &Change<'_>, part: Part) -> Result<EffectRow, AllocError>
    ensures { IfOk result (λ row. row ≡ changed_row change.now part) }
{
    Ok(EffectRow {
        variables: part.variables,
        condition: part.literals,
        adds: change.adds,
        predicate: change.predicate,
        places: copied_places(alloc, change.places)?,
    })
}

/// An effect for each part.
pub fn effect_rows(
    alloc: Global,
    change: &Change<'_>,
    parts: List<Part>,
) -> Result<List<EffectRow>, AllocError>
    ensures { IfOk result (λ rows. rows ≡ map (changed_row change.now) parts) }
{
    let mut rows = Vec::new(alloc);
    for part in parts.into_vec() {
        rows.push(effect_row(alloc, change, part)?)?;
    }
    Ok(List::from_vec(rows))
}
