// The rows of a normal task, made of parts.
ghost use Rattle.std.specs.Prelude.{◌≡◌, ◌++◌, map, length, IfOk, OnOk};
ghost use Rattle.normal_task.specs.Parts as spec;

use crate::moved::moved_places;
use crate::parts::{push_copied, push_moved, push_ranges};
use lists::List;
use normal_task::{AxiomRow, EffectRow, Literal, ObjectRange, Part, Predicate};
use std::alloc::{AllocError, Global};

/// The first list, and the second behind it.
pub fn joined_ranges(
    alloc: Global,
    first: &[ObjectRange],
    second: List<ObjectRange>,
) -> Result<List<ObjectRange>, AllocError>
    ensures { IfOk result (λ all. all ≡ first.now ++ second) }
{
    let mut all = Vec::new(alloc);
    push_ranges(&mut all, first)?;
    all.append(&mut second.into_vec())?;
    Ok(List::from_vec(all))
}

fn copied_ranges(alloc: Global, ranges: &[ObjectRange]) -> Result<List<ObjectRange>, AllocError>
    ensures { IfOk result (λ copy. copy ≡ ranges.now) }
{
    let mut copy = Vec::new(alloc);
    push_ranges(&mut copy, ranges)?;
    Ok(List::from_vec(copy))
}

/// A copy of the literals.
pub fn copied_literals(alloc: Global, literals: &[Literal]) -> Result<List<Literal>, AllocError>
    ensures { IfOk result (λ copy. copy ≡ literals.now) }
{
    let mut copy = Vec::new(alloc);
    push_copied(&mut copy, literals)?;
    Ok(List::from_vec(copy))
}

fn moved_literals(
    alloc: Global,
    from: u64,
    by: u64,
    literals: &[Literal],
) -> Result<List<Literal>, AllocError>
    ensures { IfOk result (λ moved. moved ≡ map (spec.moved from by) literals.now) }
{
    let mut moved = Vec::new(alloc);
    push_moved(&mut moved, from, by, literals)?;
    Ok(List::from_vec(moved))
}

/// The effect with its variables numbered on, to make room for those of a part.
fn moved_row(alloc: Global, from: u64, by: u64, row: &EffectRow) -> Result<EffectRow, AllocError>
    ensures { IfOk result (λ moved. moved ≡ record {
      variables = row.now.variables;
      condition = map (spec.moved from by) row.now.condition;
      adds = row.now.adds;
      predicate = row.now.predicate;
      places = map (spec.moved_place from by) row.now.places;
    }) }
{
    Ok(EffectRow {
        variables: copied_ranges(alloc, row.variables.as_slice())?,
        condition: moved_literals(alloc, from, by, row.condition.as_slice())?,
        adds: row.adds,
        predicate: row.predicate,
        places: moved_places(alloc, from, by, row.places.as_slice())?,
    })
}

/// The effects with their variables numbered on.
pub fn moved_rows(
    alloc: Global,
    from: u64,
    by: u64,
    rows: &[EffectRow],
) -> Result<List<EffectRow>, AllocError>
    ensures { IfOk result (λ moved. moved ≡ map (λ row. record {
      variables = row.variables;
      condition = map (spec.moved from by) row.condition;
      adds = row.adds;
      predicate = row.predicate;
      places = map (spec.moved_place from by) row.places;
    }) rows.now) }
{
    let mut moved = Vec::new(alloc);
    for row in rows {
        moved.push(moved_row(alloc, from, by, row)?)?;
    }
    Ok(List::from_vec(moved))
}

/// An axiom of the predicate, whose arguments range over these lists, for the part.
fn axiom_row(
    alloc: Global,
    predicate: Predicate,
    arguments: &[ObjectRange],
    part: &Part,
) -> Result<AxiomRow, AllocError>
    ensures { IfOk result (λ row. row ≡ record {
      predicate = predicate;
      shown = length arguments.now;
      parameters = arguments.now ++ part.now.variables;
      condition = part.now.literals;
    }) }
{
    Ok(AxiomRow {
        predicate,
        shown: arguments.len() as u64,
        parameters: joined_ranges(
            alloc,
            arguments,
            copied_ranges(alloc, part.variables.as_slice())?,
        )?,
        condition: copied_literals(alloc, part.literals.as_slice())?,
    })
}

/// Adds an axiom of the predicate for each part.
pub fn push_axioms(
    rows: &mut Vec<AxiomRow>,
    predicate: Predicate,
    arguments: &[ObjectRange],
    parts: &[Part],
) -> Result<(), AllocError>
    ensures { OnOk result (rows.new.items ≡ rows.old.items ++ map (λ part. record {
      predicate = predicate;
      shown = length arguments.now;
      parameters = arguments.now ++ part.variables;
      condition = part.literals;
    }) parts.now) }
{
    for part in parts {
        rows.push(axiom_row(*rows.allocator(), predicate, arguments, part)?)?;
    }
    Ok(())
}
