// The add effects of a task by predicate, and the schemas that a candidate looks at.
ghost use Rattle.std.specs.Prelude.{◌≡◌, ◌++◌, Bool, nat_eq, map, filter, IfOk, OnOk};
ghost use Rattle.std.specs.List.{list_any, flat_map};
ghost use Rattle.std.specs.List.Sorted.{IsPermutation, IsNonDecreasingBy};
ghost use Rattle.invariant_check.specs.declared.types.AddOf.{AddOf as AddEffect};
ghost use Rattle.invariant_check.specs.Touched as spec;

use crate::types::AddOf;
use contradictions::Candidate;
use normal_task::{Normal, Predicate, Schema};
use std::alloc::{AllocError, Global};

/// A task with its add effects by predicate. With it a candidate looks at those schemas alone that add atoms of its
/// predicates.
#[derive(Drop)]
pub struct AddTable<'a> {
    pub normal: &'a Normal,
    adds: Vec<AddOf>,
    ghost in_order: { IsNonDecreasingBy (λ add. add.predicate) adds.items },
    ghost all: { (test : AddEffect → Bool) → list_any test adds.items ≡ list_any test (spec.adds_from 0 normal.now.schemas) },
}

/// The add effects of the schema.
fn adds_of(alloc: Global, number: u64, schema: &Schema) -> Result<Vec<AddOf>, AllocError>
    ensures { IfOk result (λ adds. adds.items ≡ spec.adds_of number schema.now) }
{
    schema
        .effects
        .as_slice()
        .iter()
        .filter(|row| row.adds)
        .map(|row| AddOf {
            predicate: row.predicate,
            schema: number,
        })
        .collect(alloc)
}

/// The add effects of all schemas.
fn all_adds(alloc: Global, schemas: &[Schema]) -> Result<Vec<AddOf>, AllocError>
    ensures { IfOk result (λ adds. adds.items ≡ spec.adds_from 0 schemas.now) }
{
    let mut adds = Vec::new(alloc);
    for (number, schema) in schemas.iter().enumerate() {
        adds.append(&mut adds_of(alloc, number as u64, schema)?)?;
    }
    Ok(adds)
}

fn by_predicate(adds: Vec<AddOf>) -> Vec<AddOf>
    ensures same { IsPermutation adds.items result.items }
    ensures in_order { IsNonDecreasingBy (λ add. add.predicate) result.items }
{
    let mut adds = adds;
    adds.sort_unstable_by_key(|add| add.predicate);
    adds
}

impl<'a> AddTable<'a> {
    /// The task with its add effects by predicate, found in one pass.
    pub fn new(alloc: Global, normal: &'a Normal) -> Result<AddTable<'a>, AllocError>
        ensures { IfOk result (λ table. table.normal.now ≡ normal.now) }
    {
        let adds = by_predicate(all_adds(alloc, normal.schemas.as_slice())?);
        Ok(AddTable { normal, adds })
    }
}

/// The add effects on the predicate.
fn adds_on(adds: &[AddOf], predicate: Predicate) -> &[AddOf]
    requires { IsNonDecreasingBy (λ add. add.predicate) adds.now }
    ensures { result.now ≡ filter (λ add. nat_eq add.predicate predicate) adds.now }
{
    let rest = &adds[adds.partition_point(|add| add.predicate < predicate)..];
    &rest[..rest.partition_point(|add| add.predicate <= predicate)]
}

fn push_schemas(numbers: &mut Vec<u64>, adds: &[AddOf]) -> Result<(), AllocError>
    ensures { OnOk result (numbers.new.items ≡ numbers.old.items ++ map (λ add. add.schema) adds.now) }
{
    for add in adds {
        numbers.push(add.schema)?;
    }
    Ok(())
}

/// The schemas of the add effects on the candidate's predicates, one for each such effect.
fn schemas_of_adds(
    alloc: Global,
    table: &AddTable<'_>,
    candidate: &Candidate,
) -> Result<Vec<u64>, AllocError>
    ensures { IfOk result (λ numbers. numbers.items ≡ flat_map (λ part. map (λ add. add.schema) (filter (λ add. nat_eq add.predicate part.predicate) table.now.adds.items)) candidate.now.parts) }
{
    let mut numbers = Vec::new(alloc);
    for part in candidate.parts.as_slice() {
        push_schemas(&mut numbers, adds_on(table.adds.as_slice(), part.predicate))?;
    }
    Ok(numbers)
}

/// The schemas that add atoms of the candidate's predicates, in their order.
pub(crate) fn touching(
    alloc: Global,
    table: &AddTable<'_>,
    candidate: &Candidate,
) -> Result<Vec<u64>, AllocError>
    ensures { IfOk result (λ numbers. numbers.items ≡ spec.touching table.now.normal.now candidate.now) }
{
    let mut numbers = schemas_of_adds(alloc, table, candidate)?;
    numbers.sort_unstable();
    numbers.dedup();
    Ok(numbers)
}
