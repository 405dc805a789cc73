// The axioms of the files and of new predicates.
ghost use Rattle.std.specs.Prelude.{◌≡◌, ◌++◌, [], map, length, true, IfOk, OnOk};
ghost use Rattle.normal_rows.specs.MadeThings.{IsMadeOf};
ghost use Rattle.normal_task.specs.Normalised as spec;
ghost use Rattle.normal_task.specs.Numbers.{predicate_number, ranges_of};
ghost use Rattle.normal_task.specs.Parts as parts;

use action_schemas::{Here, cut};
use lists::{List, checked_sum};
use normal_rows::{Made, Scope, made_behind, nothing_made, push_axioms, scope_of};
use normal_task::{AxiomRow, Fresh, Part};
use numbering::Numbering;
use pddl_syntax::{Derived, Head};
use std::alloc::{AllocError, Global};

/// The number of a new predicate.
pub(crate) fn fresh_number(numbering: &Numbering<'_>, next: u64) -> Result<u64, AllocError>
    ensures { IfOk result (λ number. number ≡ parts.fresh_number numbering.now.domain numbering.now.problem next) }
{
    checked_sum(numbering.domain().predicates.len() as u64, next)
}

/// An axiom of the predicate for each part.
fn rows_from(
    alloc: Global,
    numbering: &Numbering<'_>,
    head: &Head,
    made: Made<Part>,
) -> Result<Made<AxiomRow>, AllocError>
    ensures { IfOk result (λ rows. (rows.items ≡ map (spec.axiom_row numbering.now.domain numbering.now.problem (predicate_number numbering.now.domain head.now.name.name) (ranges_of numbering.now.domain numbering.now.problem head.now.variables)) made.items) × (rows.fresh ≡ made.fresh)) }
{
    let predicate = numbering.predicate(head.name.name.as_slice());
    let ranges = numbering.ranges(alloc, head.variables.as_slice())?;
    let mut rows = Vec::new(alloc);
    push_axioms(
        &mut rows,
        predicate,
        ranges.as_slice(),
        made.items.as_slice(),
    )?;
    Ok(Made {
        items: List::from_vec(rows),
        fresh: made.fresh,
    })
}

/// The parts of the axiom's body, in this scope.
fn parts_in<'n, 'a>(
    alloc: Global,
    numbering: &'n Numbering<'a>,
    rule: &'a Derived,
    scope: &Scope<'n, 'a>,
    next: u64,
) -> Result<Made<Part>, AllocError>
    ensures { IfOk result (IsMadeOf (parts.parts numbering.now.domain numbering.now.problem rule.now.body true scope.now (length rule.now.head.variables) next)) }
{
    let here = Here {
        numbering,
        scope,
        around: rule.head.variables.len() as u64,
    };
    cut(alloc, &here, &rule.body, true, next)
}

/// The parts of the axiom's body.
fn body_parts<'n, 'a>(
    alloc: Global,
    numbering: &'n Numbering<'a>,
    rule: &'a Derived,
    next: u64,
) -> Result<Made<Part>, AllocError>
    ensures { IfOk result (IsMadeOf (spec.body_parts numbering.now.domain numbering.now.problem rule.now next)) }
{
    let numbering = &*numbering;
    let rule = &*rule;
    let variables = rule.head.variables.as_slice();
    let scope = scope_of(alloc, numbering, variables)?;
    parts_in(alloc, numbering, rule, &scope, next)
}

/// An axiom for each part of the body.
fn axiom_rows<'n, 'a>(
    alloc: Global,
    numbering: &'n Numbering<'a>,
    rule: &'a Derived,
    next: u64,
) -> Result<Made<AxiomRow>, AllocError>
    ensures { IfOk result (IsMadeOf (spec.axiom_rows numbering.now.domain numbering.now.problem rule.now next)) }
{
    let made = body_parts(alloc, numbering, rule, next)?;
    rows_from(alloc, numbering, &rule.head, made)
}

/// The axioms of the files, one after another.
pub(crate) fn axioms_of<'n, 'a>(
    alloc: Global,
    numbering: &'n Numbering<'a>,
    rules: &'a [Derived],
    next: u64,
) -> Result<Made<AxiomRow>, AllocError>
    ensures { IfOk result (IsMadeOf (parts.in_turn (map (spec.axiom_rows numbering.now.domain numbering.now.problem) rules.now) next)) }
{
    let mut made = nothing_made(alloc);
    for rule in rules {
        let start = checked_sum(next, made.fresh.len() as u64)?;
        let more = axiom_rows(alloc, numbering, rule, start)?;
        made = made_behind(made, more)?;
    }
    Ok(made)
}

/// Adds the axioms of the new predicates, which are numbered from 0.
pub(crate) fn push_fresh_axioms(
    rows: &mut Vec<AxiomRow>,
    numbering: &Numbering<'_>,
    fresh: &[Fresh],
) -> Result<(), AllocError>
    ensures { OnOk result (rows.new.items ≡ rows.old.items ++ spec.fresh_rows numbering.now.domain numbering.now.problem 0 fresh.now) }
{
    for number in 0..fresh.len() {
        let predicate = fresh_number(numbering, number as u64)?;
        let one = &fresh[number];
        push_axioms(
            rows,
            predicate,
            one.arguments.as_slice(),
            one.parts.as_slice(),
        )?;
    }
    Ok(())
}
