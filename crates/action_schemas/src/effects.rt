// The effects of an action.
ghost use Rattle.std.specs.Prelude.{◌≡◌, ◌++◌, ◌∷◌, [], map, nat_lt, true, IfOk};
ghost use Rattle.std.specs.List.{list_all};
ghost use Rattle.fault_positions.specs.Sizes.{size_of};
ghost use Rattle.normal_rows.specs.MadeThings.{IsMadeOf};
ghost use Rattle.normal_rows.specs.Changes.{changed_row};
ghost use Rattle.action_schemas.specs.Cuts.{cut_of, cuts_of, wanted_of};
ghost use Rattle.normal_task.specs.Normalised as spec;
ghost use Rattle.normal_task.specs.Numbers.{ranges_of};
ghost use Rattle.normal_task.specs.Parts as parts;

use crate::conditions::{Here, cut_wanted, joined_made, neutral};
use crate::emptiness::has_parts;
use lists::{List, checked_sum};
use normal_rows::{
    Change, Made, Scope, effect_rows, joined_ranges, made_behind, nothing_made, places_of,
    scope_inside,
};
use normal_task::laws::as_many_parts;
use normal_task::{EffectRow, ObjectRange, Part};
use numbering::Numbering;
use pddl_syntax::{Atom, Condition, Effect, Typed};
use std::alloc::{AllocError, Global};

/// A condition that is required around an effect, and the variables around it.
#[derive(Clone, Copy)]
pub(crate) struct Required<'s, 'n, 'a> {
    pub(crate) condition: &'a Condition,
    pub(crate) scope: &'s Scope<'n, 'a>,
}

/// What stands around an effect: the conditions that are required, the outermost first, and the variables.
#[derive(Clone, Copy)]
pub(crate) struct Around<'s, 'n, 'a> {
    pub(crate) required: &'s [Required<'s, 'n, 'a>],
    pub(crate) scope: &'s Scope<'n, 'a>,
    /// How many variables there are.
    pub(crate) count: u64,
}

// ---- one atom

/// Whether each of the conditions has parts.
fn all_have_parts(required: &[Required<'_, '_, '_>]) -> bool
    ensures { result ≡ list_all (λ one. nat_lt 0 (size_of one.condition.now true).parts) required.now }
{
    required.iter().all(|one| has_parts(one.condition, true))
}

/// How one condition that is required is cut. Where its parts aren't wanted, its new predicates are made alone.
fn cut_one<'n, 'a>(
    alloc: Global,
    numbering: &'n Numbering<'a>,
    one: &Required<'_, 'n, 'a>,
    around: u64,
    wanted: bool,
    next: u64,
) -> Result<Made<Part>, AllocError>
    ensures { IfOk result (IsMadeOf (wanted_of wanted (cut_of numbering.now.domain numbering.now.problem one.now around next))) }
{
    let here = Here {
        numbering,
        scope: one.scope,
        around,
    };
    cut_wanted(alloc, &here, one.condition, true, wanted, next)
}

/// Every pairing of the parts of what is required: none where one condition has none, whatever the others have.
fn cut_required<'n, 'a>(
    alloc: Global,
    numbering: &'n Numbering<'a>,
    required: &[Required<'_, 'n, 'a>],
    around: u64,
    next: u64,
) -> Result<Made<Part>, AllocError>
    ensures { IfOk result (IsMadeOf (parts.all_of around (map (λ cut. cut around) (cuts_of numbering.now.domain numbering.now.problem required.now)) next)) }
{
    as_many_parts();
    let wanted = all_have_parts(required);
    let mut made = neutral(alloc, wanted)?;
    for one in required {
        let start = checked_sum(next, made.fresh.len() as u64)?;
        let more = cut_one(alloc, numbering, one, around, wanted, start)?;
        made = joined_made(alloc, wanted, around, made, more)?;
    }
    Ok(made)
}

/// An effect for each part of what is required.
fn changed<'n, 'a>(
    alloc: Global,
    numbering: &'n Numbering<'a>,
    change: &Change<'_>,
    around: &Around<'_, 'n, 'a>,
    next: u64,
) -> Result<Made<EffectRow>, AllocError>
    ensures { IfOk result (λ made. (made.items ≡ map (changed_row change.now) (parts.all_of around.now.count (map (λ cut. cut around.now.count) (cuts_of numbering.now.domain numbering.now.problem around.now.required.now)) next).items) × (made.fresh ≡ (parts.all_of around.now.count (map (λ cut. cut around.now.count) (cuts_of numbering.now.domain numbering.now.problem around.now.required.now)) next).fresh)) }
{
    let Made { items, fresh } = cut_required(
        alloc,
        numbering,
        around.required,
        around.count,
        next,
    )?;
    let items = effect_rows(alloc, change, items)?;
    Ok(Made { items, fresh })
}

/// The atom is written for each part of what is required.
fn written<'n, 'a>(
    alloc: Global,
    numbering: &'n Numbering<'a>,
    adds: bool,
    atom: &Atom,
    around: &Around<'_, 'n, 'a>,
    next: u64,
) -> Result<Made<EffectRow>, AllocError>
    ensures { IfOk result (IsMadeOf (spec.written numbering.now.domain numbering.now.problem adds atom.now (cuts_of numbering.now.domain numbering.now.problem around.now.required.now) around.now.scope.now around.now.count next)) }
{
    let places = places_of(alloc, numbering, around.scope, atom.terms.as_slice())?;
    let change = Change {
        adds,
        predicate: numbering.predicate(atom.predicate.name.as_slice()),
        places: places.as_slice(),
    };
    changed(alloc, numbering, &change, around, next)
}

// ---- effects

/// The list with one condition more.
fn with_required<'s, 'n, 'a>(
    alloc: Global,
    required: &[Required<'s, 'n, 'a>],
    last: Required<'s, 'n, 'a>,
) -> Result<Vec<Required<'s, 'n, 'a>>, AllocError>
    ensures { IfOk result (λ longer. longer.items ≡ required.now ++ last.entry ∷ []) }
{
    let mut longer = Vec::from_slice(alloc, required)?;
    longer.push(last)?;
    Ok(longer)
}

/// The effect with more variables before its own.
fn row_with_variables(
    alloc: Global,
    variables: &[ObjectRange],
    row: EffectRow,
) -> Result<EffectRow, AllocError>
    ensures { IfOk result (λ longer. longer ≡ record {
      variables = variables.now ++ row.variables;
      condition = row.condition;
      adds = row.adds;
      predicate = row.predicate;
      places = row.places;
    }) }
{
    Ok(EffectRow {
        variables: joined_ranges(alloc, variables, row.variables)?,
        condition: row.condition,
        adds: row.adds,
        predicate: row.predicate,
        places: row.places,
    })
}

/// The effects with more variables before their own.
fn rows_with_variables(
    alloc: Global,
    variables: &[ObjectRange],
    rows: List<EffectRow>,
) -> Result<List<EffectRow>, AllocError>
    ensures { IfOk result (λ longer. longer ≡ map (λ row. record {
      variables = variables.now ++ row.variables;
      condition = row.condition;
      adds = row.adds;
      predicate = row.predicate;
      places = row.places;
    }) rows) }
{
    let mut longer = Vec::new(alloc);
    for row in rows.into_vec() {
        longer.push(row_with_variables(alloc, variables, row)?)?;
    }
    Ok(List::from_vec(longer))
}

/// The effects with the variables before their own.
fn rows_behind(
    alloc: Global,
    numbering: &Numbering<'_>,
    variables: &[Typed],
    made: Made<EffectRow>,
) -> Result<Made<EffectRow>, AllocError>
    ensures { IfOk result (λ longer. (longer.items ≡ map (spec.row_with_variables numbering.now.domain numbering.now.problem (ranges_of numbering.now.domain numbering.now.problem variables.now)) made.items) × (longer.fresh ≡ made.fresh)) }
{
    let Made { items, fresh } = made;
    let ranges = numbering.ranges(alloc, variables)?;
    let items = rows_with_variables(alloc, ranges.as_slice(), items)?;
    Ok(Made { items, fresh })
}

/// The effects that stand in the effect. Each condition is cut anew for each atom that is written under it, once all
/// variables around the atom are known.
#[cycle(rows_of)]
pub(crate) fn rows_of<'n, 'a>(
    alloc: Global,
    numbering: &'n Numbering<'a>,
    effect: &'a Effect,
    around: &Around<'_, 'n, 'a>,
    next: u64,
) -> Result<Made<EffectRow>, AllocError>
    ensures { IfOk result (IsMadeOf (spec.rows_of numbering.now.domain numbering.now.problem effect.now (cuts_of numbering.now.domain numbering.now.problem around.now.required.now) around.now.scope.now around.now.count next)) }
{
    match effect {
        Effect::Nothing(_) | Effect::Increase(_, _, _) => Ok(nothing_made(alloc)),
        Effect::Add(atom) => written(alloc, numbering, true, atom, around, next),
        Effect::Delete(atom) => written(alloc, numbering, false, atom, around, next),
        Effect::And(members, _) => {
            rows_of_all(alloc, numbering, members.as_slice(), around, next)
        }
        Effect::When(condition, inside, _) => {
            let last = Required {
                condition,
                scope: around.scope,
            };
            let required = with_required(alloc, around.required, last)?;
            let inner = Around {
                required: required.as_slice(),
                scope: around.scope,
                count: around.count,
            };
            rows_of(alloc, numbering, inside.get(), &inner, next)
        }
        Effect::Forall(variables, inside, _) => {
            rows_for_each(
                alloc,
                numbering,
                variables.as_slice(),
                inside.get(),
                around,
                next,
            )
        }
    }
}

/// The effects that stand in the effect, for all objects of the variables.
#[cycle(rows_of)]
fn rows_for_each<'n, 'a>(
    alloc: Global,
    numbering: &'n Numbering<'a>,
    variables: &'a [Typed],
    inside: &'a Effect,
    around: &Around<'_, 'n, 'a>,
    next: u64,
) -> Result<Made<EffectRow>, AllocError>
    ensures { IfOk result (IsMadeOf (spec.for_each numbering.now.domain numbering.now.problem variables.now (spec.rows_of numbering.now.domain numbering.now.problem inside.now) (cuts_of numbering.now.domain numbering.now.problem around.now.required.now) around.now.scope.now around.now.count next)) }
{
    let count = checked_sum(around.count, variables.len() as u64)?;
    let scope = scope_inside(alloc, numbering, variables, around.count, around.scope)?;
    let inner = Around {
        required: around.required,
        scope: &scope,
        count,
    };
    let made = rows_of(alloc, numbering, inside, &inner, next)?;
    rows_behind(alloc, numbering, variables, made)
}

/// The effects of the members, one after another.
#[cycle(rows_of)]
fn rows_of_all<'n, 'a>(
    alloc: Global,
    numbering: &'n Numbering<'a>,
    members: &'a [Effect],
    around: &Around<'_, 'n, 'a>,
    next: u64,
) -> Result<Made<EffectRow>, AllocError>
    ensures { IfOk result (IsMadeOf (parts.in_turn (map (λ member. member (cuts_of numbering.now.domain numbering.now.problem around.now.required.now) around.now.scope.now around.now.count) (map (spec.rows_of numbering.now.domain numbering.now.problem) members.now)) next)) }
{
    let mut made = nothing_made(alloc);
    for member in members {
        let start = checked_sum(next, made.fresh.len() as u64)?;
        let more = rows_of(alloc, numbering, member, around, start)?;
        made = made_behind(made, more)?;
    }
    Ok(made)
}
