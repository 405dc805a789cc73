// The variables in scope that a quantified condition asks for.
ghost use Rattle.std.specs.Prelude.{◌≡◌, ◌++◌, ◌∷◌, ◌||◌, [], map, reverse, IfOk, OnOk, if◌then◌else◌};
ghost use Rattle.std.specs.List.{list_any};
ghost use Rattle.pddl_syntax.specs.Words.{Name, is_same};
ghost use Rattle.normal_rows.specs.Asked.{asks};
ghost use Rattle.normal_task.specs.declared.task.Place.TheVariants as place;
ghost use Rattle.normal_task.specs.Parts as spec;

use crate::free::free_inside;
use crate::scope::Scope;
use crate::variable::Variable;
use lists::List;
use names::Names;
use normal_task::{ObjectRange, Place};
use numbering::Numbering;
use pddl_syntax::{Condition, Typed};
use std::alloc::{AllocError, Global};

/// Adds the variable, if it is free and no inner one, of which there are these names, hides it.
fn push_if_free<'n, 'a>(
    slots: &mut Vec<Variable<'n, 'a>>,
    inner: &mut Names<'a>,
    free: &Names<'_>,
    slot: &Variable<'n, 'a>,
) -> Result<(), AllocError>
    ensures inner { OnOk result ((name : Name) → list_any (is_same name) inner.new ≡ (is_same name slot.now.variable || list_any (is_same name) inner.old)) }
    ensures slots { OnOk result (slots.new.items ≡ slots.old.items ++ (if asks free.now inner.old slot.now.variable then slot.now ∷ [] else [])) }
{
    let is_innermost = inner.add(slot.name())?;
    if free.has(slot.name()) && is_innermost {
        slots.push(slot.copy())?;
    }
    Ok(())
}

/// The free variables of a quantified condition that are in scope, the outermost first.
pub fn free_slots<'n, 'a>(
    alloc: Global,
    numbering: &Numbering<'_>,
    variables: &'a [Typed],
    inside: &'a Condition,
    scope: &Scope<'n, 'a>,
) -> Result<Vec<Variable<'n, 'a>>, AllocError>
    ensures { IfOk result (λ slots. slots.items ≡ spec.free_slots numbering.now.domain numbering.now.problem variables.now (spec.known numbering.now.domain numbering.now.problem inside.now) scope.now) }
{
    let free = free_inside(alloc, numbering, variables, inside)?;
    named_slots(alloc, &free, scope)
}

/// Those of the scope that have one of the names and that no inner one hides, the outermost first.
fn named_slots<'n, 'a>(
    alloc: Global,
    free: &Names<'_>,
    scope: &Scope<'n, 'a>,
) -> Result<Vec<Variable<'n, 'a>>, AllocError>
    ensures { IfOk result (λ slots. slots.items ≡ spec.slots_for (asks free.now []) scope.now) }
{
    let mut slots = slots_for(alloc, free, scope.variables())?;
    slots.as_mut_slice().reverse();
    Ok(slots)
}

/// Those of the variables that have one of the names and that no inner one hides, the innermost first.
fn slots_for<'n, 'a>(
    alloc: Global,
    free: &Names<'_>,
    variables: &[Variable<'n, 'a>],
) -> Result<Vec<Variable<'n, 'a>>, AllocError>
    ensures { IfOk result (λ slots. reverse slots.items ≡ spec.slots_for (asks free.now []) (reverse variables.now)) }
{
    let mut inner = Names::new(alloc);
    let mut slots = Vec::new(alloc);
    let mut left = variables.len();
    while left > 0 {
        left -= 1;
        push_if_free(&mut slots, &mut inner, free, &variables[left])?;
    }
    Ok(slots)
}

/// These variables alone, numbered in their order.
pub fn renumbered<'n, 'a>(
    alloc: Global,
    list: &[Variable<'n, 'a>],
) -> Result<Scope<'n, 'a>, AllocError>
    ensures { IfOk result (λ scope. scope ≡ spec.renumbered list.now 0 []) }
{
    let mut scope = Scope::new(alloc);
    for (index, variable) in list.iter().enumerate() {
        scope = scope.with(variable.numbered(index as u64))?;
    }
    Ok(scope)
}

/// The variables as places.
pub fn variables_of(
    alloc: Global,
    arguments: &[Variable<'_, '_>],
) -> Result<List<Place>, AllocError>
    ensures { IfOk result (λ places. places ≡ map (λ slot. place.Variable slot.place) arguments.now) }
{
    let mut places = Vec::new(alloc);
    for variable in arguments {
        places.push(Place::Variable(variable.place()))?;
    }
    Ok(List::from_vec(places))
}

/// What the variables range over.
pub(crate) fn ranges_of(
    alloc: Global,
    arguments: &[Variable<'_, '_>],
) -> Result<List<ObjectRange>, AllocError>
    ensures { IfOk result (λ ranges. ranges ≡ map (λ slot. slot.range) arguments.now) }
{
    let mut ranges = Vec::new(alloc);
    for variable in arguments {
        ranges.push(variable.range(alloc)?)?;
    }
    Ok(List::from_vec(ranges))
}
