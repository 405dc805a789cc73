// The free variables of conditions.
ghost use Rattle.std.specs.Prelude.{◌≡◌, ◌||◌, ◌&&◌, length, map, not, take, IfOk, OnOk};
ghost use Rattle.std.specs.List.{list_any};
ghost use Rattle.pddl_syntax.specs.Words.{Name, is_same};
ghost use Rattle.normal_rows.specs.Free.{AddsUnbound, is_wanted};
ghost use Rattle.normal_task.specs.Parts as spec;

use names::Names;
use numbering::Numbering;
use pddl_syntax::{Condition, Term, Typed};
use std::alloc::{AllocError, Global};

/// The variables that are free inside the list of variables, found in one walk.
pub(crate) fn free_inside<'a>(
    alloc: Global,
    numbering: &Numbering<'_>,
    variables: &'a [Typed],
    inside: &'a Condition,
) -> Result<Names<'a>, AllocError>
    ensures { IfOk result (λ free. (name : Name) → list_any (is_same name) free ≡ is_wanted numbering.now.domain numbering.now.problem variables.now inside.now name) }
{
    let mut free = Names::new(alloc);
    let mut bound = Names::new(alloc);
    add_inside(&mut free, &mut bound, numbering, variables, inside)?;
    Ok(free)
}

/// Adds the variables that are free in the condition, but for the bound ones.
#[cycle(add_free)]
fn add_free<'a>(
    free: &mut Names<'a>,
    bound: &mut Names<'a>,
    numbering: &Numbering<'_>,
    condition: &'a Condition,
) -> Result<(), AllocError>
    ensures bound { OnOk result (bound.new ≡ bound.old) }
    ensures free { OnOk result (AddsUnbound (spec.known numbering.now.domain numbering.now.problem condition.now).is_free bound.old free.old free.new) }
{
    match condition {
        Condition::True(_) => Ok(()),
        Condition::Atom(atom) => add_terms(free, bound, atom.terms.as_slice()),
        Condition::Equal(left, right, _) => add_two(free, bound, left, right),
        Condition::Not(inside, _) => add_free(free, bound, numbering, inside.get()),
        Condition::And(members, _) | Condition::Or(members, _) => {
            add_free_of_all(free, bound, numbering, members.as_slice())
        }
        Condition::Imply(premise, conclusion, _) => {
            add_free(free, bound, numbering, premise.get())?;
            add_free(free, bound, numbering, conclusion.get())
        }
        Condition::Forall(variables, inside, _) | Condition::Exists(variables, inside, _) => {
            add_inside(free, bound, numbering, variables.as_slice(), inside.get())
        }
    }
}

#[cycle(add_free)]
fn add_free_of_all<'a>(
    free: &mut Names<'a>,
    bound: &mut Names<'a>,
    numbering: &Numbering<'_>,
    members: &'a [Condition],
) -> Result<(), AllocError>
    ensures bound { OnOk result (bound.new ≡ bound.old) }
    ensures free { OnOk result (AddsUnbound (λ name. list_any (λ member. member.is_free name) (map (spec.known numbering.now.domain numbering.now.problem) members.now)) bound.old free.old free.new) }
{
    for member in members {
        add_free(free, bound, numbering, member)?;
    }
    Ok(())
}

/// Adds the variables that are free inside the list of variables, which are bound meanwhile.
#[cycle(add_free)]
fn add_inside<'a>(
    free: &mut Names<'a>,
    bound: &mut Names<'a>,
    numbering: &Numbering<'_>,
    variables: &'a [Typed],
    inside: &'a Condition,
) -> Result<(), AllocError>
    ensures bound { OnOk result (bound.new ≡ bound.old) }
    ensures free { OnOk result (AddsUnbound (is_wanted numbering.now.domain numbering.now.problem variables.now inside.now) bound.old free.old free.new) }
{
    let len = bound.len();
    bind(bound, variables)?;
    add_free(free, bound, numbering, inside)?;
    bound.truncate(len);
    Ok(())
}

/// Adds the variables of the list.
fn bind<'a>(bound: &mut Names<'a>, variables: &'a [Typed]) -> Result<(), AllocError>
    ensures before { OnOk result (take (length bound.old) bound.new ≡ bound.old) }
    ensures names { OnOk result ((name : Name) → list_any (is_same name) bound.new ≡ (spec.is_listed variables.now name || list_any (is_same name) bound.old)) }
{
    for variable in variables {
        bound.add(variable.name.name.as_slice())?;
    }
    Ok(())
}

fn add_terms<'a>(
    free: &mut Names<'a>,
    bound: &Names<'a>,
    terms: &'a [Term],
) -> Result<(), AllocError>
    ensures { OnOk result (AddsUnbound (λ name. list_any (spec.is_term_of name) terms.now) bound.now free.old free.new) }
{
    for term in terms {
        add_term(free, bound, term)?;
    }
    Ok(())
}

fn add_two<'a>(
    free: &mut Names<'a>,
    bound: &Names<'a>,
    left: &'a Term,
    right: &'a Term,
) -> Result<(), AllocError>
    ensures { OnOk result (AddsUnbound (λ name. spec.is_term_of name left.now || spec.is_term_of name right.now) bound.now free.old free.new) }
{
    add_term(free, bound, left)?;
    add_term(free, bound, right)
}

fn add_term<'a>(free: &mut Names<'a>, bound: &Names<'a>, term: &'a Term) -> Result<(), AllocError>
    ensures { OnOk result (AddsUnbound (λ name. spec.is_term_of name term.now) bound.now free.old free.new) }
{
    match term {
        Term::Variable(variable) => add_unbound(free, bound, variable.name.as_slice()),
        Term::Object(_) => Ok(()),
    }
}

fn add_unbound<'a>(
    free: &mut Names<'a>,
    bound: &Names<'a>,
    name: &'a [u8],
) -> Result<(), AllocError>
    ensures { OnOk result (AddsUnbound (is_same name.now) bound.now free.old free.new) }
{
    if !bound.has(name) {
        free.add(name)?;
    }
    Ok(())
}
