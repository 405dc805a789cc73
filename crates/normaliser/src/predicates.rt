// The predicates of a normal task: the declared ones, and then the new ones.
ghost use Rattle.std.specs.Prelude.{◌≡◌, ◌++◌, ◌∷◌, ◌||◌, [], codes, decimal, map, length, true, false, IfOk, OnOk};
ghost use Rattle.std.specs.List.{list_any, flat_map};
ghost use Rattle.pddl_syntax.specs.declared.types.Domain.{Domain};
ghost use Rattle.pddl_syntax.specs.declared.types.Problem.{Problem};
ghost use Rattle.pddl_syntax.specs.Words.{Name, is_same};
ghost use Rattle.fault_positions.specs.Arguments.{AreThose};
ghost use Rattle.normaliser.specs.Rows.{row_of};
ghost use Rattle.normaliser.specs.IsWritten.{is_written};
ghost use Rattle.normal_task.specs.Normalised as spec;

use lists::{List, Text};
use names::Names;
use normal_task::{Fresh, PredicateRow};
use pddl_syntax::{Action, Derived, Domain, Effect, Head};
use std::alloc::{AllocError, Global};

/// The name of a new predicate.
fn fresh_name(alloc: Global, number: u64) -> Result<Text, AllocError>
    ensures { IfOk result (λ name. name ≡ codes "new-axiom@" ++ decimal number) }
{
    let name = format!(in alloc; "new-axiom@{number}")?;
    Ok(Text::from_vec(name.into_bytes()))
}

fn fresh_row(alloc: Global, number: u64, fresh: &Fresh) -> Result<PredicateRow, AllocError>
    ensures { IfOk result (λ row. row ≡ record {
      name = codes "new-axiom@" ++ decimal number;
      arity = length fresh.now.arguments;
      derived = true;
      fixed = false;
    }) }
{
    Ok(PredicateRow {
        name: fresh_name(alloc, number)?,
        arity: fresh.arguments.len() as u64,
        derived: true,
        fixed: false,
    })
}

/// Adds the rows of the new predicates, which are numbered from 0.
fn push_fresh_rows(rows: &mut Vec<PredicateRow>, fresh: &[Fresh]) -> Result<(), AllocError>
    ensures { (domain : Domain) (problem : Problem) → OnOk result (rows.new.items ≡ rows.old.items ++ spec.fresh_predicates domain problem 0 fresh.now) }
{
    for number in 0..fresh.len() {
        rows.push(fresh_row(*rows.allocator(), number as u64, &fresh[number])?)?;
    }
    Ok(())
}

// ---- the declared predicates

/// The derived predicates.
fn derived_names<'a>(alloc: Global, axioms: &'a [Derived]) -> Result<Names<'a>, AllocError>
    ensures { IfOk result (AreThose (λ name. list_any (λ rule. is_same rule.head.name.name name) axioms.now)) }
{
    let mut names = Names::new(alloc);
    for axiom in axioms {
        names.add(axiom.head.name.name.as_slice())?;
    }
    Ok(names)
}

/// Adds the predicates that the effect is on.
#[cycle(add_written)]
fn add_written<'a>(names: &mut Names<'a>, effect: &'a Effect) -> Result<(), AllocError>
    ensures { OnOk result ((name : Name) → list_any (is_same name) names.new ≡ (is_written effect.now name || list_any (is_same name) names.old)) }
{
    match effect {
        Effect::Nothing(_) | Effect::Increase(_, _, _) => Ok(()),
        Effect::Add(atom) | Effect::Delete(atom) => add_name(names, atom.predicate.name.as_slice()),
        Effect::And(members, _) => add_all_written(names, members.as_slice()),
        Effect::When(_, inside, _) | Effect::Forall(_, inside, _) => {
            add_written(names, inside.get())
        }
    }
}

#[cycle(add_written)]
fn add_all_written<'a>(names: &mut Names<'a>, members: &'a [Effect]) -> Result<(), AllocError>
    ensures { OnOk result ((name : Name) → list_any (is_same name) names.new ≡ (list_any (λ member. member name) (map is_written members.now) || list_any (is_same name) names.old)) }
{
    for member in members {
        add_written(names, member)?;
    }
    Ok(())
}

fn add_name<'a>(names: &mut Names<'a>, added: &'a [u8]) -> Result<(), AllocError>
    ensures { OnOk result ((name : Name) → list_any (is_same name) names.new ≡ (is_same added.now name || list_any (is_same name) names.old)) }
{
    names.add(added)?;
    Ok(())
}

/// The predicates that the actions' effects are on.
fn changed_names<'a>(alloc: Global, actions: &'a [Action]) -> Result<Names<'a>, AllocError>
    ensures { IfOk result (AreThose (λ name. list_any (λ action. is_written action.effect name) actions.now)) }
{
    let mut names = Names::new(alloc);
    for action in actions {
        add_written(&mut names, &action.effect)?;
    }
    Ok(names)
}

fn declared_row(
    alloc: Global,
    derived: &Names<'_>,
    changed: &Names<'_>,
    head: &Head,
) -> Result<PredicateRow, AllocError>
    ensures { IfOk result (λ row. row ≡ row_of derived.now changed.now head.now) }
{
    let name = head.name.name.as_slice();
    let is_derived = derived.has(name);
    Ok(PredicateRow {
        name: Text::from_slice(alloc, name)?,
        arity: head.variables.len() as u64,
        derived: is_derived,
        fixed: !is_derived && !changed.has(name),
    })
}

fn declared_rows(
    alloc: Global,
    derived: &Names<'_>,
    changed: &Names<'_>,
    heads: &[Head],
) -> Result<Vec<PredicateRow>, AllocError>
    ensures { IfOk result (λ rows. rows.items ≡ map (row_of derived.now changed.now) heads.now) }
{
    let mut rows = Vec::new(alloc);
    for head in heads {
        rows.push(declared_row(alloc, derived, changed, head)?)?;
    }
    Ok(rows)
}

/// The rows of the declared predicates and of the new ones.
pub(crate) fn predicate_rows(
    alloc: Global,
    domain: &Domain,
    fresh: &[Fresh],
) -> Result<List<PredicateRow>, AllocError>
    ensures { (problem : Problem) → IfOk result (λ rows. rows ≡ map (spec.declared_row domain.now problem) domain.now.predicates ++ spec.fresh_predicates domain.now problem 0 fresh.now) }
{
    let derived = derived_names(alloc, domain.axioms.as_slice())?;
    let changed = changed_names(alloc, domain.actions.as_slice())?;
    let mut rows = declared_rows(alloc, &derived, &changed, domain.predicates.as_slice())?;
    push_fresh_rows(&mut rows, fresh)?;
    Ok(List::from_vec(rows))
}
