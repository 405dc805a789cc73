// The effects of an action.

ghost use Rattle.std.specs.Prelude.{◌≡◌, ◌++◌, ◌||◌, List as Items, map, IfOk, OnOk, if◌then◌else◌};
ghost use Rattle.std.specs.List.{list_any};
ghost use Rattle.std.specs.List.Sorted.{IsNonDecreasingBy};
ghost use Rattle.reached_task.specs.declared.types.ReachedEffect.{ReachedEffect as Row};
ghost use Rattle.sas_task.specs.Pairs.{pair};
ghost use Rattle.fdr_effects.specs.Places.{last_value};
ghost use Rattle.fdr_effects.specs.Effects as words;
ghost use Rattle.fdr_effects.specs.Rivals.{AreRivals, conditions, conditions_on, is_no_literal};
ghost use Rattle.fdr_effects.specs.Standing.{chosen, is_contradicted, shows};

use crate::choices::{both, forced, negated_choices};
use crate::index::Index;
use crate::literals::Marked;
use crate::on::on;
use crate::rivals::{Rival, rivals};
use crate::splits::split;
use ground_task::Cond;
use lists::List;
use reached_task::{FactNumber, ReachedEffect};
use sas_task::{Effect, Pair, Value, Var};
use std::alloc::{AllocError, Global};

/// An effect for each member.
fn push_each(
    out: &mut Vec<Effect>,
    members: Vec<List<Pair>>,
    var: Var,
    val: Value,
) -> Result<(), AllocError>
    ensures { OnOk result (out.new.items ≡ out.old.items ++ map (λ m. record { conditions = m; var = var; after = val }) members.items) }
{
    for conditions in members {
        out.push(Effect {
            conditions,
            var,
            after: val,
        })?;
    }
    Ok(())
}

/// Whether there are no literals.
fn is_empty(literals: &Cond<FactNumber>) -> bool
    ensures { result ≡ is_no_literal literals.now }
{
    literals.positive.as_slice().is_empty() && literals.negative.as_slice().is_empty()
}

/// The variable is set to the value where the literals hold.
fn push_where(
    alloc: Global,
    out: &mut Vec<Effect>,
    index: &Index,
    var: Var,
    val: Value,
    literals: &Cond<FactNumber>,
) -> Result<(), AllocError>
    ensures { OnOk result (out.new.items ≡ out.old.items ++ words.sets_where index.now (pair var val) literals.now) }
{
    if is_empty(literals) {
        out.push(Effect {
            conditions: List::from_vec(Vec::new(alloc)),
            var,
            after: val,
        })?;
        return Ok(());
    }
    let members = split(alloc, index, literals)?;
    push_each(out, members, var, val)
}

/// The condition of a delete effect with its fact.
fn cause(alloc: Global, effect: &ReachedEffect) -> Result<Cond<FactNumber>, AllocError>
    ensures { IfOk result (λ cause. cause ≡ words.both effect.now.condition (words.is_true effect.now.fact)) }
{
    let condition = &effect.condition;
    let mut positive = Vec::from_slice(alloc, condition.positive.as_slice())?;
    positive.push(effect.fact)?;
    Ok(Cond {
        positive: List::from_vec(positive),
        negative: List::from_vec(Vec::from_slice(alloc, condition.negative.as_slice())?),
    })
}

/// The variable is set to its last value where the cause and the choice hold.
fn push_choice(
    alloc: Global,
    out: &mut Vec<Effect>,
    index: &Index,
    cause: &Cond<FactNumber>,
    var: Var,
    choice: &Cond<FactNumber>,
) -> Result<(), AllocError>
    ensures { OnOk result (out.new.items ≡ out.old.items ++ words.sets_where index.now (pair var (last_value index.now var)) (words.both cause.now choice.now)) }
{
    let all = both(alloc, cause, choice)?;
    push_where(alloc, out, index, var, index.last_value(var), &all)
}

/// Whether an add effect among the rivals fires wherever the cause holds.
fn one_is_shown(cause: &Marked, rivals: &[Rival]) -> bool
    ensures { result ≡ list_any (λ r. shows cause.now r.condition.now) rivals.now }
{
    rivals.iter().any(|rival| cause.shows(rival.condition))
}

/// Whether there is no choice that the cause can stand beside, as is seen before any is made.
fn never_fires(cause: &Marked, rivals: &[Rival]) -> bool
    ensures { result ≡ (is_contradicted cause.now || list_any (λ r. shows cause.now r.condition.now) rivals.now) }
{
    cause.is_contradicted() || one_is_shown(cause, rivals)
}

/// The variable is set to its last value where the cause holds and no add effect among the rivals fires.
fn push_choices(
    alloc: Global,
    out: &mut Vec<Effect>,
    index: &Index,
    cause: &Cond<FactNumber>,
    var: Var,
    rivals: &[Rival],
) -> Result<(), AllocError>
    ensures { OnOk result (out.new.items ≡ out.old.items ++ chosen index.now cause.now var (conditions rivals.now)) }
{
    let marked = Marked::of(alloc, index, cause)?;
    if never_fires(&marked, rivals) {
        return Ok(());
    }
    let all = negated_choices(alloc, &marked, rivals)?;
    for choice in all.as_slice() {
        push_choice(alloc, out, index, cause, var, choice)?;
    }
    Ok(())
}

/// Adds the effects of a cause without what each choice has. Nothing is looked for where there is no rival.
fn push_caused(
    alloc: Global,
    out: &mut Vec<Effect>,
    index: &Index,
    cause: Cond<FactNumber>,
    var: Var,
    rivals: &[Rival],
) -> Result<(), AllocError>
    ensures { OnOk result (out.new.items ≡ out.old.items ++ chosen index.now cause var (conditions rivals.now)) }
{
    if rivals.is_empty() {
        push_where(alloc, out, index, var, index.last_value(var), &cause)?;
        return Ok(());
    }
    let all = forced(cause, rivals)?;
    push_choices(alloc, out, index, &all, var, rivals)
}

/// Whether one of the rivals has no literal.
fn one_is_empty(rivals: &[Rival]) -> bool
    ensures { result ≡ list_any (λ r. is_no_literal r.condition.now) rivals.now }
{
    rivals.iter().any(|rival| is_empty(rival.condition))
}

/// Whether an add effect on the variable fires wherever the action is applied.
fn is_always_set(rivals: &[Rival], var: Var) -> bool
    requires { IsNonDecreasingBy (λ r. r.var) rivals.now }
    ensures { result ≡ list_any is_no_literal (conditions_on var rivals.now) }
{
    one_is_empty(on(rivals, var))
}

/// The effects of a delete effect on a variable of its fact.
fn push_deletes(
    alloc: Global,
    out: &mut Vec<Effect>,
    index: &Index,
    rivals: &[Rival],
    effect: &ReachedEffect,
    var: Var,
) -> Result<(), AllocError>
    requires { IsNonDecreasingBy (λ r. r.var) rivals.now }
    ensures { (effects : Items Row) → AreRivals index.now effects rivals.now →
        OnOk result (out.new.items ≡ out.old.items ++ words.deletes_in index.now effects effect.now var) }
{
    if is_always_set(rivals, var) {
        return Ok(());
    }
    let cause = cause(alloc, effect)?;
    push_caused(alloc, out, index, cause, var, on(rivals, var))
}

/// The effects at one place of the fact.
fn push_at(
    alloc: Global,
    out: &mut Vec<Effect>,
    index: &Index,
    rivals: &[Rival],
    effect: &ReachedEffect,
    place: &Pair,
) -> Result<(), AllocError>
    requires { IsNonDecreasingBy (λ r. r.var) rivals.now }
    ensures { (effects : Items Row) → AreRivals index.now effects rivals.now → OnOk result (out.new.items ≡ out.old.items ++
        (if effect.now.adds then words.sets_where index.now place.now effect.now.condition else words.deletes_in index.now effects effect.now place.now.var)) }
{
    if effect.adds {
        push_where(alloc, out, index, place.var, place.val, &effect.condition)
    } else {
        push_deletes(alloc, out, index, rivals, effect, place.var)
    }
}

/// The effects at each place of the fact.
fn push_effect(
    alloc: Global,
    out: &mut Vec<Effect>,
    index: &Index,
    rivals: &[Rival],
    effect: &ReachedEffect,
) -> Result<(), AllocError>
    requires { IsNonDecreasingBy (λ r. r.var) rivals.now }
    ensures { (effects : Items Row) → AreRivals index.now effects rivals.now →
        OnOk result (out.new.items ≡ out.old.items ++ words.effects_at index.now effects effect.now) }
{
    for place in index.places(effect.fact) {
        push_at(alloc, out, index, rivals, effect, place)?;
    }
    Ok(())
}

/// The effects of an action with these effects, before anything is left out.
pub fn effects_of(
    alloc: Global,
    index: &Index,
    effects: &[ReachedEffect],
) -> Result<Vec<Effect>, AllocError>
    ensures { IfOk result (λ all. all.items ≡ words.effects_of index.now effects.now) }
{
    let rivals = rivals(alloc, index, effects)?;
    let mut all = Vec::with_capacity(alloc, effects.len())?;
    for effect in effects {
        push_effect(alloc, &mut all, index, rivals.as_slice(), effect)?;
    }
    Ok(all)
}
