// The add effects of an action, found by variable.

ghost use Rattle.std.specs.Prelude.{◌≡◌, ◌++◌, map, IfOk, OnOk};
ghost use Rattle.std.specs.List.{flat_map};
ghost use Rattle.std.specs.List.Sorted.{IsNonDecreasingBy, IsStableByKey};
ghost use Rattle.std.specs.Ordering.{nat_cmp};
ghost use Rattle.fdr_effects.specs.Rivals as words;

use crate::index::Index;
use crate::on::OnVariable;
use ground_task::Cond;
use reached_task::{FactNumber, ReachedEffect};
use sas_task::{Pair, Var};
use std::alloc::{AllocError, Global};

/// A variable, and the condition of an add effect on a fact of it.
#[derive(Drop)]
pub(crate) struct Rival<'a> {
    pub(crate) var: Var,
    pub(crate) condition: &'a Cond<FactNumber>,
}

impl<'a> OnVariable for Rival<'a> {
    ghost var_of = { λ r. r.var };

    fn variable(&self) -> Var {
        self.var
    }
}

fn push_places<'a>(
    out: &mut Vec<Rival<'a>>,
    places: &[Pair],
    condition: &'a Cond<FactNumber>,
) -> Result<(), AllocError>
    ensures { OnOk result (map words.seen out.new.items ≡ map words.seen out.old.items ++ map (λ p. (p.var, condition.now)) places.now) }
{
    for place in places {
        out.push(Rival {
            var: place.var,
            condition,
        })?;
    }
    Ok(())
}

fn push_effect<'a>(
    out: &mut Vec<Rival<'a>>,
    index: &Index,
    effect: &'a ReachedEffect,
) -> Result<(), AllocError>
    ensures { OnOk result (map words.seen out.new.items ≡ map words.seen out.old.items ++ words.rivals_of index.now effect.now) }
{
    if effect.adds {
        push_places(out, index.places(effect.fact), &effect.condition)?;
    }
    Ok(())
}

fn in_turn<'a>(
    alloc: Global,
    index: &Index,
    effects: &'a [ReachedEffect],
) -> Result<Vec<Rival<'a>>, AllocError>
    ensures { IfOk result (λ all. map words.seen all.items ≡ flat_map (words.rivals_of index.now) effects.now) }
{
    let mut all = Vec::with_capacity(alloc, effects.len())?;
    for effect in effects {
        push_effect(&mut all, index, effect)?;
    }
    Ok(all)
}

/// Rivals by variable; those on one keep their order.
fn by_variable<'a>(rivals: Vec<Rival<'a>>) -> Result<Vec<Rival<'a>>, AllocError>
    ensures in_order { IfOk result (λ all. IsNonDecreasingBy (λ r. r.var) all.items) }
    ensures stable { IfOk result (λ all. IsStableByKey (λ r. r.var) nat_cmp rivals.entry.items all.items) }
{
    let mut all = rivals;
    all.sort_by_key(|rival| rival.var)?;
    Ok(all)
}

/// The add effects of an action by the variables of their facts; those on one variable stand in the order of the effects.
pub(crate) fn rivals<'a>(
    alloc: Global,
    index: &Index,
    effects: &'a [ReachedEffect],
) -> Result<Vec<Rival<'a>>, AllocError>
    ensures in_order { IfOk result (λ all. IsNonDecreasingBy (λ r. r.var) all.items) }
    ensures rivals { IfOk result (λ all. words.AreRivals index.now effects.now all.items) }
{
    by_variable(in_turn(alloc, index, effects)?)
}
