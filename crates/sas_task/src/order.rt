// The orders in which the parts of a task stand.

ghost use Rattle.std.specs.Prelude.{◌≡◌, IfOk};
ghost use Rattle.std.specs.List.{IsAllAdjacentAnswer};
ghost use Rattle.std.specs.Cmp.{IsTotalOrder};
ghost use Rattle.std.specs.Cmp.Lexicographic.{slice_cmp};
ghost use Rattle.std.specs.Ordering.{nat_cmp, ordering_then, is_lt};
ghost use Rattle.std.specs.declared.cmp.Ordering.{Ordering as Order};
ghost use Rattle.sas_task.specs.Orders.{pair_cmp, group_cmp, effect_cmp, operator_cmp, rule_cmp};
ghost use Rattle.sas_task.specs.InOrder.{in_order, arranged};
ghost use Rattle.sas_task.specs.InOrder as orders;
ghost use Rattle.sas_task.specs.TotalOrders.{pair_total, group_total, effect_total, operator_total, rule_total};

use crate::parts::{Effect, Group, Operator, Pair, Rule};
use std::alloc::AllocError;
use std::cmp::Ordering;

/// A part of a task that has its place in an order.
pub trait Ranked: Drop {
    ghost cmp: { Self → Self → Order };

    fn order(&self, back: &Self) -> Ordering
        ensures { result ≡ cmp self.now back.now };

    ghost total: { IsTotalOrder cmp };
}

/// The order of lists, which are compared from left to right.
pub fn list_order<T: Ranked>(front: &[T], back: &[T]) -> Ordering
    ensures { result ≡ slice_cmp T.cmp front.now back.now }
{
    let both = front.len().min(back.len());
    for i in 0..both {
        let order = front[i].order(&back[i]);
        if order.is_ne() {
            return order;
        }
    }
    front.len().cmp(&back.len())
}

/// The items in their order, as often as they are there.
pub fn ordered<T: Ranked>(items: Vec<T>) -> Result<Vec<T>, AllocError>
    ensures { IfOk result (λ new. new.items ≡ in_order T.cmp items.items) }
{
    let mut items = items;
    items.sort_by(|front, back| front.order(back))?;
    Ok(items)
}

/// Of items in order, each once.
pub fn each_once<T: Ranked>(items: Vec<T>) -> Vec<T>
    ensures { result.items ≡ orders.each_once T.cmp items.items }
{
    let mut items = items;
    items.dedup_by(|back, front| back.order(front).is_eq());
    items
}

/// Whether each item is before the next.
fn rise<T: Ranked>(items: &[T]) -> bool
    ensures { IsAllAdjacentAnswer (λ front back is_before. is_before ≡ is_lt (T.cmp front back)) items.now result }
{
    items.is_sorted_by(|front, back| front.order(back).is_lt())
}

/// The items in their order, each once or as often as they are there. Where they rise, as mostly, they are left alone.
pub fn arrange<T: Ranked>(once: bool, items: Vec<T>) -> Result<Vec<T>, AllocError>
    ensures { IfOk result (λ new. new.items ≡ arranged once T.cmp items.items) }
{
    if rise(items.as_slice()) {
        return Ok(items);
    }
    let items = ordered(items)?;
    if once {
        Ok(each_once(items))
    } else {
        Ok(items)
    }
}

impl Ranked for Pair {
    ghost cmp = { pair_cmp };

    ghost total = { pair_total };

    fn order(&self, back: &Pair) -> Ordering {
        self.var.cmp(&back.var).then(self.val.cmp(&back.val))
    }
}

impl Ranked for Group {
    ghost cmp = { group_cmp };

    ghost total = { group_total };

    fn order(&self, back: &Group) -> Ordering {
        list_order(self.facts.as_slice(), back.facts.as_slice())
    }
}

impl Ranked for Effect {
    ghost cmp = { effect_cmp };

    ghost total = { effect_total };

    fn order(&self, back: &Effect) -> Ordering {
        self.var.cmp(&back.var).then_with(|| {
            list_order(self.conditions.as_slice(), back.conditions.as_slice()).then(
                self.after.cmp(&back.after),
            )
        })
    }
}

/// The order of operators of one name.
fn beside_names(front: &Operator, back: &Operator) -> Ordering
    ensures { result ≡ ordering_then (slice_cmp pair_cmp front.now.conditions back.now.conditions)
        (ordering_then (slice_cmp effect_cmp front.now.effects back.now.effects) (nat_cmp front.now.cost back.now.cost)) }
{
    let conditions = list_order(front.conditions.as_slice(), back.conditions.as_slice());
    conditions.then_with(|| {
        list_order(front.effects.as_slice(), back.effects.as_slice()).then(
            front.cost.cmp(&back.cost),
        )
    })
}

impl Ranked for Operator {
    ghost cmp = { operator_cmp };

    ghost total = { operator_total };

    fn order(&self, back: &Operator) -> Ordering {
        let names = self.name.as_slice().cmp(&back.name.as_slice());
        names.then_with(|| beside_names(self, back))
    }
}

impl Ranked for Rule {
    ghost cmp = { rule_cmp };

    ghost total = { rule_total };

    fn order(&self, back: &Rule) -> Ordering {
        self.var.cmp(&back.var).then_with(|| list_order(
            self.conditions.as_slice(),
            back.conditions.as_slice(),
        ))
    }
}
