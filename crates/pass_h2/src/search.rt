// The possible pairs: the least set with those of the written state that is closed under operators.

ghost use Rattle.std.specs.Prelude.{◌≡◌, fold, IfOk, OnOk};
ghost use Rattle.sas_task.specs.Valid.{IsValid};
ghost use Rattle.pass_possible.specs.Possible.{ArePossible};
ghost use Rattle.pass_possible.specs.Possible as possible;
ghost use Rattle.pass_h2.specs.Finds as pairs;
ghost use Rattle.pass_h2.specs.Search as words;

use crate::facts::{initial_facts, is_mixed};
use crate::marks::Marks;
use crate::table::{Table, all_marked, numbers, wakes_at};
use sas_restriction::numbers_below;
use sas_task::{Operator, SasTask, changes, facts_set};
use std::alloc::{AllocError, Global};

/// Marks the pair of the facts with these numbers, if it has a place and no mark.
fn add(table: &mut Table, i: u64, j: u64)
    ensures { table.new ≡ words.with_pair table.old i j }
{
    if !table.marked_or(true, i, j) {
        table.set(i, j);
    }
}

/// Marks the fact with each of the others.
fn add_each(table: &mut Table, fact: u64, others: &[u64])
    ensures { table.new ≡ words.with_each fact table.old others.now }
{
    for other in others {
        add(table, fact, *other);
    }
}

/// Marks each of the facts with each of the others.
fn add_all(table: &mut Table, facts: &[u64], others: &[u64])
    ensures { table.new ≡ words.with_all others.now table.old facts.now }
{
    for fact in facts {
        add_each(table, *fact, others);
    }
}

/// Whether the operator isn't mixed and all pairs of its conditions are marked.
pub(crate) fn is_possible(table: &Table, operator: &Operator) -> bool
    ensures { result ≡ possible.is_possible (pairs.found table.now) operator.now }
{
    !is_mixed(operator) && all_marked(table, operator.conditions.as_slice())
}

/// Whether the operator changes the variable of the fact with this number.
fn changes_fact(table: &Table, operator: &Operator, number: u64) -> bool
    ensures { result ≡ words.changes_fact table.now operator.now number }
{
    match table.facts().get(number as usize) {
        Some(fact) => changes(operator, fact.var),
        None => false,
    }
}

/// Marks of the facts that are marked with themselves and with each of these conditions.
fn marks_beside(alloc: Global, table: &Table, conditions: &[u64]) -> Result<Marks, AllocError>
    ensures { IfOk result (λ marks. marks ≡ words.beside table.now conditions.now) }
{
    let mut marks = table.alone(alloc)?;
    for condition in conditions {
        marks = table.marked_with(alloc, &marks, *condition)?;
    }
    Ok(marks)
}

/// Of the facts with these marks, those that the operator leaves as they are and that aren't marked yet with this fact.
fn new_beside(
    alloc: Global,
    table: &Table,
    operator: &Operator,
    marks: &Marks,
    fact: u64,
) -> Result<Vec<u64>, AllocError>
    ensures { IfOk result (λ facts. facts.items ≡ words.new_beside operator.now marks.now table.now fact) }
{
    let unmarked = table.unmarked_with(alloc, marks, fact)?;
    unmarked
        .as_slice()
        .iter()
        .copied()
        .filter(|number| !changes_fact(table, operator, *number))
        .collect(alloc)
}

/// Marks the fact with those of the facts with these marks that the operator leaves as they are.
fn add_beside(
    alloc: Global,
    table: &mut Table,
    operator: &Operator,
    marks: &Marks,
    fact: u64,
) -> Result<(), AllocError>
    ensures { OnOk result (table.new ≡ words.with_each fact table.old (words.new_beside operator.now marks.now table.old fact)) }
{
    let others = new_beside(alloc, table, operator, marks, fact)?;
    add_each(table, fact, others.as_slice());
    Ok(())
}

/// Adds the pairs with each of some facts.
fn add_all_beside(
    alloc: Global,
    table: &mut Table,
    operator: &Operator,
    marks: &Marks,
    facts: &[u64],
) -> Result<(), AllocError>
    ensures { OnOk result (table.new ≡ words.with_chosen (words.new_beside operator.now marks.now) table.old facts.now) }
{
    for fact in facts {
        add_beside(alloc, table, operator, marks, *fact)?;
    }
    Ok(())
}

/// The numbers of the facts that the operator's effects make true.
fn facts_made(alloc: Global, table: &Table, operator: &Operator) -> Result<Vec<u64>, AllocError>
    ensures { IfOk result (λ facts. facts.items ≡ words.made table.now operator.now) }
{
    let facts = facts_set(alloc, operator.effects.as_slice())?;
    numbers(alloc, table, facts.as_slice())
}

/// Marks the pairs that a possible operator leads to.
fn add_successors(alloc: Global, table: &mut Table, operator: &Operator) -> Result<(), AllocError>
    ensures { OnOk result (table.new ≡ words.led_to table.old operator.now) }
{
    let made = facts_made(alloc, table, operator)?;
    let conditions = numbers(alloc, table, operator.conditions.as_slice())?;
    let marks = marks_beside(alloc, table, conditions.as_slice())?;
    add_all(table, made.as_slice(), made.as_slice());
    add_all_beside(alloc, table, operator, &marks, made.as_slice())
}

/// Marks the pairs that the operator leads to, if it is possible.
fn look(alloc: Global, table: &mut Table, operator: &Operator) -> Result<(), AllocError>
    ensures { OnOk result (table.new ≡ words.looked table.old operator.now) }
{
    if is_possible(table, operator) {
        add_successors(alloc, table, operator)?;
    }
    Ok(())
}

fn look_at(
    alloc: Global,
    table: &mut Table,
    operators: &[Operator],
    place: u64,
) -> Result<(), AllocError>
    ensures { OnOk result (table.new ≡ words.looked_at operators.now table.old place) }
{
    match operators.get(place as usize) {
        Some(operator) => look(alloc, table, operator),
        None => Ok(()),
    }
}

/// Looks at the operators at these places, one after the other.
fn look_at_all(
    alloc: Global,
    table: &mut Table,
    operators: &[Operator],
    queue: &[u64],
) -> Result<(), AllocError>
    ensures { OnOk result (table.new ≡ fold (words.looked_at operators.now) table.old queue.now) }
{
    for place in queue {
        look_at(alloc, table, operators, *place)?;
    }
    Ok(())
}

/// The places of the operators that need a pair which was marked since the marks were settled.
fn woken(alloc: Global, table: &Table, operators: &[Operator]) -> Result<Vec<u64>, AllocError>
    ensures { IfOk result (λ queue. queue.items ≡ words.woken operators.now table.now) }
{
    let places = 0..operators.len() as u64;
    places
        .filter(|place| wakes_at(table, operators, *place))
        .collect(alloc)
}

/// Marks the pairs of facts of the written state, where no pair is marked.
fn mark_initial(alloc: Global, table: &mut Table, task: &SasTask) -> Result<(), AllocError>
    requires { table.now ≡ pairs.nothing task.now }
    ensures { OnOk result (table.new ≡ words.initial_pairs task.now) }
{
    let facts = initial_facts(alloc, task)?;
    let facts = numbers(alloc, table, facts.as_slice())?;
    add_all(table, facts.as_slice(), facts.as_slice());
    Ok(())
}

/// Looks at the operators of the queue, and answers those that are to be looked at next.
fn turn(
    alloc: Global,
    table: &mut Table,
    operators: &[Operator],
    queue: &[u64],
) -> Result<Vec<u64>, AllocError>
    ensures table { OnOk result (table.new ≡ words.turned operators.now table.old queue.now) }
    ensures next { IfOk result (λ next. next.items ≡ words.woken operators.now table.new) }
{
    table.settle(alloc)?;
    look_at_all(alloc, table, operators, queue)?;
    woken(alloc, table, operators)
}

/// Marks the possible pairs of facts, where no pair is marked. Beside the operators that are looked at first, an operator
/// is looked at again only where a pair that it needs was marked in the turn before.
pub(crate) fn mark_possible(
    alloc: Global,
    table: &mut Table,
    task: &SasTask,
) -> Result<(), AllocError>
    requires valid { IsValid task.now }
    requires open { table.now ≡ pairs.nothing task.now }
    ensures { OnOk result (ArePossible task.now (pairs.found table.new)) }
{
    mark_initial(alloc, table, task)?;
    let operators = task.operator_slice();
    let mut queue = numbers_below(alloc, operators.len() as u64)?;
    while !queue.is_empty() {
        queue = turn(alloc, table, operators, queue.as_slice())?;
    }
    Ok(())
}
