// Which pairs of facts are found to be possible.

ghost use Rattle.std.specs.Prelude.{◌≡◌, true, false, [], replicate, slice_set, slice_index_or, IfOk, OnOk};
ghost use Rattle.std.specs.List.{list_all, list_any};
ghost use Rattle.pass_possible.specs.Possible as possible;
ghost use Rattle.pass_h2.specs.Facts as facts_words;
ghost use Rattle.pass_h2.specs.Finds as words;
ghost use Rattle.pass_h2.specs.MarkLists as lists;

use crate::facts::list_facts;
use crate::marks::Marks;
use sas_task::{Operator, Pair, SasTask};
use std::alloc::{AllocError, Global};
use std::marker::Model;

/// A mark for each pair of facts, a bit in the row of each of the two, and for each fact whether it is marked with itself
/// and whether a pair with it was marked since the marks were settled. The rows take their memory before the first mark is
/// set.
pub(crate) struct Table {
    facts: Vec<Pair>,
    /// For each variable how many facts come before its own.
    starts: Vec<u64>,
    rows: Vec<Marks>,
    alone: Marks,
    touched: Marks,
}

impl Drop for Table {
    fn drop(self) {
        let Table {
            facts: _,
            starts: _,
            rows: _,
            alone: _,
            touched: _,
        } = self;
    }
}

impl Model for Table {
    ghost use Rattle.pass_h2.specs.Finds.{Finds};

    ghost Value = { Finds };

    ghost view = { λ t. record { facts = t.facts.items; starts = t.starts.items; rows = t.rows.items; alone = t.alone; touched = t.touched } };
}

/// So many rows with so many places, none marked.
fn open_rows(alloc: Global, count: usize) -> Result<Vec<Marks>, AllocError>
    ensures { IfOk result (λ rows. rows.items ≡ words.open_rows count) }
{
    let mut rows = Vec::with_capacity(alloc, count)?;
    for _ in 0..count {
        let row = Marks::new(alloc, count)?;
        rows.push(row)?;
    }
    Ok(rows)
}

/// Whether the fact stands at this place.
fn is_at(facts: &[Pair], place: u64, fact: &Pair) -> bool
    ensures { result ≡ facts_words.is_at facts.now place fact.now }
{
    match facts.get(place as usize) {
        Some(there) => there.var == fact.var && there.val == fact.val,
        None => false,
    }
}

/// The fact's number, or how many facts there are.
fn number(facts: &[Pair], starts: &[u64], fact: &Pair) -> u64
    ensures { result ≡ facts_words.number facts.now starts.now fact.now }
{
    let start = starts.get(fact.var as usize).copied().unwrap_or(0);
    match start.checked_add(fact.val) {
        Some(place) if is_at(facts, place, fact) => place,
        _ => facts.len() as u64,
    }
}

impl Table {
    /// No mark.
    pub fn new(alloc: Global, task: &SasTask) -> Result<Table, AllocError>
        ensures { IfOk result (λ table. table ≡ words.nothing task.now) }
    {
        let mut facts = Vec::new(alloc);
        let mut starts = Vec::new(alloc);
        list_facts(&mut facts, &mut starts, task)?;
        let rows = open_rows(alloc, facts.len())?;
        let alone = Marks::new(alloc, facts.len())?;
        let touched = Marks::new(alloc, facts.len())?;
        Ok(Table {
            facts,
            starts,
            rows,
            alone,
            touched,
        })
    }

    /// The facts, by their numbers.
    pub fn facts(&self) -> &[Pair]
        ensures { result.now ≡ self.now.facts }
    {
        self.facts.as_slice()
    }

    /// The number of the fact, counted from 0 in the order of variables and their values.
    pub fn number(&self, fact: &Pair) -> u64
        ensures { result ≡ words.number_in self.now fact.now }
    {
        number(self.facts.as_slice(), self.starts.as_slice(), fact)
    }

    /// Whether the pair of facts with these numbers is marked, or this where one of them is no fact's number.
    pub fn marked_or(&self, other: bool, i: u64, j: u64) -> bool
        ensures { result ≡ words.marked_or other self.now i j }
    {
        match self.rows.as_slice().get(i as usize) {
            Some(row) => row.get_or(j, other),
            None => other,
        }
    }

    /// Whether the pair is marked.
    pub fn has(&self, front: &Pair, back: &Pair) -> bool
        ensures { result ≡ words.found self.now front.now back.now }
    {
        self.marked_or(false, self.number(front), self.number(back))
    }

    /// Sets the mark at this place of the row, if there is one.
    fn set_mark(&mut self, row: u64, place: u64)
        ensures rows { self.new.rows ≡ words.with_place self.old.rows row place }
        ensures facts { self.new.facts ≡ self.old.facts }
        ensures starts { self.new.starts ≡ self.old.starts }
        ensures alone { self.new.alone ≡ self.old.alone }
        ensures touched { self.new.touched ≡ self.old.touched }
    {
        if (row as usize) < self.rows.len() {
            self.rows[row as usize].set(place);
        }
    }

    /// Marks the pair of these numbers.
    pub fn set(&mut self, i: u64, j: u64)
        ensures { self.new ≡ words.with_mark self.old i j }
    {
        self.set_mark(i, j);
        self.set_mark(j, i);
        if i == j {
            self.alone.set(i);
        }
        self.touched.set(i);
        self.touched.set(j);
    }

    /// Marks of the facts that are marked with themselves.
    pub fn alone(&self, alloc: Global) -> Result<Marks, AllocError>
        ensures { IfOk result (λ marks. marks ≡ self.now.alone) }
    {
        self.alone.copy(alloc)
    }

    /// Of these marks of facts, those of facts that are marked with the one of this number.
    pub fn marked_with(
        &self,
        alloc: Global,
        marks: &Marks,
        number: u64,
    ) -> Result<Marks, AllocError>
        ensures { IfOk result (λ common. common ≡ lists.common marks.now (words.row self.now number)) }
    {
        match self.rows.as_slice().get(number as usize) {
            Some(row) => marks.common(alloc, row),
            None => Marks::new(alloc, 0),
        }
    }

    /// The numbers of the facts with these marks that aren't marked yet with the fact of this number.
    pub fn unmarked_with(
        &self,
        alloc: Global,
        marks: &Marks,
        number: u64,
    ) -> Result<Vec<u64>, AllocError>
        ensures { IfOk result (λ places. places.items ≡ lists.places (lists.without marks.now (words.row self.now number))) }
    {
        match self.rows.as_slice().get(number as usize) {
            Some(row) => {
                let marks = marks.without(alloc, row)?;
                marks.places(alloc)
            }
            None => Ok(Vec::new(alloc)),
        }
    }

    /// No pair counts as marked of late.
    pub fn settle(&mut self, alloc: Global) -> Result<(), AllocError>
        ensures { OnOk result (self.new ≡ words.settled self.old) }
    {
        self.touched = Marks::new(alloc, self.facts.len())?;
        Ok(())
    }

    fn is_touched(&self, fact: &Pair) -> bool
        ensures { result ≡ words.is_touched self.now fact.now }
    {
        self.touched.get_or(self.number(fact), false)
    }

    /// Whether one of the facts is in a pair that was marked since the marks were settled.
    fn some_touched(&self, facts: &[Pair]) -> bool
        ensures { result ≡ list_any (words.is_touched self.now) facts.now }
    {
        facts.iter().any(|fact| self.is_touched(fact))
    }

    /// Whether a pair that the operator needs may have been marked since the marks were settled: one with a condition or,
    /// where there is none, any.
    pub fn wakes(&self, operator: &Operator) -> bool
        ensures { result ≡ words.is_woken self.now operator.now }
    {
        let conditions = operator.conditions.as_slice();
        if conditions.is_empty() {
            self.touched.has_some()
        } else {
            self.some_touched(conditions)
        }
    }
}

/// The numbers of these facts.
pub(crate) fn numbers(alloc: Global, table: &Table, facts: &[Pair]) -> Result<Vec<u64>, AllocError>
    ensures { IfOk result (λ numbers. numbers.items ≡ words.numbers table.now facts.now) }
{
    facts.iter().map(|fact| table.number(fact)).collect(alloc)
}

/// Whether the fact with this number is marked with each of these facts.
fn goes_with_facts(table: &Table, number: u64, facts: &[Pair]) -> bool
    ensures { result ≡ list_all (λ p. words.marked_or false table.now number (words.number_in table.now p)) facts.now }
{
    facts
        .iter()
        .all(|fact| table.marked_or(false, number, table.number(fact)))
}

/// Whether all pairs of the facts are marked.
pub(crate) fn all_marked(table: &Table, facts: &[Pair]) -> bool
    ensures { result ≡ possible.all_pairs (words.found table.now) facts.now }
{
    facts
        .iter()
        .all(|fact| goes_with_facts(table, table.number(fact), facts))
}

/// Whether a pair that the operator at this place needs may have been found of late; not where no operator stands there.
pub(crate) fn wakes_at(table: &Table, operators: &[Operator], place: u64) -> bool
    ensures { result ≡ words.is_woken_at operators.now table.now place }
{
    match operators.get(place as usize) {
        Some(operator) => table.wakes(operator),
        None => false,
    }
}
