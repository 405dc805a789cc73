// The places of facts, found fast.

ghost use Rattle.std.specs.Prelude.{◌≡◌, ◌+◌, ◌<◌, length, All, IfOk, OnOk};
ghost use Rattle.std.specs.List.{flat_map, filter_map};
ghost use Rattle.std.specs.List.Sorted.{IsStrictlyIncreasing};
ghost use Rattle.lists.specs.Rows.{Adds};
ghost use Rattle.fdr_effects.specs.Places as cover;
ghost use Rattle.fdr_effects.specs.Marks as marks;

use lists::{List, Rows};
use reached_task::FactNumber;
use sas_task::{Pair, Value, Var};
use std::alloc::{AllocError, Global};
use std::marker::Model;

/// A cover with the places of each fact, seen as the cover.
#[derive(Drop)]
pub struct Index<'a> {
    sets: &'a [List<FactNumber>],
    of_fact: Rows<Pair>,
}

impl<'a> Model for Index<'a> {
    ghost use Rattle.std.specs.Prelude.{◌≡◌, ℕ};
    ghost use Rattle.lists.specs.Rows.{row_of};
    ghost use Rattle.fdr_effects.specs.Places.{Cover, places};

    ghost Value = { Cover };

    ghost view = { λ index. index.sets.now };

    ghost invariant = { λ index. (fact : ℕ) → row_of index.of_fact fact ≡ places index.sets.now fact };
}

/// Adds the places of a variable's facts.
fn push_set(rows: &mut Rows<Pair>, var: Var, set: &[FactNumber]) -> Result<(), AllocError>
    requires { IsStrictlyIncreasing set.now }
    ensures { OnOk result (Adds (marks.place_in var set.now) rows.old rows.new) }
{
    for val in 0..set.len() {
        let place = Pair {
            var,
            val: val as u64,
        };
        rows.push(set[val], place)?;
    }
    Ok(())
}

impl<'a> Index<'a> {
    /// The places of the facts with numbers below `facts` in these sets.
    pub fn new(
        alloc: Global,
        facts: u64,
        sets: &'a [List<FactNumber>],
    ) -> Result<Index<'a>, AllocError>
        requires facts { All (λ set. All (λ fact. fact < facts) set) sets.now }
        requires apart { All IsStrictlyIncreasing sets.now }
        ensures { IfOk result (λ index. index ≡ sets.now) }
    {
        let mut of_fact = Rows::new(alloc, facts)?;
        for var in 0..sets.len() {
            push_set(&mut of_fact, var as u64, sets[var].as_slice())?;
        }
        Ok(Index { sets, of_fact })
    }

    /// The sets.
    pub fn sets(&self) -> &[List<FactNumber>]
        ensures { result.now ≡ self.now }
    {
        self.sets
    }

    /// The places of a fact.
    pub fn places(&self, fact: FactNumber) -> &[Pair]
        ensures { result.now ≡ cover.places self.now fact }
    {
        self.of_fact.row(fact)
    }

    /// The first place of a fact.
    pub(crate) fn first_place(&self, fact: FactNumber) -> Option<Pair>
        ensures { result ≡ cover.first_place self.now fact }
    {
        self.places(fact).first().copied()
    }

    /// All places of the facts.
    pub(crate) fn all_places(
        &self,
        alloc: Global,
        facts: &[FactNumber],
    ) -> Result<Vec<Pair>, AllocError>
        ensures { IfOk result (λ all. all.items ≡ flat_map (cover.places self.now) facts.now) }
    {
        let mut all = Vec::with_capacity(alloc, facts.len())?;
        for fact in facts {
            all.extend_from_slice(self.places(*fact))?;
        }
        Ok(all)
    }

    /// The first place of each fact.
    pub(crate) fn first_places(
        &self,
        alloc: Global,
        facts: &[FactNumber],
    ) -> Result<Vec<Pair>, AllocError>
        ensures { IfOk result (λ all. all.items ≡ filter_map (cover.first_place self.now) facts.now) }
    {
        facts
            .iter()
            .filter_map(|fact| self.first_place(*fact))
            .collect(alloc)
    }

    /// The number of variables.
    pub fn variables(&self) -> u64
        ensures { result ≡ length self.now }
    {
        self.sets.len() as u64
    }

    /// The number of values of a variable.
    pub(crate) fn values(&self, var: Var) -> u64
        ensures { result ≡ cover.last_value self.now var + 1 }
    {
        match self.sets.get(var as usize) {
            Some(set) => set.as_slice().len() as u64 + 1,
            None => 1,
        }
    }

    /// The last value of a variable.
    pub fn last_value(&self, var: Var) -> Value
        ensures { result ≡ cover.last_value self.now var }
    {
        match self.sets.get(var as usize) {
            Some(set) => set.len() as u64,
            None => 0,
        }
    }
}
