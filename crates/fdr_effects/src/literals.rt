// Literals with the places of their facts by variable, which tell what they rule out.

ghost use Rattle.std.specs.Prelude.{◌≡◌, ◌==◌, ◌&&◌, ◌||◌, true, false, not, IfOk};
ghost use Rattle.std.specs.List.{list_any, list_all};
ghost use Rattle.fdr_effects.specs.Standing as words;

use crate::index::Index;
use crate::on::on;
use crate::splits::by_variable;
use ground_task::Cond;
use reached_task::FactNumber;
use sas_task::{Pair, Value};
use std::alloc::{AllocError, Global};
use std::marker::Model;

/// A fact that is to be true, or one that is to be false.
#[derive(Clone, Copy)]
pub(crate) struct Literal {
    pub(crate) fact: FactNumber,
    pub(crate) truth: bool,
}

/// Literals over the sets of an index, found fast by the places of their facts. Contracts see the sets and the literals.
#[derive(Drop)]
pub(crate) struct Marked<'a> {
    index: &'a Index<'a>,
    literals: &'a Cond<FactNumber>,
    /// All places of the facts that are to be true, by variable.
    wanted: Vec<Pair>,
    /// The first place of each fact that is to be false, by variable.
    barred: Vec<Pair>,
}

impl<'a> Model for Marked<'a> {
    ghost use Rattle.fdr_effects.specs.Standing.{Over, AreMarks};

    ghost Value = { Over };

    ghost view = { λ marked. record { cover = marked.index.now; literals = marked.literals.now } };

    ghost invariant = { λ marked. AreMarks record { cover = marked.index.now; literals = marked.literals.now } marked.wanted.items marked.barred.items };
}

fn some_at(marks: &[Pair], val: Value) -> bool
    ensures { result ≡ list_any (λ p. p.val == val) marks.now }
{
    marks.iter().any(|place| place.val == val)
}

fn some_beside(marks: &[Pair], val: Value) -> bool
    ensures { result ≡ list_any (λ p. not (p.val == val)) marks.now }
{
    marks.iter().any(|place| place.val != val)
}

impl<'a> Marked<'a> {
    /// These literals over the sets of the index.
    pub(crate) fn of(
        alloc: Global,
        index: &'a Index<'a>,
        literals: &'a Cond<FactNumber>,
    ) -> Result<Marked<'a>, AllocError>
        ensures { IfOk result (λ marked. marked ≡ record { cover = index.now; literals = literals.now }) }
    {
        let wanted = by_variable(index.all_places(alloc, literals.positive.as_slice())?);
        let barred = by_variable(index.first_places(alloc, literals.negative.as_slice())?);
        Ok(Marked {
            index,
            literals,
            wanted,
            barred,
        })
    }

    /// The index.
    pub(crate) fn index(&self) -> &Index
        ensures { result.now ≡ self.now.cover }
    {
        self.index
    }

    /// Whether a fact that is to be true has this place.
    fn asks(&self, place: &Pair) -> bool
        ensures { result ≡ words.asks self.now place.now }
    {
        some_at(on(self.wanted.as_slice(), place.var), place.val)
    }

    /// Whether a fact that is to be true has another value of the variable.
    fn asks_beside(&self, place: &Pair) -> bool
        ensures { result ≡ words.asks_beside self.now place.now }
    {
        some_beside(on(self.wanted.as_slice(), place.var), place.val)
    }

    /// Whether a fact that is to be false has this first place.
    fn bars(&self, place: &Pair) -> bool
        ensures { result ≡ words.bars self.now place.now }
    {
        some_at(on(self.barred.as_slice(), place.var), place.val)
    }

    /// Whether the variable of the place can't have its value.
    fn leaves_out(&self, place: &Pair) -> bool
        ensures { result ≡ words.leaves_out self.now place.now }
    {
        self.asks_beside(place) || self.bars(place)
    }

    fn leaves_out_one(&self, places: &[Pair]) -> bool
        ensures { result ≡ list_any (words.leaves_out self.now) places.now }
    {
        places.iter().any(|place| self.leaves_out(place))
    }

    /// Whether no values meet these literals and this one.
    pub(crate) fn rules_out(&self, one: Literal) -> bool
        ensures { result ≡ words.rules_out self.now one }
    {
        if one.truth {
            return self.leaves_out_one(self.index().places(one.fact));
        }
        match self.index().first_place(one.fact) {
            Some(place) => self.asks(&place),
            None => false,
        }
    }

    fn rules_out_each(&self, facts: &[FactNumber], truth: bool) -> bool
        ensures { result ≡ list_all (λ fact. words.rules_out self.now record { fact = fact; truth = truth }) facts.now }
    {
        facts
            .iter()
            .all(|fact| self.rules_out(Literal { fact: *fact, truth }))
    }

    fn rules_out_one(&self, facts: &[FactNumber], truth: bool) -> bool
        ensures { result ≡ list_any (λ fact. words.rules_out self.now record { fact = fact; truth = truth }) facts.now }
    {
        facts
            .iter()
            .any(|fact| self.rules_out(Literal { fact: *fact, truth }))
    }

    /// Whether these literals show that the other ones hold: the negation of each is ruled out.
    pub(crate) fn shows(&self, others: &Cond<FactNumber>) -> bool
        ensures { result ≡ words.shows self.now others.now }
    {
        self.rules_out_each(others.positive.as_slice(), false)
            && self.rules_out_each(others.negative.as_slice(), true)
    }

    /// Whether they rule out a fact that is to be true. Then no values meet them.
    pub(crate) fn is_contradicted(&self) -> bool
        ensures { result ≡ words.is_contradicted self.now }
    {
        self.rules_out_one(self.literals.positive.as_slice(), true)
    }
}

/// Whether values may meet the literals: none do where it answers that they can't.
pub(crate) fn can_stand(
    alloc: Global,
    index: &Index,
    literals: &Cond<FactNumber>,
) -> Result<bool, AllocError>
    ensures { IfOk result (λ can. can ≡ false → words.can_stand index.now literals.now ≡ false) }
{
    if literals.positive.as_slice().is_empty() {
        return Ok(true);
    }
    let marked = Marked::of(alloc, index, literals)?;
    Ok(!marked.is_contradicted())
}
