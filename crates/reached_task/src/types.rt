// Reached tasks: planning tasks of literal lists over numbered facts.
ghost use Rattle.std.specs.Prelude.{◌≡◌};
ghost use Rattle.reached_task.specs.ReachedTask.{is_derived};

use ground_task::{Cond, GoalRow};
use lists::{List, Text};
use normal_task::GroundAtom;

/// A fact, by its position among the facts of a reached task.
pub type FactNumber = u64;

/// A reachable atom. It is shown as `p(a, b)`.
#[derive(Drop)]
pub struct Fact {
    pub atom: GroundAtom,
    pub shown: Text,
    pub derived: bool,
}

/// An effect that adds or deletes a fact where its own condition holds.
#[derive(Drop)]
pub struct ReachedEffect {
    pub condition: Cond<FactNumber>,
    pub adds: bool,
    pub fact: FactNumber,
}

/// An action with objects that can be reached.
#[derive(Drop)]
pub struct ReachedAction {
    pub name: Text,
    pub condition: Cond<FactNumber>,
    pub effects: List<ReachedEffect>,
    pub cost: u64,
}

/// An axiom with objects that can be reached: its fact is true where its condition holds.
#[derive(Drop)]
pub struct ReachedAxiom {
    pub fact: FactNumber,
    pub condition: Cond<FactNumber>,
}

/// A reached task. Each number but a cost is a position in `facts`.
pub struct Reached {
    pub facts: List<Fact>,
    pub init: List<FactNumber>,
    pub actions: List<ReachedAction>,
    pub axioms: List<ReachedAxiom>,
    pub goal: GoalRow<FactNumber>,
    pub metric: bool,
}

impl Drop for Reached {
    fn drop(self) {
        let Reached {
            facts: _,
            init: _,
            actions: _,
            axioms: _,
            goal: _,
            metric: _,
        } = self;
    }
}

impl Reached {
    /// Whether the fact is derived. A number that no fact has is none.
    pub fn is_derived(&self, fact: FactNumber) -> bool
        ensures { result ≡ is_derived self.now.facts fact }
    {
        match self.facts.as_slice().get(fact as usize) {
            Some(fact) => fact.derived,
            None => false,
        }
    }
}
