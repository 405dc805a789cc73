// Copies of a task's parts.

ghost use Rattle.std.specs.Prelude.{◌≡◌, IfOk};

use crate::parts::{Effect, Group, Operator, Pair, Rule, Variable};
use lists::{List, Text};
use std::alloc::{AllocError, Global};

/// A part of a task that can be copied.
pub(crate) trait Copied: Drop {
    fn copied(&self, alloc: Global) -> Result<Self, AllocError>
        ensures { IfOk result (λ copy. copy ≡ self.now) };
}

/// A list of the copies.
pub(crate) fn copied_list<T: Copied>(alloc: Global, items: &List<T>) -> Result<List<T>, AllocError>
    ensures { IfOk result (λ copy. copy ≡ items.now) }
{
    let mut copies = Vec::new(alloc);
    for item in items.as_slice() {
        copies.push(item.copied(alloc)?)?;
    }
    Ok(List::from_vec(copies))
}

impl Copied for u64 {
    fn copied(&self, _alloc: Global) -> Result<u64, AllocError> {
        Ok(*self)
    }
}

impl Copied for Text {
    fn copied(&self, alloc: Global) -> Result<Text, AllocError> {
        Text::from_slice(alloc, self.as_slice())
    }
}

impl Copied for Pair {
    fn copied(&self, _alloc: Global) -> Result<Pair, AllocError> {
        Ok(*self)
    }
}

impl Copied for Variable {
    fn copied(&self, alloc: Global) -> Result<Variable, AllocError> {
        Ok(Variable {
            layer: self.layer,
            facts: copied_list(alloc, &self.facts)?,
        })
    }
}

impl Copied for Group {
    fn copied(&self, alloc: Global) -> Result<Group, AllocError> {
        Ok(Group {
            facts: copied_list(alloc, &self.facts)?,
        })
    }
}

impl Copied for Effect {
    fn copied(&self, alloc: Global) -> Result<Effect, AllocError> {
        Ok(Effect {
            conditions: copied_list(alloc, &self.conditions)?,
            var: self.var,
            after: self.after,
        })
    }
}

impl Copied for Operator {
    fn copied(&self, alloc: Global) -> Result<Operator, AllocError> {
        Ok(Operator {
            name: self.name.copied(alloc)?,
            conditions: copied_list(alloc, &self.conditions)?,
            effects: copied_list(alloc, &self.effects)?,
            cost: self.cost,
        })
    }
}

impl Copied for Rule {
    fn copied(&self, alloc: Global) -> Result<Rule, AllocError> {
        Ok(Rule {
            conditions: copied_list(alloc, &self.conditions)?,
            var: self.var,
            before: self.before,
            after: self.after,
        })
    }
}
