// Tables of instances.
ghost use Rattle.std.specs.Prelude.{◌≡◌, [], ℕ, List as Items, OnOk, if◌then◌else◌};
ghost use Rattle.names.specs.Names.{is_same};
ghost use Rattle.mutex_groups.specs.Found.{told_more, is_one, weight_in};

use indexmap::IndexMap;
use normal_task::Object;
use std::alloc::{AllocError, Global};
use std::marker::Model;

/// How many initial atoms an instance covers, if it covers one.
#[derive(Clone, Copy)]
enum Weight {
    One,
    Several,
}

/// The weights of instances. Contracts see the instances with their weights.
#[derive(Drop)]
pub(crate) struct Weights {
    table: IndexMap<Vec<u64>, Weight>,
}

impl Model for Weights {
    ghost use Rattle.std.specs.Prelude.{ℕ, List as Items, map};
    ghost use Rattle.mutex_groups.specs.declared.tables.Weight.{Weight as InstanceWeight};

    ghost Value = { Items (Items ℕ × InstanceWeight) };

    ghost view = { λ weights. map (λ entry. (entry.0.items, entry.1)) weights.table.entries };
}

impl Weights {
    pub(crate) fn new(alloc: Global) -> Weights
        ensures { result ≡ [] }
    {
        Weights {
            table: IndexMap::new(alloc),
        }
    }

    /// Counts one atom more that the instance covers.
    pub(crate) fn count(&mut self, instance: Vec<Object>) -> Result<(), AllocError>
        ensures { OnOk result ((other : Items ℕ) → weight_in self.new other ≡ (if is_same other instance.items then told_more (weight_in self.old other) else weight_in self.old other)) }
    {
        let weight = match self.weight(instance.as_slice()) {
            Some(_) => Weight::Several,
            None => Weight::One,
        };
        self.table.insert(instance, weight)?;
        Ok(())
    }

    /// Whether the instance covers exactly one atom.
    pub(crate) fn weighs_one(&self, instance: &[Object]) -> bool
        ensures { result ≡ is_one (weight_in self.now instance.now) }
    {
        matches!(self.weight(instance), Some(Weight::One))
    }

    /// The weight of the instance.
    fn weight(&self, instance: &[Object]) -> Option<Weight>
        ensures { result ≡ weight_in self.now instance.now }
    {
        self.table.get(instance).copied()
    }
}
