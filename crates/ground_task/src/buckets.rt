// Numbers in buckets.
ghost use Rattle.std.specs.Prelude.{◌≡◌, ◌++◌, ◌∷◌, [], ℕ, List as Items, OnOk, if◌then◌else◌};
ghost use Rattle.names.specs.Names.{is_same};
ghost use Rattle.ground_task.specs.Buckets.{numbers_in};

use indexmap::IndexMap;
use std::alloc::{AllocError, Global};
use std::marker::Model;

/// Numbers in buckets, which have keys. Contracts see the keys with their numbers.
#[derive(Drop)]
pub struct Buckets {
    table: IndexMap<Vec<u64>, Vec<u64>>,
}

impl Model for Buckets {
    ghost use Rattle.std.specs.Prelude.{ℕ, List as Items, map};

    ghost Value = { Items (Items ℕ × Items ℕ) };

    ghost view = { λ buckets. map (λ entry. (entry.0.items, entry.1.items)) buckets.table.entries };
}

impl Buckets {
    /// No buckets.
    pub fn new(alloc: Global) -> Buckets
        ensures { result ≡ [] }
    {
        Buckets {
            table: IndexMap::new(alloc),
        }
    }

    /// Adds the number to the bucket of the key.
    pub fn add(&mut self, alloc: Global, key: Vec<u64>, number: u64) -> Result<(), AllocError>
        ensures { OnOk result ((other : Items ℕ) → numbers_in self.new other ≡ (if is_same other key.items then numbers_in self.old other ++ number ∷ [] else numbers_in self.old other)) }
    {
        match self.table.get_mut(key.as_slice()) {
            Some(numbers) => numbers.push(number)?,
            None => {
                self.table.insert(key, vec![in alloc; number]?)?;
            }
        }
        Ok(())
    }

    /// The numbers in the bucket of the key.
    pub fn numbers(&self, key: &[u64]) -> &[u64]
        ensures { result.now ≡ numbers_in self.now key.now }
    {
        match self.table.get(key) {
            Some(numbers) => numbers.as_slice(),
            None => &[],
        }
    }
}
