ghost use Rattle.std.specs.Prelude.{◌≡◌, ◌<◌, ◌||◌, [], ℕ, List as Items, not, length, slice_index_or, IfOk, OnOk};
ghost use Rattle.std.specs.List.{IsDistinct};
ghost use Rattle.names.specs.Names.{is_same};
ghost use Rattle.number_lists.specs.Sets.{has_list, with_list};

use indexmap::IndexSet;
use lists::List;
use std::alloc::{AllocError, Global};
use std::marker::Model;

/// A set of lists of numbers. A look-up goes through a table. Contracts see the lists, each once, in the order in which
/// they were added.
pub struct NumberLists {
    table: IndexSet<Vec<u64>>,
}

impl Drop for NumberLists {
    fn drop(self) {
        let NumberLists { table: _ } = self;
    }
}

impl Model for NumberLists {
    ghost use Rattle.std.specs.Prelude.{ℕ, List as Items, map};
    ghost use Rattle.std.specs.Coded.{coded_ℕ, coded_list};

    ghost Value = { Items (Items ℕ) };

    ghost coded = { coded_list (coded_list coded_ℕ) };

    ghost view = { λ lists. map (λ list. list.items) lists.table.keys };
}

impl NumberLists {
    /// No lists yet.
    pub fn new(alloc: Global) -> NumberLists
        ensures { result ≡ [] }
    {
        NumberLists {
            table: IndexSet::new(alloc),
        }
    }

    /// How many lists there are.
    pub fn len(&self) -> usize
        ensures len { result ≡ length self.now }
        ensures once { IsDistinct is_same self.now }
    {
        self.table.len()
    }

    /// The list at the position.
    pub fn at(&self, place: usize) -> &[u64]
        requires { place < length self.now }
        ensures { result.now ≡ slice_index_or self.now place [] }
    {
        self.table.as_slice()[place].as_slice()
    }

    /// Whether the list is there.
    pub fn has(&self, list: &[u64]) -> bool
        ensures { result ≡ has_list self.now list.now }
    {
        self.table.contains(list)
    }

    /// Adds the list at the end, and answers whether it is a new one. A list that is there stays where it is.
    pub fn insert(&mut self, list: Vec<u64>) -> Result<bool, AllocError>
        ensures is_new { IfOk result (λ is_new. is_new ≡ not (has_list self.old list.items)) }
        ensures lists { OnOk result (self.new ≡ with_list self.old list.items) }
    {
        let is_new = self.table.insert(list)?;
        Ok(is_new)
    }

    /// Adds a copy of the list at the end, unless the list is there.
    pub fn add(&mut self, alloc: Global, list: &[u64]) -> Result<(), AllocError>
        ensures lists { OnOk result (self.new ≡ with_list self.old list.now) }
        ensures has { OnOk result ((other : Items ℕ) → has_list self.new other ≡ (is_same other list.now || has_list self.old other)) }
    {
        if !self.has(list) {
            self.insert(Vec::from_slice(alloc, list)?)?;
        }
        Ok(())
    }

    /// The lists, in their order.
    pub fn into_list(self, alloc: Global) -> Result<List<List<u64>>, AllocError>
        ensures lists { IfOk result (λ lists. lists ≡ self) }
        ensures once { IfOk result (IsDistinct is_same) }
    {
        let NumberLists { table } = self;
        let lists = table.into_iter().map(List::from_vec).collect(alloc)?;
        Ok(List::from_vec(lists))
    }
}
