// Sets of names.
ghost use Rattle.std.specs.Prelude.{◌≡◌, ◌||◌, ◌++◌, ◌∷◌, [], not, length, take, nat_lt, OnOk, OnErr, IfOk, if◌then◌else◌};
ghost use Rattle.std.specs.List.{list_any, position_or_len};
ghost use Rattle.names.specs.Names.{Name, is_same};

use indexmap::IndexSet;
use std::alloc::{AllocFailed, Global};
use std::marker::Model;

/// A set of names. A look-up goes through a table. Contracts see its names, each once, in the order in which they were added.
pub struct Names<'a> {
    table: IndexSet<&'a [u8]>,
}

impl Drop for Names<'_> {
    fn drop(self) {
        let Names { table: _ } = self;
    }
}

impl<'a> Model for Names<'a> {
    ghost use Rattle.std.specs.Prelude.{ℕ, List, map};
    ghost use Rattle.std.specs.Coded.{coded_ℕ, coded_list};

    ghost Value = { List (List ℕ) };

    ghost coded = { coded_list (coded_list coded_ℕ) };

    ghost view = { λ names. map (λ key. key.now) names.table.keys };
}

impl<'a> Names<'a> {
    /// The empty set.
    pub fn new(alloc: Global) -> Names<'a>
        ensures { result ≡ [] }
    {
        Names {
            table: IndexSet::new(alloc),
        }
    }

    /// Adds a name at the end, and answers whether it is a new one. A name that is there stays where it is.
    pub fn add(&mut self, name: &'a [u8]) -> Result<bool, AllocFailed<&'a [u8]>>
        ensures is_new { IfOk result (λ is_new. is_new ≡ not (list_any (is_same name.now) self.old)) }
        ensures names { OnOk result (self.new ≡ (if list_any (is_same name.now) self.old then self.old else self.old ++ name.now ∷ [])) }
        ensures added { OnOk result ((other : Name) → list_any (is_same other) self.new ≡ (is_same other name.now || list_any (is_same other) self.old)) }
        ensures unchanged { OnErr result (self.new ≡ self.old) }
    {
        self.table.insert(name)
    }

    /// Takes out all names but the first ones, so many of them.
    pub fn truncate(&mut self, len: usize)
        ensures { self.new ≡ take len self.old }
    {
        self.table.truncate(len);
    }

    /// Whether the name is in the set.
    pub fn has(&self, name: &[u8]) -> bool
        ensures { result ≡ list_any (is_same name.now) self.now }
    {
        self.table.contains(name)
    }

    /// How many names there are.
    pub fn len(&self) -> usize
        ensures { result ≡ length self.now }
    {
        self.table.len()
    }

    /// The position of the name, counted from 0, or that of the end where the name isn't in the set.
    pub fn position(&self, name: &[u8]) -> usize
        ensures place { result ≡ position_or_len (is_same name.now) self.now }
        ensures found { list_any (is_same name.now) self.now ≡ nat_lt result (length self.now) }
    {
        match self.table.get_index_of(name) {
            Some(position) => position,
            None => self.table.len(),
        }
    }
}
