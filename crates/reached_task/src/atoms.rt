// Sets of ground atoms.
ghost use Rattle.std.specs.Prelude.{◌≡◌, ◌<◌, [], length, map, slice_index_or, IfOk, OnOk, if◌then◌else◌};
ghost use Rattle.std.specs.List.Sorted.{IsPermutation, IsSorted};
ghost use Rattle.reached_task.specs.AtomKeys.{atom_of};
ghost use Rattle.reached_task.specs.Reachable.{is_among, number_of, fact_cmp};
ghost use Rattle.reached_task.specs.Rules.{added};

use crate::types::FactNumber;
use indexmap::IndexSet;
use normal_task::{GroundAtom, Object, Predicate};
use std::alloc::{AllocError, Global};
use std::marker::Model;

/// A set of atoms, each as its predicate and its objects. A look-up goes through a table. Contracts see the atoms, each once,
/// in the order in which they stand.
pub struct Atoms<'a> {
    table: IndexSet<(Predicate, &'a [Object])>,
}

impl Drop for Atoms<'_> {
    fn drop(self) {
        let Atoms { table: _ } = self;
    }
}

impl<'a> Model for Atoms<'a> {
    ghost use Rattle.std.specs.Prelude.{List, map};
    ghost use Rattle.normal_task.specs.declared.task.GroundAtom.{GroundAtom as Atom};
    ghost use Rattle.reached_task.specs.AtomKeys.{atom_of};

    ghost Value = { List Atom };

    ghost view = { λ atoms. map atom_of atoms.table.keys };
}

fn key<'a>(atom: &'a GroundAtom) -> (Predicate, &'a [Object])
    ensures { atom_of result ≡ atom.now }
{
    (atom.predicate, atom.objects.as_slice())
}

impl<'a> Atoms<'a> {
    /// The empty set.
    pub fn new(alloc: Global) -> Atoms<'a>
        ensures { result ≡ [] }
    {
        Atoms {
            table: IndexSet::new(alloc),
        }
    }

    /// How many atoms there are.
    pub fn len(&self) -> usize
        ensures { result ≡ length self.now }
    {
        self.table.len()
    }

    /// The atoms, each as its predicate and its objects.
    pub fn as_slice(&self) -> &[(Predicate, &'a [Object])]
        ensures { map atom_of result.now ≡ self.now }
    {
        self.table.as_slice()
    }

    /// Adds the atom at the end, unless it is there.
    pub fn add(&mut self, atom: &'a GroundAtom) -> Result<(), AllocError>
        ensures { OnOk result (self.new ≡ added self.old atom.now) }
    {
        self.table.insert(key(atom))?;
        Ok(())
    }

    /// Adds the atom at the end, unless it is there, and answers its position, counted from 0.
    pub fn place(&mut self, atom: &'a GroundAtom) -> Result<usize, AllocError>
        ensures added { OnOk result (self.new ≡ added self.old atom.now) }
        ensures place { IfOk result (λ place. place ≡ number_of self.old atom.now) }
    {
        let (place, _) = self.table.insert_full(key(atom))?;
        Ok(place)
    }

    /// The atom at the position.
    pub fn at(&self, place: usize) -> (Predicate, &'a [Object])
        requires { place < length self.now }
        ensures { atom_of result ≡ slice_index_or self.now place (atom_of result) }
    {
        self.table.as_slice()[place]
    }

    /// The atom's position, or how many atoms there are if it isn't in the set.
    pub fn position(&self, atom: (Predicate, &[Object])) -> usize
        ensures { result ≡ number_of self.now (atom_of atom.entry) }
    {
        match self.table.get_index_of(&atom) {
            Some(place) => place,
            None => self.table.len(),
        }
    }

    /// The atom's position, counted from 0, if it is in the set.
    pub fn number(&self, atom: &GroundAtom) -> Option<FactNumber>
        ensures { result ≡ (if is_among self.now atom.now then Some (number_of self.now atom.now) else None) }
    {
        match self.table.get_index_of(&key(atom)) {
            Some(place) => Some(place as u64),
            None => None,
        }
    }

    /// Puts the atoms into their order: by predicate, and then by objects.
    pub fn sort(&mut self) -> Result<(), AllocError>
        ensures same { OnOk result (IsPermutation self.old self.new) }
        ensures in_order { OnOk result (IsSorted fact_cmp self.new) }
    {
        self.table.sort()
    }
}
