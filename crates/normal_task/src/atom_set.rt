// Sets of ground atoms.
ghost use Rattle.std.specs.Prelude.{◌≡◌, ◌++◌, ◌∷◌, [], if◌then◌else◌, IfOk, OnOk};
ghost use Rattle.std.specs.List.{list_any};
ghost use Rattle.normal_task.specs.Meaning.{is_same_atom};

use crate::task::GroundAtom;
use indexmap::IndexSet;
use std::alloc::{AllocError, Global};
use std::marker::Model;

/// A set of ground atoms. Contracts see the atoms, each once, in the order in which they were added.
pub struct AtomSet {
    table: IndexSet<GroundAtom>,
}

impl Drop for AtomSet {
    fn drop(self) {
        let AtomSet { table: _ } = self;
    }
}

impl Model for AtomSet {
    ghost use Rattle.std.specs.Prelude.{List as Items};
    ghost use Rattle.std.specs.Coded.{coded_list};
    ghost use Rattle.normal_task.specs.contracts.task.GroundAtom as row;
    ghost use Rattle.normal_task.specs.declared.task.GroundAtom.{GroundAtom};

    ghost Value = { Items GroundAtom };

    ghost coded = { coded_list row.the_row.coded };

    ghost view = { λ atoms. atoms.table.keys };
}

impl AtomSet {
    /// No atoms yet, with room for so many.
    pub fn with_capacity(alloc: Global, count: usize) -> Result<AtomSet, AllocError>
        ensures { IfOk result (λ atoms. atoms ≡ []) }
    {
        Ok(AtomSet {
            table: IndexSet::with_capacity(alloc, count)?,
        })
    }

    /// Adds the atom at the end, unless it is there.
    pub fn insert(&mut self, atom: GroundAtom) -> Result<(), AllocError>
        ensures { OnOk result (self.new ≡ (if list_any (is_same_atom atom) self.old then self.old else self.old ++ atom ∷ [])) }
    {
        self.table.insert(atom)?;
        Ok(())
    }

    /// The atoms, in their order.
    pub fn as_slice(&self) -> &[GroundAtom]
        ensures { result.now ≡ self.now }
    {
        self.table.as_slice()
    }
}
