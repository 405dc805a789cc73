// Links between names.
ghost use Rattle.std.specs.Prelude.{◌≡◌, ◌++◌, ◌∷◌, [], OnOk, OnErr, IfOk};
ghost use Rattle.std.specs.List.{list_any};
ghost use Rattle.names.specs.Names.{Name, is_same};
ghost use Rattle.names.specs.Links.{link, is_on_cycle};

use crate::cycles::on_cycles;
use crate::table::Names;
use std::alloc::{AllocError, Global};
use std::marker::Model;

/// A link from a name to a name.
#[derive(Clone, Copy)]
pub(crate) struct Ends<'a> {
    pub(crate) from: &'a [u8],
    pub(crate) to: &'a [u8],
}

/// Links between names that stand in the files. Contracts see them in the order in which they were added.
#[derive(Drop)]
pub struct Links<'a> {
    pairs: Vec<Ends<'a>>,
}

impl<'a> Model for Links<'a> {
    ghost use Rattle.std.specs.Prelude.{List, map};
    ghost use Rattle.names.specs.Links.{Link, link};

    ghost Value = { List Link };

    ghost view = { λ links. map (λ pair. link pair.from.now pair.to.now) links.pairs.items };
}

impl<'a> Links<'a> {
    /// No links.
    pub fn new(alloc: Global) -> Links<'a>
        ensures { result ≡ [] }
    {
        Links {
            pairs: Vec::new(alloc),
        }
    }

    /// Adds a link at the end.
    pub fn add(&mut self, from: &'a [u8], to: &'a [u8]) -> Result<(), AllocError>
        ensures added { OnOk result (self.new ≡ self.old ++ link from.now to.now ∷ []) }
        ensures unchanged { OnErr result (self.new ≡ self.old) }
    {
        self.pairs.push(Ends { from, to })?;
        Ok(())
    }

    /// The names on a cycle. The time is linear in the number of links, but for the look-ups of names.
    pub fn cycles(&self, alloc: Global) -> Result<Names<'a>, AllocError>
        ensures { IfOk result (λ cycles. (name : Name) → list_any (is_same name) cycles ≡ is_on_cycle self.now name) }
    {
        on_cycles(alloc, self.pairs.as_slice())
    }
}
