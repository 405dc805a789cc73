// The arcs of a graph whose nodes are numbers, by the nodes from which they lead.
ghost use Rattle.std.specs.Prelude.{◌≡◌, ◌≢◌, ◌++◌, [], ℕ, IfOk, IfNone};
ghost use Rattle.std.specs.Option.{option_to_list};
ghost use Rattle.lists.specs.Rows.{row_of};
ghost use Rattle.names.specs.Arcs.{by_source};

use lists::Rows;
use std::alloc::{AllocError, Global};
use std::marker::Model;

/// An arc of a graph, from a number to a number.
#[derive(Clone, Copy)]
pub struct Arc {
    pub from: usize,
    pub to: usize,
}

/// The positions of a graph's arcs in rows, one for each number, of those that lead from it and weren't taken.
#[derive(Drop)]
pub struct ArcsBySource {
    rows: Rows<usize>,
}

impl Model for ArcsBySource {
    ghost use Rattle.std.specs.Prelude.{ℕ, List};

    ghost Value = { List (List ℕ) };

    ghost view = { λ arcs. arcs.rows };
}

impl ArcsBySource {
    /// All arcs that lead from numbers below `count`, found in one pass.
    pub fn new(alloc: Global, count: usize, arcs: &[Arc]) -> Result<ArcsBySource, AllocError>
        ensures { IfOk result (λ rows. rows ≡ by_source count arcs.now) }
    {
        let mut rows = Rows::new(alloc, count as u64)?;
        for (position, arc) in arcs.iter().enumerate() {
            rows.push(arc.from as u64, position)?;
        }
        Ok(ArcsBySource { rows })
    }

    /// Takes the last arc from the number that wasn't taken, and answers its position.
    pub fn take(&mut self, number: usize) -> Option<usize>
        ensures taken { row_of self.old number ≡ row_of self.new number ++ option_to_list result }
        ensures none { IfNone result (row_of self.old number ≡ []) }
        ensures others { (other : ℕ) → other ≢ number → row_of self.new other ≡ row_of self.old other }
    {
        self.rows.pop(number as u64)
    }
}
