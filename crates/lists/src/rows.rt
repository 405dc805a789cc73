// Lists by number, which grow and shrink at their ends.

ghost use Rattle.std.specs.Prelude.{◌≡◌, ◌≢◌, ◌==◌, ◌++◌, [], ◌∷◌, ℕ, replicate, IfOk, IfNone, OnOk, if◌then◌else◌};
ghost use Rattle.std.specs.Option.{option_to_list};
ghost use Rattle.lists.specs.Rows.{row_of, Adds};

use std::alloc::{AllocError, Global};
use std::marker::Model;

/// A list of items for each number below a count.
#[derive(Drop)]
pub struct Rows<T> {
    rows: Vec<Vec<T>>,
}

impl<T> Model for Rows<T> {
    ghost use Rattle.std.specs.Prelude.{List, map};
    ghost use Rattle.std.specs.Coded.{coded_list};

    ghost Value = { List (List T) };

    ghost coded = { coded_list (coded_list T.code) };

    ghost view = { λ rows. map (λ row. row.items) rows.rows.items };
}

impl<T: Drop> Rows<T> {
    /// Empty lists for the numbers below the count.
    pub fn new(alloc: Global, count: u64) -> Result<Rows<T>, AllocError>
        ensures { IfOk result (λ rows. rows ≡ replicate count []) }
    {
        let mut rows = Vec::new(alloc);
        for _ in 0..count {
            rows.push(Vec::new(alloc))?;
        }
        Ok(Rows { rows })
    }

    /// Adds the item to the number's list, if there is one.
    pub fn push(&mut self, number: u64, item: T) -> Result<(), AllocError>
        ensures { OnOk result (Adds (λ other. if number == other then item ∷ [] else []) self.old self.new) }
    {
        let place = number as usize;
        if place < self.rows.len() {
            self.rows[place].push(item)?;
        }
        Ok(())
    }

    /// Takes the last item from the number's list, if there is one.
    pub fn pop(&mut self, number: u64) -> Option<T>
        ensures taken { row_of self.old number ≡ row_of self.new number ++ option_to_list result }
        ensures none { IfNone result (row_of self.old number ≡ []) }
        ensures others { (other : ℕ) → other ≢ number → row_of self.new other ≡ row_of self.old other }
    {
        let place = number as usize;
        if place < self.rows.len() {
            self.rows[place].pop()
        } else {
            None
        }
    }

    /// The number's list.
    pub fn row(&self, number: u64) -> &[T]
        ensures { result.now ≡ row_of self.now number }
    {
        match self.rows.as_slice().get(number as usize) {
            Some(row) => row.as_slice(),
            None => &[],
        }
    }
}
