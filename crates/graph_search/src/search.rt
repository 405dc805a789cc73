// The search for the numbers that arcs lead to.

ghost use Rattle.std.specs.Prelude.{◌≡◌, ℕ, ◌<◌, false, [], fold, replicate, slice_get, IfOk, OnOk};
ghost use Rattle.graph_search.specs.Reached.{AreReached};
ghost use Rattle.lists.specs.Rows.{row_of};
ghost use Rattle.graph_search.specs.Search.{with_number, leads_to};
ghost use Rattle.graph_search.specs.Search as words;

use lists::Rows;
use names::Arc;
use std::alloc::{AllocError, Global};
use std::marker::Model;

/// The numbers that are found, in the order in which they were found, with a mark for each number below a count.
struct Found {
    marks: Vec<bool>,
    numbers: Vec<u64>,
}

impl Drop for Found {
    fn drop(self) {
        let Found {
            marks: _,
            numbers: _,
        } = self;
    }
}

impl Model for Found {
    ghost use Rattle.graph_search.specs.Search.{Finds};

    ghost Value = { Finds };

    ghost view = { λ found. record { marks = found.marks.items; numbers = found.numbers.items } };
}

/// Whether the number has a mark, or no place.
fn is_marked(marks: &[bool], number: u64) -> bool
    ensures { result ≡ words.is_marked marks.now number }
{
    marks.get(number as usize).copied().unwrap_or(true)
}

/// The numbers that have a mark, in order.
fn marked(alloc: Global, marks: &[bool]) -> Result<Vec<u64>, AllocError>
    ensures { IfOk result (λ numbers. numbers.items ≡ words.marked marks.now) }
{
    let numbers = 0..marks.len() as u64;
    numbers
        .filter(|number| is_marked(marks, *number))
        .collect(alloc)
}

impl Found {
    /// No number below the count is found.
    fn new(alloc: Global, count: u64) -> Result<Found, AllocError>
        ensures { IfOk result (λ found. found ≡ record { marks = replicate count false; numbers = [] }) }
    {
        let marks = vec![in alloc; false; count as usize]?;
        let numbers = Vec::new(alloc);
        Ok(Found { marks, numbers })
    }

    /// Whether the number is found, or has no place.
    fn has(&self, number: u64) -> bool
        ensures { result ≡ words.has self.now number }
    {
        is_marked(self.marks.as_slice(), number)
    }

    fn add(&mut self, number: u64) -> Result<(), AllocError>
        ensures { OnOk result (self.new ≡ with_number self.old number) }
    {
        if !self.has(number) {
            self.marks[number as usize] = true;
            self.numbers.push(number)?;
        }
        Ok(())
    }

    fn add_all(&mut self, numbers: &[u64]) -> Result<(), AllocError>
        ensures { OnOk result (self.new ≡ fold with_number self.old numbers.now) }
    {
        for number in numbers {
            self.add(*number)?;
        }
        Ok(())
    }

    /// The starts below the count are found.
    fn starting(alloc: Global, count: u64, starts: &[u64]) -> Result<Found, AllocError>
        ensures { IfOk result (λ found. found ≡ fold with_number (record { marks = replicate count false; numbers = [] }) starts.now) }
    {
        let mut found = Found::new(alloc, count)?;
        found.add_all(starts)?;
        Ok(found)
    }

    /// The number that was found at this place, if there is one.
    fn get(&self, place: u64) -> Option<u64>
        ensures { result ≡ slice_get self.now.numbers place }
    {
        self.numbers.as_slice().get(place as usize).copied()
    }

    /// The numbers that are found, in order.
    fn in_order(&self, alloc: Global) -> Result<Vec<u64>, AllocError>
        ensures { IfOk result (λ numbers. numbers.items ≡ words.marked self.now.marks) }
    {
        marked(alloc, self.marks.as_slice())
    }
}

/// For each number below the count those that arcs lead to from it.
fn by_source(alloc: Global, count: u64, arcs: &[Arc]) -> Result<Rows<u64>, AllocError>
    ensures { IfOk result (λ rows. (number : ℕ) → number < count → row_of rows number ≡ leads_to arcs.now number) }
{
    let mut rows = Rows::new(alloc, count)?;
    for arc in arcs {
        rows.push(arc.from as u64, arc.to as u64)?;
    }
    Ok(rows)
}

/// The numbers below the count that arcs lead to from one of the starts, in order. The numbers found so far are a queue:
/// each in its turn adds those that arcs lead to from it. Each arc is followed at most once.
pub fn reached(
    alloc: Global,
    count: u64,
    starts: &[u64],
    arcs: &[Arc],
) -> Result<Vec<u64>, AllocError>
    ensures { IfOk result (λ numbers. AreReached count starts.now arcs.now numbers.items) }
{
    let rows = by_source(alloc, count, arcs)?;
    let mut found = Found::starting(alloc, count, starts)?;
    let mut place = 0;
    while let Some(number) = found.get(place) {
        found.add_all(rows.row(number))?;
        place += 1;
    }
    let numbers = found.in_order(alloc)?;
    Ok(numbers)
}
