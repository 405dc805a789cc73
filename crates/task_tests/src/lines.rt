//! Tasks as lines. `go a | at(a) !open(a) | +at(b) road(a, b) | -at(a)` is the action `go a`, which asks that at(a) is true
//! and open(a) false; one effect adds at(b) where road(a, b) is true, and one deletes at(a).

use ground_task::{Cond, GoalRow, Ground, GroundAction, GroundAxiom};
use itoa::Buffer;
use normal_task::GroundAtom;
use reached_task::{Fact, ReachedAction, ReachedAxiom};

/// The names of predicates and objects, and the facts that numbers stand for.
#[derive(Drop)]
pub(crate) struct Names<'a> {
    pub(crate) ground: &'a Ground,
    pub(crate) facts: &'a [Fact],
}

/// What is left of a line, and whether all that was looked for stood where its rest began.
#[derive(Drop)]
pub(crate) struct Line<'a> {
    rest: &'a [u8],
    fits: bool,
}

impl<'a> Line<'a> {
    pub(crate) fn new(text: &'a str) -> Line<'a> {
        Line {
            rest: text.as_bytes(),
            fits: true,
        }
    }

    pub(crate) fn word(&mut self, word: &[u8]) {
        match self.rest.strip_prefix(word) {
            Some(rest) => self.rest = rest,
            None => self.fits = false,
        }
    }

    /// A mark, and the number in decimal.
    pub(crate) fn marked(&mut self, mark: &[u8], number: u64) {
        self.word(mark);
        self.word(Buffer::new().format(number).as_bytes());
    }

    pub(crate) fn ends(&self) -> bool {
        self.fits && self.rest.is_empty()
    }
}

/// What a line may stand for.
pub(crate) trait Shown {
    fn show(&self, names: &Names<'_>, line: &mut Line<'_>);
}

fn predicate(names: &Names<'_>, predicate: u64, line: &mut Line<'_>) {
    if let Some(row) = names
        .ground
        .normal_predicates
        .as_slice()
        .get(predicate as usize)
    {
        line.word(row.name.as_slice());
    }
}

fn object(names: &Names<'_>, object: u64, line: &mut Line<'_>) {
    if let Some(name) = names.ground.objects.as_slice().get(object as usize) {
        line.word(name.as_slice());
    }
}

impl Shown for GroundAtom {
    fn show(&self, names: &Names<'_>, line: &mut Line<'_>) {
        predicate(names, self.predicate, line);
        line.word(b"(");
        for (place, number) in self.objects.as_slice().iter().enumerate() {
            line.word(if place > 0 { b", " } else { b"" });
            object(names, *number, line);
        }
        line.word(b")");
    }
}

/// The number of a fact.
impl Shown for u64 {
    fn show(&self, names: &Names<'_>, line: &mut Line<'_>) {
        if let Some(fact) = names.facts.get(*self as usize) {
            line.word(fact.shown.as_slice());
        }
    }
}

fn atoms<A: Shown>(names: &Names<'_>, mark: &[u8], atoms: &[A], line: &mut Line<'_>) {
    for atom in atoms {
        line.word(mark);
        atom.show(names, line);
    }
}

impl<A: Shown> Shown for Cond<A> {
    fn show(&self, names: &Names<'_>, line: &mut Line<'_>) {
        atoms(names, b" ", self.positive.as_slice(), line);
        atoms(names, b" !", self.negative.as_slice(), line);
    }
}

/// A goal is `never`, or its literals, each after a space.
impl<A: Shown> Shown for GoalRow<A> {
    fn show(&self, names: &Names<'_>, line: &mut Line<'_>) {
        match self {
            GoalRow::Never => line.word(b"never"),
            GoalRow::All(condition) => condition.show(names, line),
        }
    }
}

/// An effect, by its parts.
fn effect<A: Shown>(
    names: &Names<'_>,
    adds: bool,
    atom: &A,
    condition: &Cond<A>,
    line: &mut Line<'_>,
) {
    line.word(if adds { b" | +" } else { b" | -" });
    atom.show(names, line);
    condition.show(names, line);
}

impl Shown for GroundAction {
    fn show(&self, names: &Names<'_>, line: &mut Line<'_>) {
        line.word(self.name.as_slice());
        line.word(b" |");
        self.condition.show(names, line);
        for row in self.effects.as_slice() {
            effect(names, row.adds, &row.atom, &row.condition, line);
        }
    }
}

impl Shown for ReachedAction {
    fn show(&self, names: &Names<'_>, line: &mut Line<'_>) {
        line.word(self.name.as_slice());
        line.word(b" |");
        self.condition.show(names, line);
        for row in self.effects.as_slice() {
            effect(names, row.adds, &row.fact, &row.condition, line);
        }
    }
}

impl Shown for GroundAxiom {
    fn show(&self, names: &Names<'_>, line: &mut Line<'_>) {
        self.atom.show(names, line);
        line.word(b" |");
        self.condition.show(names, line);
    }
}

impl Shown for ReachedAxiom {
    fn show(&self, names: &Names<'_>, line: &mut Line<'_>) {
        self.fact.show(names, line);
        line.word(b" |");
        self.condition.show(names, line);
    }
}

/// Whether this is the row's line.
pub(crate) fn is_shown<R: Shown>(names: &Names<'_>, row: &R, text: &str) -> bool {
    let mut line = Line::new(text);
    row.show(names, &mut line);
    line.ends()
}

/// Whether the rows are those of the lines, in their order.
pub(crate) fn are_in_order<R: Shown>(names: &Names<'_>, rows: &[R], lines: &[&str]) -> bool {
    rows.len() == lines.len()
        && rows
            .iter()
            .zip(lines)
            .all(|(row, line)| is_shown(names, row, line))
}

/// How many of the rows have this line.
fn count<R: Shown>(names: &Names<'_>, rows: &[R], text: &str) -> usize {
    rows.iter()
        .filter(|row| is_shown(names, *row, text))
        .count()
}

/// Whether the rows are those of the lines, which differ from one another, each as often as is said, in whatever order.
pub(crate) fn are_shown<R: Shown>(names: &Names<'_>, rows: &[R], lines: &[(&str, usize)]) -> bool {
    let mut said = 0usize;
    for line in lines {
        if count(names, rows, line.0) != line.1 {
            return false;
        }
        said = said.saturating_add(line.1);
    }
    rows.len() == said
}
