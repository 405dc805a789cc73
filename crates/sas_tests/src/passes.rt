//! Copies, the order of variables, and books of passes, whose passes are applied in turn.

use crate::tasks::{GATE, HALL, LAMP, Making, ROOM, SWITCH, assert_made, has_text, task, task_of};
use lists::Stop;
use pass_book::PassKind::{self, H2, Order, Relevance};
use pass_book::{AddEnd, Book, Pass};
use pass_h2::prune;
use pass_relevance::relevant;
use sas_task::SasTask;
use std::alloc::{AllocError, Global};
use std::test::*;
use task_simplifier::order_variables;

/// The room with its variables ordered by how many operators change them.
const REORDERED: &str = task! {
    metric 1
    variables 4
        ["var0", 0, 2, "Atom seeing()", "NegatedAtom seeing()"]
        ["var1", 1, 2, "Atom safe()", "NegatedAtom safe()"]
        ["var2", -1, 2, "Atom at(hall)", "Atom at(room)"]
        ["var3", -1, 2, "Atom lit()", "NegatedAtom lit()"]
    groups 1
        [2, "2 0", "2 1"]
    state 1 1 0 1
    goal 1 "1 0"
    operators 3
        ["enter room", 0, 1, "0 2 0 1", 3]
        ["press", 1, "2 1", 1, "0 3 1 0", 0]
        ["toggle", 0, 2, "2 0 0 2 1 3 -1 1", "1 3 1 3 -1 0", 10]
    rules 2
        [2, "2 1", "3 0", "0 1 0"]
        [1, "0 0", "1 1 0"]
};

/// The gate without dust, in order then: fewer operators go through it than open and close it.
const ORDERED_BEHIND: &str = task! {
    metric 0
    variables 5
        ["var0", -1, 2, "Atom key()", "NegatedAtom key()"]
        ["var1", 0, 2, "Atom safe()", "NegatedAtom safe()"]
        ["var2", -1, 2, "Atom through()", "NegatedAtom through()"]
        ["var3", -1, 2, "Atom ringing()", "NegatedAtom ringing()"]
        ["var4", -1, 2, "Atom open()", "NegatedAtom open()"]
    groups 0
    state 0 1 1 1 1
    goal 1 "1 0"
    operators 3
        ["close", 0, 1, "0 4 -1 1", 1]
        ["go", 1, "4 0", 3, "1 0 0 2 -1 0", "0 3 -1 0", "1 0 0 3 -1 1", 1]
        ["open", 0, 1, "0 4 -1 0", 1]
    rules 1
        [1, "2 0", "1 1 0"]
};

/// The gate in order, while two operators go through it, and then without dust.
const ORDERED_BEFORE: &str = task! {
    metric 0
    variables 5
        ["var0", -1, 2, "Atom key()", "NegatedAtom key()"]
        ["var1", 0, 2, "Atom safe()", "NegatedAtom safe()"]
        ["var2", -1, 2, "Atom open()", "NegatedAtom open()"]
        ["var3", -1, 2, "Atom through()", "NegatedAtom through()"]
        ["var4", -1, 2, "Atom ringing()", "NegatedAtom ringing()"]
    groups 0
    state 0 1 1 1 1
    goal 1 "1 0"
    operators 3
        ["close", 0, 1, "0 2 -1 1", 1]
        ["go", 1, "2 0", 3, "1 0 0 3 -1 0", "0 4 -1 0", "1 0 0 4 -1 1", 1]
        ["open", 0, 1, "0 2 -1 0", 1]
    rules 1
        [1, "3 0", "1 1 0"]
};

/// The hall without the attic, to which nobody flies. Nobody has wings.
const GROUND: &str = task! {
    metric 0
    variables 2
        ["var0", -1, 2, "Atom at(hall)", "Atom at(garden)"]
        ["var1", -1, 1, "NegatedAtom wings()"]
    groups 1
        [2, "0 0", "0 1"]
    state 0 0
    goal 1 "0 1"
    operators 1
        ["walk", 0, 1, "0 0 0 1", 1]
    rules 0
};

/// The task above in order: no operator changes that nobody has wings.
const ORDERED_GROUND: &str = task! {
    metric 0
    variables 2
        ["var0", -1, 1, "NegatedAtom wings()"]
        ["var1", -1, 2, "Atom at(hall)", "Atom at(garden)"]
    groups 1
        [2, "1 0", "1 1"]
    state 0 0
    goal 1 "1 1"
    operators 1
        ["walk", 0, 1, "0 1 0 1", 1]
    rules 0
};

/// The task above without wings, of which no operator that is left asks.
const WALK: &str = task! {
    metric 0
    variables 1
        ["var0", -1, 2, "Atom at(hall)", "Atom at(garden)"]
    groups 1
        [2, "0 0", "0 1"]
    state 0
    goal 1 "0 1"
    operators 1
        ["walk", 0, 1, "0 0 0 1", 1]
    rules 0
};

static COPIED: &[(&str, &str)] = &[(SWITCH, SWITCH), (ROOM, ROOM), (LAMP, LAMP)];

static ORDERED: &[(&str, &str)] = &[(ROOM, REORDERED)];

#[test]
fn copies_have_the_same_text_and_variables_are_ordered(rt: HostRuntime) {
    assert_made(&rt, rt.alloc(), Making::Copying, COPIED);
    assert_made(&rt, rt.alloc(), Making::OrderingVariables, ORDERED);
}

/// Kinds of passes, the text of the task to which a book applies them, and that of what they make, or why they make none.
type Row = (
    &'static [PassKind],
    &'static str,
    Result<&'static str, Stop<PassKind>>,
);

static EMPTY_BOOK: &[Row] = &[(&[Order], ROOM, Err(Stop::Fault(Order)))];

static BOOK_OF_ORDER: &[Row] = &[
    (&[Order], ROOM, Ok(REORDERED)),
    (&[Order, Order], ROOM, Ok(REORDERED)),
];

// The pass finds no memory.
static STARVED_BOOK: &[Row] = &[(&[Order], ROOM, Err(Stop::NoMemory)), (&[], ROOM, Ok(ROOM))];

// Wings are of no account only once nobody flies. A kind may be repeated.
static BOOK_OF_EVERY_PASS: &[Row] = &[
    (&[Relevance, Order], GATE, Ok(ORDERED_BEHIND)),
    (&[Order, Relevance], GATE, Ok(ORDERED_BEFORE)),
    (
        &[Order, Relevance, Relevance, Order, Relevance],
        GATE,
        Ok(ORDERED_BEHIND),
    ),
    (&[H2], HALL, Ok(GROUND)),
    (&[Relevance, H2, H2], HALL, Ok(GROUND)),
    (&[Order, Relevance, H2], HALL, Ok(ORDERED_GROUND)),
    (&[H2, Order], HALL, Ok(ORDERED_GROUND)),
    (&[H2, Relevance, Order], HALL, Ok(WALK)),
];

/// Whether the book applies passes as the row says. No task has the empty text.
fn is_applied(alloc: Global, book: &Book, row: &Row) -> Result<bool, AllocError> {
    match book.apply(alloc, row.0, task_of(alloc, row.1.as_bytes())?) {
        Ok(new) => has_text(alloc, new, row.2.unwrap_or("").as_bytes()),
        Err(end) => Ok(matches!(row.2, Err(wanted) if end == wanted)),
    }
}

/// Whether the book has the order of variables or not, and applies passes as the rows say.
fn are_applied(alloc: Global, book: &Book, has_order: bool, rows: &[Row]) -> bool {
    rows.iter()
        .all(|row| matches!(is_applied(alloc, book, row), Ok(true)))
        && book.has(Order) == has_order
}

/// Whether an empty book has no pass.
fn is_empty(alloc: Global) -> bool {
    let book = Book::new(alloc);
    are_applied(alloc, &book, false, EMPTY_BOOK)
}

// Boxes are made before the book, since each end of a function that owns a book costs its proof some seconds.

/// Whether a book takes the order of variables and applies it, also once it was given another pass of this kind.
fn is_taken_once(alloc: Global) -> Result<bool, AllocError> {
    let run = Box::new(
        alloc,
        |alloc: Global, task: &SasTask| order_variables(alloc, task),
    )?;
    let other = Box::new(alloc, |_: Global, _: &SasTask| Err(AllocError))?;
    let kind = Order;
    let mut book = Book::new(alloc);
    let is_added = book.add(Pass { kind, run }).is_ok();
    let is_applied = are_applied(alloc, &book, true, BOOK_OF_ORDER);
    let is_taken = matches!(
        book.add(Pass { kind, run: other }),
        Err((_, AddEnd::KindTaken))
    );
    let is_kept = are_applied(alloc, &book, true, BOOK_OF_ORDER);
    Ok(is_added && is_applied && is_taken && is_kept)
}

/// Whether a book takes a pass that finds no memory, and no passes leave the room as it is.
fn is_starved(alloc: Global) -> Result<bool, AllocError> {
    let run = Box::new(alloc, |_: Global, _: &SasTask| Err(AllocError))?;
    let mut book = Book::new(alloc);
    let is_added = book.add(Pass { kind: Order, run }).is_ok();
    let is_applied = are_applied(alloc, &book, true, STARVED_BOOK);
    Ok(is_added && is_applied)
}

/// Whether a book takes every pass, and applies them in the order of their kinds.
fn is_in_turn(alloc: Global) -> Result<bool, AllocError> {
    let order = Box::new(
        alloc,
        |alloc: Global, task: &SasTask| order_variables(alloc, task),
    )?;
    let relevance = Box::new(alloc, |alloc: Global, task: &SasTask| relevant(alloc, task))?;
    let h2 = Box::new(alloc, |alloc: Global, task: &SasTask| prune(alloc, task))?;
    let mut book = Book::new(alloc);
    let (kind, run) = (Order, order);
    let has_order = book.add(Pass { kind, run }).is_ok();
    let (kind, run) = (Relevance, relevance);
    let has_relevance = book.add(Pass { kind, run }).is_ok();
    let (kind, run) = (H2, h2);
    let has_h2 = book.add(Pass { kind, run }).is_ok();
    let is_applied = are_applied(alloc, &book, true, BOOK_OF_EVERY_PASS);
    Ok(has_order && has_relevance && has_h2 && is_applied)
}

#[test]
fn a_book_takes_a_kind_once_and_applies_the_passes_that_it_has(rt: HostRuntime) {
    let answers = [
        Ok(is_empty(rt.alloc())),
        is_taken_once(rt.alloc()),
        is_starved(rt.alloc()),
        is_in_turn(rt.alloc()),
    ];
    for (book, answer) in answers.iter().enumerate() {
        assert!(rt; matches!(answer, Ok(true)), "book {book}");
    }
}
