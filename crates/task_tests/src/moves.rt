//! Ground tasks whose actions lead from one object to another.

ghost use Rattle.std.specs.Prelude.{◌≡◌, ◌<◌, ◌≤◌, true, [], ◌∷◌, All, IfOk, OnOk, codes, replicate};
ghost use Rattle.ground_task.specs.Lawful.{IsLawful};
ghost use Rattle.task_tests.specs.Moves.{atom_at, row_of, move_of, IsMove, AreStarts};

use atom_objects::Objects;
use ground_task::{Cond, GoalRow, Ground, GroundAction, GroundEffect};
use lists::{List, Text};
use normal_task::{GroundAtom, PredicateRow};
use std::alloc::{AllocError, Global};

fn no_literals(alloc: Global) -> Cond<GroundAtom>
    ensures { result ≡ record { positive = []; negative = [] } }
{
    Cond {
        positive: List::from_vec(Vec::new(alloc)),
        negative: List::from_vec(Vec::new(alloc)),
    }
}

/// The atom of the predicate and the object.
fn atom(alloc: Global, predicate: u64, object: u64) -> Result<GroundAtom, AllocError>
    ensures { IfOk result (λ atom. atom ≡ atom_at predicate object) }
{
    Ok(GroundAtom {
        predicate,
        objects: Objects::from_slice(alloc, &[object])?,
    })
}

fn only_positive(alloc: Global, predicate: u64, object: u64) -> Result<Cond<GroundAtom>, AllocError>
    ensures { IfOk result (λ condition. condition ≡ record { positive = atom_at predicate object ∷ []; negative = [] }) }
{
    Ok(Cond {
        positive: List::from_vec(vec![in alloc; atom(alloc, predicate, object)?]?),
        negative: List::from_vec(Vec::new(alloc)),
    })
}

fn only_added(alloc: Global, predicate: u64, object: u64) -> Result<List<GroundEffect>, AllocError>
    ensures { IfOk result (λ effects. effects ≡ record { condition = record { positive = []; negative = [] }; adds = true; atom = atom_at predicate object } ∷ []) }
{
    let effect = GroundEffect {
        condition: no_literals(alloc),
        adds: true,
        atom: atom(alloc, predicate, object)?,
    };
    Ok(List::from_vec(vec![in alloc; effect]?))
}

/// An action that adds the atom of one object where that of another is true.
fn move_from(alloc: Global, predicate: u64, from: u64, to: u64) -> Result<GroundAction, AllocError>
    ensures { IfOk result (λ action. action ≡ move_of predicate from to) }
{
    Ok(GroundAction {
        name: Text::from_slice(alloc, b"move")?,
        condition: only_positive(alloc, predicate, from)?,
        effects: only_added(alloc, predicate, to)?,
        cost: 1,
    })
}

fn push_move(
    moves: &mut Vec<GroundAction>,
    count: u64,
    predicate: u64,
    from: u64,
    to: u64,
) -> Result<(), AllocError>
    requires predicate { predicate < 2 }
    requires from { from < count }
    requires to { to < count }
    requires moves { All (IsMove count) moves.old.items }
    ensures { OnOk result (All (IsMove count) moves.new.items) }
{
    let alloc = *moves.allocator();
    moves.push(move_from(alloc, predicate, from, to)?)?;
    Ok(())
}

/// For each object but the last, the move to the next one, with predicate 0; and then for each, the move back from the
/// next one, with predicate 1.
fn lines(alloc: Global, count: u64) -> Result<Vec<GroundAction>, AllocError>
    ensures { IfOk result (λ moves. All (IsMove count) moves.items) }
{
    let mut moves = Vec::new(alloc);
    for to in 1..count {
        push_move(&mut moves, count, 0, to - 1, to)?;
    }
    for from in 1..count {
        push_move(&mut moves, count, 1, from, from - 1)?;
    }
    Ok(moves)
}

/// The moves from each object to the one after the next, in a ring.
fn ring(alloc: Global, count: u64) -> Result<Vec<GroundAction>, AllocError>
    requires { 2 ≤ count }
    ensures { IfOk result (λ moves. All (IsMove count) moves.items) }
{
    let mut moves = Vec::new(alloc);
    for from in 0..count - 2 {
        push_move(&mut moves, count, 0, from, from + 2)?;
    }
    for to in 0..2 {
        push_move(&mut moves, count, 0, count - 2 + to, to)?;
    }
    Ok(moves)
}

/// As many objects, all with one name.
fn objects(alloc: Global, count: u64) -> Result<List<Text>, AllocError>
    ensures { IfOk result (λ objects. objects ≡ replicate count (codes "o")) }
{
    let mut names = Vec::new(alloc);
    for _ in 0..count {
        names.push(Text::from_slice(alloc, b"o")?)?;
    }
    Ok(List::from_vec(names))
}

/// A predicate of one object that actions may change.
fn predicate(alloc: Global, name: &[u8]) -> Result<PredicateRow, AllocError>
    ensures { IfOk result (λ row. row ≡ row_of name.now) }
{
    Ok(PredicateRow {
        name: Text::from_slice(alloc, name)?,
        arity: 1,
        derived: false,
        fixed: false,
    })
}

fn predicates(alloc: Global) -> Result<List<PredicateRow>, AllocError>
    ensures { IfOk result (λ rows. rows ≡ row_of (codes "up") ∷ row_of (codes "down") ∷ []) }
{
    Ok(List::from_vec(vec![in alloc; predicate(alloc, b"up")?, predicate(alloc, b"down")?]?))
}

/// The task of these moves between as many objects. Every state meets its goal.
fn task(
    alloc: Global,
    count: u64,
    init: Vec<GroundAtom>,
    moves: Vec<GroundAction>,
) -> Result<Ground, AllocError>
    requires init { AreStarts count init.items }
    requires moves { All (IsMove count) moves.items }
    ensures { IfOk result IsLawful }
{
    Ok(Ground {
        normal_predicates: predicates(alloc)?,
        objects: objects(alloc, count)?,
        init: List::from_vec(init),
        actions: List::from_vec(moves),
        axioms: List::from_vec(Vec::new(alloc)),
        goal: GoalRow::All(no_literals(alloc)),
        metric: false,
    })
}

/// The task of the two lines: predicate 0 holds of the first object, and predicate 1 of the last.
pub(crate) fn line_task(alloc: Global, count: u64) -> Result<Ground, AllocError>
    requires { 1 ≤ count }
    ensures { IfOk result IsLawful }
{
    let init = vec![in alloc; atom(alloc, 0, 0)?, atom(alloc, 1, count - 1)?]?;
    let moves = lines(alloc, count)?;
    task(alloc, count, init, moves)
}

/// The task of the ring: predicate 0 holds of the first object.
pub(crate) fn ring_task(alloc: Global, count: u64) -> Result<Ground, AllocError>
    requires { 2 ≤ count }
    ensures { IfOk result IsLawful }
{
    let init = vec![in alloc; atom(alloc, 0, 0)?]?;
    let moves = ring(alloc, count)?;
    task(alloc, count, init, moves)
}
