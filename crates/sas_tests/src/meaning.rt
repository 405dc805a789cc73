//! Steps of a task that are worked by hand.

use crate::tasks::{room, task, task_of};
use sas_task::SasTask;
use std::alloc::{AllocError, Global};
use std::test::*;

/// The room, where who is in it may turn the lamp on and off at once, which is a disagreement.
const ROOM: &str = room!(operators 4 ["flicker", 0, 2, "1 0 1 1 -1 0", "0 1 -1 1", 1]);

/// What is asked of the room in a state, with the answer.
#[derive(Clone, Copy)]
enum Asked {
    /// The values of the variables, with those that rules give.
    Values([u64; 4]),
    /// Whether the lamp can be pressed.
    IsPressed(bool),
    /// The state to which the operator at a place leads, or none where its effects disagree.
    Leads(u64, Option<&'static [u64]>),
}

/// Effects are read in the old state.
static ASKED: &[([u64; 4], Asked)] = &[
    ([1, 0, 1, 1], Asked::Values([1, 0, 0, 0])),
    ([1, 1, 1, 1], Asked::Values([1, 1, 1, 1])),
    ([0, 0, 0, 0], Asked::Values([0, 0, 1, 1])),
    ([1, 1, 1, 1], Asked::IsPressed(true)),
    ([0, 1, 1, 1], Asked::IsPressed(false)),
    ([1, 0, 1, 1], Asked::IsPressed(false)),
    ([0, 1, 1, 1], Asked::Leads(0, Some(&[1, 1, 1, 1]))),
    ([1, 1, 1, 1], Asked::Leads(2, Some(&[1, 0, 1, 1]))),
    ([1, 0, 1, 1], Asked::Leads(2, Some(&[1, 1, 1, 1]))),
    ([0, 0, 1, 1], Asked::Leads(3, Some(&[0, 1, 1, 1]))),
    ([1, 0, 1, 1], Asked::Leads(3, None)),
];

// A call of a plain program has a function of its own without clauses, so that no proof of a test carries its meaning.

fn values(alloc: Global, task: &SasTask, state: &[u64]) -> Result<Vec<u64>, AllocError> {
    sas_plain::values(alloc, task, state)
}

/// Whether the second operator is applicable.
fn is_applicable(alloc: Global, task: &SasTask, state: &[u64]) -> Result<bool, AllocError> {
    if task.operators() < 2 {
        return Err(AllocError);
    }
    sas_plain::is_applicable(alloc, task, state, task.operator(1))
}

/// The successor under the operator at this place, where there is one and the task has four variables.
fn successor(
    alloc: Global,
    task: &SasTask,
    state: &[u64; 4],
    place: u64,
) -> Result<Option<Vec<u64>>, AllocError> {
    if place < task.operators() && task.variables() == 4 {
        sas_plain::successor(alloc, task, state.as_slice(), task.operator(place))
    } else {
        Err(AllocError)
    }
}

fn are_values(
    alloc: Global,
    task: &SasTask,
    state: &[u64],
    wanted: &[u64],
) -> Result<bool, AllocError> {
    let found = values(alloc, task, state)?;
    Ok(found.as_slice() == wanted)
}

fn leads(
    alloc: Global,
    task: &SasTask,
    state: &[u64; 4],
    place: u64,
    wanted: Option<&[u64]>,
) -> Result<bool, AllocError> {
    let found = successor(alloc, task, state, place)?;
    Ok(found.as_deref() == wanted)
}

fn is_answered(
    alloc: Global,
    task: &SasTask,
    state: &[u64; 4],
    asked: Asked,
) -> Result<bool, AllocError> {
    match asked {
        Asked::Values(wanted) => are_values(alloc, task, state, &wanted),
        Asked::IsPressed(wanted) => Ok(is_applicable(alloc, task, state)? == wanted),
        Asked::Leads(place, wanted) => leads(alloc, task, state, place, wanted),
    }
}

fn is_so(alloc: Global, state: &[u64; 4], asked: Asked) -> Result<bool, AllocError> {
    let task = task_of(alloc, ROOM.as_bytes())?;
    let answer = is_answered(alloc, &task, state, asked);
    drop(task);
    answer
}

#[test]
fn values_and_steps_of_the_room_as_worked_by_hand(rt: HostRuntime) {
    for (row, (state, asked)) in ASKED.iter().enumerate() {
        let answer = is_so(rt.alloc(), state, *asked);
        assert!(rt; matches!(answer, Ok(true)), "row {row}");
    }
}
