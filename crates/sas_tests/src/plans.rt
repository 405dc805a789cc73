//! Tables of plan files: what each comes to beside a small task.

use crate::tasks::{ROOM, SWITCH, task_of};
use lists::Stop;
use plan_backmap::{Mapped, PlanFault, Step, map_plan, plan_text};
use sas_task::SasTask;
use std::alloc::{AllocError, Global};
use std::test::*;

// Each plan beside the switch, whose one operator is `flip` at cost 1: how often it flips, or its first faulty line.
static SWITCH_PLANS: &[(&[u8], Result<u64, Stop<PlanFault>>)] = &[
    (b"(flip)\n", Ok(1)),
    (b"(flip)\n(FLIP )\n; cost = 2 (unit cost)\n", Ok(2)),
    (b"(flip)", Ok(1)),
    (b"(flip)\n(flip)", Ok(2)),
    (b"(flip)\r\n(flip)\r\n", Ok(2)),
    (b"(flip)\r\r\n", Ok(1)),
    (b"(\tflip\t)\n", Ok(1)),
    (b"(  flip   )\n", Ok(1)),
    (b" \t\r(flip)\t \n", Ok(1)),
    (b"(Flip)\n", Ok(1)),
    (b"", Ok(0)),
    (b"\n", Ok(0)),
    (b"; cost = 0 (unit cost)\n", Ok(0)),
    (b"; a\n\n ;b\r\n\t\n;", Ok(0)),
    (b";\xc3\xa9\n(flip)", Ok(1)),
    (b"\n;(flop\n\n(flip)\n\n", Ok(1)),
    (b"flip", Err(Stop::Fault(PlanFault::BadLine(1)))),
    (b"(flip) ; once", Err(Stop::Fault(PlanFault::BadLine(1)))),
    (b"((flip))", Err(Stop::Fault(PlanFault::BadLine(1)))),
    (b"()", Err(Stop::Fault(PlanFault::BadLine(1)))),
    (b"( )", Err(Stop::Fault(PlanFault::BadLine(1)))),
    (b"(\t)", Err(Stop::Fault(PlanFault::BadLine(1)))),
    (b"(", Err(Stop::Fault(PlanFault::BadLine(1)))),
    (b")", Err(Stop::Fault(PlanFault::BadLine(1)))),
    (b")(", Err(Stop::Fault(PlanFault::BadLine(1)))),
    (b"(flip", Err(Stop::Fault(PlanFault::BadLine(1)))),
    (b"(fl;ip)", Err(Stop::Fault(PlanFault::BadLine(1)))),
    (b"(fl\xc3\xa9ip)", Err(Stop::Fault(PlanFault::BadLine(1)))),
    (b"(fl\x7fip)", Err(Stop::Fault(PlanFault::BadLine(1)))),
    (b"(flip\r)", Err(Stop::Fault(PlanFault::BadLine(1)))),
    (b"(flip\x0c)", Err(Stop::Fault(PlanFault::BadLine(1)))),
    (b"(flip)\x0c", Err(Stop::Fault(PlanFault::BadLine(1)))),
    (b"(flip)(flip)", Err(Stop::Fault(PlanFault::BadLine(1)))),
    (
        b"(flip)\n\n;\n(flip",
        Err(Stop::Fault(PlanFault::BadLine(4))),
    ),
    (
        b"(flip)\n; cost = 1 (unit cost)\n(flop)\n",
        Err(Stop::Fault(PlanFault::UnknownStep(3))),
    ),
    (
        b"(flip)\n(flop)\nflip\n",
        Err(Stop::Fault(PlanFault::UnknownStep(2))),
    ),
    (b"flip\n(flop)\n", Err(Stop::Fault(PlanFault::BadLine(1)))),
    (b"(fli)", Err(Stop::Fault(PlanFault::UnknownStep(1)))),
    (b"(flip flip)", Err(Stop::Fault(PlanFault::UnknownStep(1)))),
    (b"(fl ip)", Err(Stop::Fault(PlanFault::UnknownStep(1)))),
    (b"(flip?)", Err(Stop::Fault(PlanFault::UnknownStep(1)))),
];

// A plan for the room, whose operators are `enter room` at cost 3, `press` at no cost and `toggle` at cost 10.
static ROOM_PLAN: &[u8] =
    b"( ENTER\troom)\n(press)\n(toggle)\n(enter   room )\n; cost = 16 (general cost)\n";

static ROOM_STEPS: &[(&[&[u8]], u64)] = &[
    (&[b"enter", b"room"], 3),
    (&[b"press"], 0),
    (&[b"toggle"], 10),
    (&[b"enter", b"room"], 3),
];

/// Whether the step has these words and this cost.
fn is_step(step: &Step, words: &[&[u8]], cost: u64) -> bool {
    let found = step.words.as_slice();
    step.cost == cost
        && found.len() == words.len()
        && found
            .iter()
            .zip(words)
            .all(|(word, wanted)| word.as_slice() == *wanted)
}

/// Whether the plan flips the switch so often, and does nothing else.
fn are_flips(mapped: &Mapped, flips: u64) -> bool {
    let steps = mapped.steps.as_slice();
    steps.len() as u64 == flips
        && mapped.total == flips
        && steps.iter().all(|step| is_step(step, &[b"flip"], 1))
}

/// Whether the plan is that for the room.
fn is_room_plan(mapped: &Mapped) -> bool {
    let steps = mapped.steps.as_slice();
    steps.len() == ROOM_STEPS.len()
        && mapped.total == 16
        && steps
            .iter()
            .zip(ROOM_STEPS)
            .all(|(step, row)| is_step(step, row.0, row.1))
}

/// Whether this comes of a plan.
fn comes_to(
    found: &Result<Mapped, Stop<PlanFault>>,
    expected: Result<u64, Stop<PlanFault>>,
) -> bool {
    match (found, expected) {
        (Ok(mapped), Ok(flips)) => are_flips(mapped, flips),
        (Err(end), Err(other)) => *end == other,
        _ => false,
    }
}

/// What comes of a short plan.
fn mapped(alloc: Global, task: &SasTask, text: &[u8]) -> Result<Mapped, Stop<PlanFault>> {
    if text.len() < 1000 {
        map_plan(alloc, task, text)
    } else {
        Err(Stop::NoMemory)
    }
}

/// What comes of a short plan beside the task of a text.
fn mapped_beside(alloc: Global, task: &str, text: &[u8]) -> Result<Mapped, Stop<PlanFault>> {
    let Ok(task) = task_of(alloc, task.as_bytes()) else {
        return Err(Stop::NoMemory);
    };
    let found = mapped(alloc, &task, text);
    drop(task);
    found
}

#[test]
fn each_plan_gives_its_steps_or_its_first_faulty_line(rt: HostRuntime) {
    for row in SWITCH_PLANS {
        let found = mapped_beside(rt.alloc(), SWITCH, row.0);
        assert!(rt; comes_to(&found, row.1), "{:?}", row.0);
    }
}

const ROOM_STEP_LINES: &str = "(enter room)\n(press)\n(toggle)\n(enter room)\n";

/// Whether these are the lines on the plan for the room, with costs that are or aren't the operators' own.
fn has_lines(alloc: Global, mapped: &Mapped, metric: bool, last: &str) -> Result<bool, AllocError> {
    let text = plan_text(alloc, mapped, metric)?;
    let wanted = format!(in alloc; "{ROOM_STEP_LINES}{last}")?;
    Ok(text.as_slice() == wanted.as_bytes())
}

fn has_steps_and_lines(alloc: Global, mapped: &Mapped) -> Result<bool, AllocError> {
    let has_own = has_lines(alloc, mapped, true, "; cost = 16 (general cost)\n")?;
    let has_units = has_lines(alloc, mapped, false, "; cost = 16 (unit cost)\n")?;
    Ok(is_room_plan(mapped) && has_own && has_units)
}

#[test]
fn a_mapped_plan_has_its_steps_and_a_line_for_each(rt: HostRuntime) -> Result<(), AllocError> {
    match &mapped_beside(rt.alloc(), ROOM, ROOM_PLAN) {
        Ok(mapped) => assert!(rt; has_steps_and_lines(rt.alloc(), mapped)?),
        Err(_) => panic!(rt; "no plan"),
    }
    Ok(())
}
