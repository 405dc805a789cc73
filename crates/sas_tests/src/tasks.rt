//! Tasks that are written out by hand: a lamp, a room, a gate, a hall, and others whose texts are those of small PDDL tasks.

use lists::Stop;
use pass_h2::prune;
use pass_relevance::relevant;
use sas_reader::{SasFault, read_task};
use sas_task::SasTask;
use sas_writer::text_of;
use std::alloc::{AllocError, Global};
use std::process::Abort;
use task_simplifier::order_variables;

/// The text of a task. A row has the lines between the words that begin and end a variable, a mutex group, an operator or
/// a rule, and the number before the rows is how many there are.
macro_rules! task {
    (
        metric $metric:literal
        variables $variables:literal $([$($variable:literal),*])*
        groups $groups:literal $([$($group:literal),*])*
        state $($value:literal)*
        goal $goals:literal $($goal:literal)*
        operators $operators:literal $([$($operator:literal),*])*
        rules $rules:literal $([$($rule:literal),*])*
    ) => {
        concat!(
            "begin_version\n3\nend_version\n",
            "begin_metric\n", $metric, "\nend_metric\n",
            $variables, "\n", $("begin_variable\n", $($variable, "\n",)* "end_variable\n",)*
            $groups, "\n", $("begin_mutex_group\n", $($group, "\n",)* "end_mutex_group\n",)*
            "begin_state\n", $($value, "\n",)* "end_state\n",
            "begin_goal\n", $goals, "\n", $($goal, "\n",)* "end_goal\n",
            $operators, "\n", $("begin_operator\n", $($operator, "\n",)* "end_operator\n",)*
            $rules, "\n", $("begin_rule\n", $($rule, "\n",)* "end_rule\n",)*
        )
    };
}

pub(crate) use task;

/// A lamp that is off and can be switched on.
pub(crate) const LAMP: &str = task! {
    metric 0
    variables 1
        ["var0", -1, 2, "Atom on()", "Atom off()"]
    groups 1
        [2, "0 0", "0 1"]
    state 1
    goal 1 "0 0"
    operators 1
        ["flip", 0, 1, "0 0 1 0", 1]
    rules 0
};

/// The lamp with one variable for each fact.
pub(crate) const SWITCH: &str = task! {
    metric 0
    variables 2
        ["var0", -1, 2, "Atom on()", "NegatedAtom on()"]
        ["var1", -1, 2, "Atom off()", "NegatedAtom off()"]
    groups 0
    state 1 0
    goal 1 "0 0"
    operators 1
        ["flip", 0, 2, "0 0 -1 0", "0 1 0 1", 1]
    rules 0
};

/// Whoever has `q` gets `p` and gives `q` to somebody, maybe to itself; `b` is to have `p`.
pub(crate) const BACK: &str = task! {
    metric 0
    variables 3
        ["var0", -1, 2, "Atom q(a)", "Atom q(b)"]
        ["var1", -1, 2, "Atom p(a)", "NegatedAtom p(a)"]
        ["var2", -1, 2, "Atom p(b)", "NegatedAtom p(b)"]
    groups 1
        [2, "0 0", "0 1"]
    state 0 1 1
    goal 1 "2 0"
    operators 4
        ["act a a", 1, "0 0", 1, "0 1 -1 0", 1]
        ["act a b", 0, 2, "0 0 0 1", "0 1 -1 0", 1]
        ["act b a", 0, 2, "0 0 1 0", "0 2 -1 0", 1]
        ["act b b", 1, "0 1", 1, "0 2 -1 0", 1]
    rules 0
};

/// Who is through the gate is safe. One goes through if the gate is open and one has the key; a bell rings and doesn't
/// ring then, and dust may fall, which is of no account.
pub(crate) const GATE: &str = task! {
    metric 0
    variables 6
        ["var0", -1, 2, "Atom open()", "NegatedAtom open()"]
        ["var1", -1, 2, "Atom through()", "NegatedAtom through()"]
        ["var2", -1, 2, "Atom key()", "NegatedAtom key()"]
        ["var3", -1, 2, "Atom ringing()", "NegatedAtom ringing()"]
        ["var4", -1, 2, "Atom dusty()", "NegatedAtom dusty()"]
        ["var5", 0, 2, "Atom safe()", "NegatedAtom safe()"]
    groups 0
    state 1 1 0 1 1 1
    goal 1 "5 0"
    operators 4
        ["close", 0, 1, "0 0 -1 1", 1]
        ["go", 1, "0 0", 4, "1 2 0 1 -1 0", "0 3 -1 0", "1 2 0 3 -1 1", "0 4 -1 0", 1]
        ["go", 1, "0 0", 4, "1 2 0 1 -1 0", "0 3 -1 0", "1 2 0 3 -1 1", "0 4 -1 1", 1]
        ["open", 0, 1, "0 0 -1 0", 1]
    rules 1
        [1, "1 0", "5 1 0"]
};

/// The room with a lamp, with one more operator or none.
macro_rules! room {
    (operators $operators:literal $([$($operator:literal),*])*) => {
        task! {
            metric 1
            variables 4
                ["var0", -1, 2, "Atom at(hall)", "Atom at(room)"]
                ["var1", -1, 2, "Atom lit()", "NegatedAtom lit()"]
                ["var2", 0, 2, "Atom seeing()", "NegatedAtom seeing()"]
                ["var3", 1, 2, "Atom safe()", "NegatedAtom safe()"]
            groups 1
                [2, "0 0", "0 1"]
            state 0 1 1 1
            goal 1 "3 0"
            operators $operators
                ["enter room", 0, 1, "0 0 0 1", 3]
                ["press", 1, "0 1", 1, "0 1 1 0", 0]
                ["toggle", 0, 2, "2 0 1 2 0 1 -1 1", "1 1 1 1 -1 0", 10]
                $([$($operator),*])*
            rules 2
                [2, "0 1", "1 0", "2 1 0"]
                [1, "2 0", "3 1 0"]
        }
    };
}

pub(crate) use room;

/// Who is in the room while it is lit can see, and who can see is safe.
pub(crate) const ROOM: &str = room!(operators 3);

/// The hall, with one more variable, operator and rule, or none.
macro_rules! hall {
    (
        variables $variables:literal $([$($variable:literal),*])*
        state $($value:literal)*
        operators $operators:literal $([$($operator:literal),*])*
        rules $rules:literal $([$($rule:literal),*])*
    ) => {
        task! {
            metric 0
            variables $variables
                ["var0", -1, 3, "Atom at(hall)", "Atom at(attic)", "Atom at(garden)"]
                ["var1", -1, 2, "Atom wings()", "NegatedAtom wings()"]
                $([$($variable),*])*
            groups 1
                [3, "0 0", "0 1", "0 2"]
            state $($value)*
            goal 1 "0 2"
            operators $operators
                ["fly", 1, "1 0", 1, "0 0 0 1", 1]
                $([$($operator),*])*
                ["walk", 0, 1, "0 0 0 2", 1]
            rules $rules
                $([$($rule),*])*
        }
    };
}

/// From the hall one walks to the garden, and with wings flies to the attic. Nothing gives wings.
pub(crate) const HALL: &str = hall! {
    variables 2
    state 0 1
    operators 2
    rules 0
};

/// The hall, where who rests in the garden has no wings then: an effect with a condition.
pub(crate) const RESTING: &str = hall! {
    variables 2
    state 0 1
    operators 3
        ["rest", 0, 1, "1 0 2 1 -1 1", 1]
    rules 0
};

/// The hall, where a rule says who is safe.
pub(crate) const SAFE: &str = hall! {
    variables 3
        ["var2", 0, 2, "Atom safe()", "NegatedAtom safe()"]
    state 0 1 1
    operators 2
    rules 1
        [1, "0 2", "2 1 0"]
};

/// What the text gives, where it is short enough to be read.
pub(crate) fn read(alloc: Global, text: &[u8]) -> Result<SasTask, Stop<SasFault>> {
    if text.len() < 10_000_000 {
        read_task(alloc, text)
    } else {
        Err(Stop::NoMemory)
    }
}

/// The task of the text. A text that isn't one gives none, as where memory is wanting.
pub(crate) fn task_of(alloc: Global, text: &[u8]) -> Result<SasTask, AllocError> {
    read(alloc, text).map_err(|_| AllocError)
}

/// The text of the task, without what is known of it, so that no proof of a test carries that.
fn written(alloc: Global, task: &SasTask) -> Result<Vec<u8>, AllocError> {
    text_of(alloc, task)
}

// A function that is handed a task lets go of it, so that those above it don't, and by a call, since each end of a function
// that owns a task costs its proof some seconds.

/// The text of the task, which goes.
pub(crate) fn last_text(alloc: Global, task: SasTask) -> Result<Vec<u8>, AllocError> {
    let text = written(alloc, &task);
    drop(task);
    text
}

/// Whether this is the text of the task.
pub(crate) fn has_text(alloc: Global, task: SasTask, wanted: &[u8]) -> Result<bool, AllocError> {
    let text = last_text(alloc, task)?;
    Ok(text.as_slice() == wanted)
}

/// What makes another task of a task.
#[derive(Clone, Copy)]
pub(crate) enum Making {
    Copying,
    OrderingVariables,
    Relevance,
    H2,
}

fn made(alloc: Global, making: Making, task: &SasTask) -> Result<SasTask, AllocError> {
    match making {
        Making::Copying => task.copy(alloc),
        Making::OrderingVariables => order_variables(alloc, task),
        Making::Relevance => relevant(alloc, task),
        Making::H2 => prune(alloc, task),
    }
}

/// What is made of the task of the text.
fn made_of(alloc: Global, making: Making, text: &str) -> Result<SasTask, AllocError> {
    let task = task_of(alloc, text.as_bytes())?;
    let new = made(alloc, making, &task);
    drop(task);
    new
}

/// Whether the wanted text is that of what is made of the task of the text.
fn makes(alloc: Global, making: Making, text: &str, wanted: &str) -> Result<bool, AllocError> {
    has_text(alloc, made_of(alloc, making, text)?, wanted.as_bytes())
}

/// Asserts that the second text of each row is that of what is made of the task of the first.
pub(crate) fn assert_made(
    rt: &impl Abort,
    alloc: Global,
    making: Making,
    rows: &[(&'static str, &'static str)],
) {
    for row in rows {
        let answer = makes(alloc, making, row.0, row.1);
        assert!(rt; matches!(answer, Ok(true)), "{}", row.0);
    }
}
