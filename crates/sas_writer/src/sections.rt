//! The sections of the version, the metric, the variables, the mutex groups, the state and the goal, which stand in the text
//! in this order. `docs/OUTPUT.md` has the lines of each, as the planner's output format, version 3, asks for them.

ghost use Rattle.std.specs.Prelude.{◌≡◌, ◌++◌, [], ◌∷◌, codes, OnOk};
ghost use Rattle.std.specs.List.{enumerate_from};
ghost use Rattle.sas_task.specs.Output.{bytes_of, counted, version_lines, metric_lines, variable_lines, group_lines, state_lines, goal_lines, numeral};

use crate::lines::{push_line, push_number_line, push_number_or_none_line, push_pairs};
use sas_task::{Group, Pair, SasTask, Text, Variable, is_valid};
use std::alloc::AllocError;

/// The number of the format, which is always 3, between its two fixed words.
pub(crate) fn push_version(out: &mut Vec<u8>) -> Result<(), AllocError>
    ensures { OnOk result (out.new.items ≡ out.old.items ++ bytes_of version_lines) }
{
    push_line(out, b"begin_version")?;
    push_line(out, b"3")?;
    push_line(out, b"end_version")
}

/// Between two fixed words one line: 1 where action costs are used, and else 0, where each action costs 1.
pub(crate) fn push_metric(out: &mut Vec<u8>, metric: bool) -> Result<(), AllocError>
    ensures { OnOk result (out.new.items ≡ out.old.items ++ bytes_of (metric_lines metric)) }
{
    push_line(out, b"begin_metric")?;
    push_line(out, if metric { b"1" } else { b"0" })?;
    push_line(out, b"end_metric")
}

/// The number of facts, and then a line for each.
fn push_facts(out: &mut Vec<u8>, facts: &[Text]) -> Result<(), AllocError>
    ensures { OnOk result (out.new.items ≡ out.old.items ++ bytes_of (counted (λ fact. fact ∷ []) facts.now)) }
{
    push_number_line(out, facts.len() as u64)?;
    for fact in facts {
        push_line(out, fact.as_slice())?;
    }
    Ok(())
}

/// The line of a variable's name, which is made of its number.
fn push_name_line(out: &mut Vec<u8>, number: u64) -> Result<(), AllocError>
    ensures { OnOk result (out.new.items ≡ out.old.items ++ bytes_of ((codes "var" ++ numeral number) ∷ [])) }
{
    out.extend_from_slice(b"var")?;
    push_number_line(out, number)
}

/// The lines of the variable with this number.
fn push_variable(out: &mut Vec<u8>, number: u64, variable: &Variable) -> Result<(), AllocError>
    ensures { OnOk result (out.new.items ≡ out.old.items ++ bytes_of (variable_lines (number, variable.now))) }
{
    push_line(out, b"begin_variable")?;
    push_name_line(out, number)?;
    push_number_or_none_line(out, variable.layer)?;
    push_facts(out, variable.facts.as_slice())?;
    push_line(out, b"end_variable")
}

/// The number of variables, and then the lines of each.
pub(crate) fn push_variables(out: &mut Vec<u8>, task: &SasTask) -> Result<(), AllocError>
    ensures { OnOk result (out.new.items ≡ out.old.items ++ bytes_of (counted variable_lines (enumerate_from 0 task.now.variables))) }
{
    let count = task.variables();
    push_number_line(out, count)?;
    for i in 0..count {
        push_variable(out, i, task.variable(i))?;
    }
    Ok(())
}

/// The lines of a mutex group: its facts, as pairs, between two fixed words.
fn push_group(out: &mut Vec<u8>, group: &Group) -> Result<(), AllocError>
    ensures { OnOk result (out.new.items ≡ out.old.items ++ bytes_of (group_lines group.now)) }
{
    push_line(out, b"begin_mutex_group")?;
    push_pairs(out, group.facts.as_slice())?;
    push_line(out, b"end_mutex_group")
}

/// The number of mutex groups, and then the lines of each.
pub(crate) fn push_groups(out: &mut Vec<u8>, task: &SasTask) -> Result<(), AllocError>
    ensures { OnOk result (out.new.items ≡ out.old.items ++ bytes_of (counted group_lines task.now.groups)) }
{
    let count = task.groups();
    push_number_line(out, count)?;
    for i in 0..count {
        push_group(out, task.group(i))?;
    }
    Ok(())
}

/// The initial state: between two fixed words a line for each variable, in their order, with its value alone. A derived variable
/// shows its default value, from which rules take it.
pub(crate) fn push_state(out: &mut Vec<u8>, task: &SasTask) -> Result<(), AllocError>
    ensures { OnOk result (out.new.items ≡ out.old.items ++ bytes_of (state_lines task.now.state)) }
{
    is_valid(task);
    push_line(out, b"begin_state")?;
    for i in 0..task.variables() {
        push_number_line(out, task.state(i))?;
    }
    push_line(out, b"end_state")
}

/// The goal: between two fixed words the number of its pairs, which may be 0, and then a line for each, the variable and the value
/// that it is to have.
pub(crate) fn push_goal(out: &mut Vec<u8>, goal: &[Pair]) -> Result<(), AllocError>
    ensures { OnOk result (out.new.items ≡ out.old.items ++ bytes_of (goal_lines goal.now)) }
{
    push_line(out, b"begin_goal")?;
    push_pairs(out, goal)?;
    push_line(out, b"end_goal")
}
