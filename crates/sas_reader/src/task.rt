//! The whole text.

ghost use Rattle.std.specs.Prelude.{◌≡◌, ◌<◌, ◌^◌, length, Some, None, Ok, Err, IsOk, IfOk, OnOk};
ghost use Rattle.sas_task.specs.Task.{Task};
ghost use Rattle.sas_task.specs.Valid.{IsValid};
ghost use Rattle.lists.specs.Stops.{IfFault, UnlessNoMemory};
ghost use Rattle.sas_reader.specs.Answers.{Tells};
ghost use Rattle.sas_reader.specs.Forms.{unread};
ghost use Rattle.sas_reader.specs.declared.fault.SasFault.{SasFault};
ghost use Rattle.sas_reader.specs.Text.{task, reading_of, line_fault, IsTextOf};

use crate::fault::{SasFault, SasPlace};
use crate::operators::operator_section;
use crate::reader::Reader;
use crate::rules::rule_section;
use crate::sections::{
    goal_section, group_section, metric, state_section, variable_section, version,
};
use lists::Stop;
use sas_task::SasTask;
use std::alloc::Global;

/// The task that the text gives by its sections.
#[tactic(auto, unfolding(crate::specs::Text::task))]
fn whole(alloc: Global, bytes: &[u8]) -> Result<SasTask, Stop<SasFault>>
    requires { length bytes.now < 2 ^ 32 }
    ensures { Tells result (task (unread bytes.now)) }
{
    let mut reader = Reader::new(bytes);
    version(&mut reader)?;
    reader.begin(SasPlace::Metric);
    let metric = metric(&mut reader)?;
    reader.begin(SasPlace::Variables);
    let variables = variable_section(alloc, &mut reader)?;
    reader.begin(SasPlace::Groups);
    let groups = group_section(alloc, &mut reader, variables.as_slice())?;
    reader.begin(SasPlace::State);
    let state = state_section(alloc, &mut reader, variables.as_slice())?;
    reader.begin(SasPlace::Goal);
    let goal = goal_section(alloc, &mut reader, variables.as_slice())?;
    reader.begin(SasPlace::Operators);
    let operators = operator_section(alloc, &mut reader, metric, variables.as_slice())?;
    reader.begin(SasPlace::Rules);
    let rules = rule_section(alloc, &mut reader, variables.as_slice(), state.as_slice())?;
    reader.begin(SasPlace::End);
    reader.end()?;
    Ok(SasTask::from_parts(metric, variables, groups, state, goal, operators, rules))
}

/// Reads the text of a task: the planner's output format, version 3, as this project writes it.
///
/// Each line must meet its rule, by the lines before it. A name of an operator may have one space more at its end.
pub fn read_task(alloc: Global, bytes: &[u8]) -> Result<SasTask, Stop<SasFault>>
    requires { length bytes.now < 2 ^ 32 }

    // What is read is the task of the text, but for spaces at the end of operators' names.
    ensures text { IfOk result (λ t. IsTextOf bytes.now t) }
    ensures read { IfOk result (λ t. reading_of bytes.now ≡ Ok t) }

    // Only a text whose every line meets its rule gives a task.
    ensures lawful { OnOk result (line_fault bytes.now ≡ None) }
    // A fault that comes is the first line that breaks its rule.
    ensures first { IfFault result (λ fault. line_fault bytes.now ≡ Some fault) }

    // Unless memory runs out, a text whose every line meets its rule gives a task, and another the first that doesn't.
    ensures ok { line_fault bytes.now ≡ None → UnlessNoMemory result (IsOk result) }
    ensures fault { (fault : SasFault) → line_fault bytes.now ≡ Some fault →
        UnlessNoMemory result (result ≡ Err (Stop.Fault fault)) }

    // The text of a valid task, but for a space at the end of some operators' names, is read as that task.
    ensures again { (t : Task) → IsValid t → IsTextOf bytes.now t → UnlessNoMemory result (result ≡ Ok t) }
{
    whole(alloc, bytes)
}
