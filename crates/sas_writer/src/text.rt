//! The whole text.

ghost use Rattle.std.specs.Prelude.{◌≡◌, IfOk};
ghost use Rattle.sas_task.specs.Output as output;

use crate::operators::push_operators;
use crate::rules::push_rules;
use crate::sections::{
    push_goal, push_groups, push_metric, push_state, push_variables, push_version,
};
use sas_task::SasTask;
use std::alloc::{AllocError, Global};

/// The bytes of the output file for this task: the lines of its eight sections, each ended by a line feed.
pub fn text_of(alloc: Global, task: &SasTask) -> Result<Vec<u8>, AllocError>
    ensures { IfOk result (λ bytes. bytes.items ≡ output.text_of task.now) }
{
    let mut out = Vec::new(alloc);
    push_version(&mut out)?;
    push_metric(&mut out, task.metric())?;
    push_variables(&mut out, task)?;
    push_groups(&mut out, task)?;
    push_state(&mut out, task)?;
    push_goal(&mut out, task.goal())?;
    push_operators(alloc, &mut out, task)?;
    push_rules(&mut out, task)?;
    Ok(out)
}
