//! A plan file, mapped back to the task.

ghost use Rattle.std.specs.Prelude.{◌≡◌, ◌≤◌, IfOk, IfErr, length};
ghost use Rattle.translator.specs.Ending.{Gives};
ghost use Rattle.translator.specs.Plan as plans;
ghost use Rattle.translator.specs.Stages.{StopsWhere, text_by};

use crate::translation::Input;
use lists::Stop;
use messages::{End, Message};
use plan_backmap::{PlanFault, mapped_text};
use sas_task::SasTask;
use std::alloc::Global;

/// The lines on a plan's steps and on what they cost, mapped back to the task's operators. The first faulty line ends
/// it, or want of memory.
pub(crate) fn mapped_lines<'n>(
    alloc: Global,
    plan: &Input<'n, '_>,
    task: &SasTask,
) -> Result<Vec<u8>, End<'n>>
    requires { length plan.now.bytes.now ≤ 67108864 }
    ensures ok { IfOk result (λ lines. plans.mapped_lines task.now (text_by plan.now) ≡ Gives lines.items) }
    ensures err { IfErr result (StopsWhere (plans.mapped_lines task.now (text_by plan.now))) }
{
    match mapped_text(alloc, task, plan.bytes) {
        Ok(lines) => Ok(lines),
        Err(Stop::Fault(PlanFault::BadLine(line))) => Err(End::Refused(
            plan.name,
            Message::BadPlanLine(line),
        )),
        Err(Stop::Fault(PlanFault::UnknownStep(line))) => {
            Err(End::Refused(plan.name, Message::UnknownStep(line)))
        }
        Err(Stop::NoMemory) => Err(End::NoMemory),
    }
}
