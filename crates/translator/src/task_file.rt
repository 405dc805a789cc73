//! A written task, read back.

ghost use Rattle.std.specs.Prelude.{◌≡◌, ◌≤◌, IfOk, IfErr, length};
ghost use Rattle.translator.specs.Ending.{Gives};
ghost use Rattle.translator.specs.Run.{of_task_text};
ghost use Rattle.run_task.specs.RunTask as run_task;
ghost use Rattle.translator.specs.Stages.{StopsWhere, text_by};

use crate::translation::Input;
use invariant_guess::Found;
use lists::{List, Stop};
use messages::{End, Message};
use sas_reader::read_task;
use sas_task::SasTask;
use std::alloc::Global;

/// The task that is written in a text. The first line that breaks its rule ends it, or want of memory.
pub(crate) fn written_task<'n>(alloc: Global, text: &Input<'n, '_>) -> Result<SasTask, End<'n>>
    requires { length text.now.bytes.now ≤ 67108864 }
    ensures ok { IfOk result (λ task. of_task_text (text_by text.now) ≡ Gives (run_task.FromTask task)) }
    ensures err { IfErr result (StopsWhere (of_task_text (text_by text.now))) }
{
    match read_task(alloc, text.bytes) {
        Ok(task) => Ok(task),
        Err(Stop::Fault(fault)) => Err(End::Refused(text.name, Message::TaskLine(fault))),
        Err(Stop::NoMemory) => Err(End::NoMemory),
    }
}

/// What is found where no invariants are searched for.
pub(crate) fn nothing_found(alloc: Global) -> Found
    ensures { result ≡ run_task.nothing_found }
{
    Found {
        tried: 0,
        accepted: List::from_vec(Vec::new(alloc)),
    }
}
