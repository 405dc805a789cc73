//! The lines of a mapped plan, written as the plan file is read.

ghost use Rattle.std.specs.Prelude.{◌≡◌, ◌≤◌, ◌<◌, ◌^◌, [], ◌++◌, flat_map, length, Some, IsOk, Err, IfOk, OnOk};
ghost use Rattle.std.specs.Option.{option_to_list};
ghost use Rattle.lists.specs.Stops.{IfFault, UnlessNoMemory, IsFirst};
ghost use Rattle.plan_backmap.specs.declared.fault.PlanFault.{PlanFault};
ghost use Rattle.plan_backmap.specs.Lines.{plan_lines};
ghost use Rattle.plan_backmap.specs.PlanText.{step_line, plan_text};
ghost use Rattle.plan_backmap.specs.Plans.{faults, mapped, steps, total};

use crate::costs::Costs;
use crate::fault::PlanFault;
use crate::lines::{after_line, first_line, trimmed};
use crate::mapping::{step_cost, step_of};
use crate::plan::Step;
use crate::text::{push_cost, push_step};
use lists::Stop;
use sas_task::SasTask;
use std::alloc::{AllocError, Global};

/// Appends the line of the step, if there is one.
fn push_found(alloc: Global, text: &mut Vec<u8>, found: &Option<Step>) -> Result<(), AllocError>
    ensures { OnOk result (text.new.items ≡ text.old.items ++ flat_map step_line (option_to_list found.now)) }
{
    match found {
        Some(step) => push_step(alloc, text, step),
        None => Ok(()),
    }
}

/// Writes the lines of a plan file's steps, in one pass over its lines, and answers what the steps cost together.
fn push_lines(
    alloc: Global,
    text: &mut Vec<u8>,
    costs: &Costs,
    bytes: &[u8],
) -> Result<u64, Stop<PlanFault>>
    requires { length bytes.now < 2 ^ 32 }
    ensures written { OnOk result (text.new.items ≡ text.old.items ++ flat_map step_line (steps costs.now.operators (plan_lines bytes.now))) }
    ensures total { IfOk result (λ answer. answer ≡ total (steps costs.now.operators (plan_lines bytes.now))) }
    ensures faultless { OnOk result (faults costs.now.operators (plan_lines bytes.now) ≡ []) }
    ensures first { IfFault result (IsFirst (faults costs.now.operators (plan_lines bytes.now))) }
{
    let mut total = 0;
    let mut number = 0;
    let mut rest = bytes;
    while let [_, ..] = rest {
        number += 1;
        let found = match step_of(alloc, costs, number, trimmed(first_line(rest))) {
            Ok(found) => found,
            Err(stop) => return Err(stop),
        };
        total += step_cost(&found);
        push_found(alloc, text, &found)?;
        rest = after_line(rest);
    }
    Ok(total)
}

/// The text of a plan file's steps, mapped to the operators of a task as by `map_plan`. A step's line is written as soon as
/// it is read, and none of its words is kept.
#[tactic(auto, using(lists::proofs::Stops::is_answered, lists::proofs::Stops::is_fault))]
pub fn mapped_text(alloc: Global, task: &SasTask, bytes: &[u8]) -> Result<Vec<u8>, Stop<PlanFault>>
    requires { length bytes.now < 2 ^ 32 }
    // What is answered is the text of the mapped plan.
    ensures text { IfOk result (λ text. text.items ≡ plan_text task.now.metric (mapped task.now.operators (plan_lines bytes.now))) }
    // Only a plan without faulty lines is mapped.
    ensures faultless { OnOk result (faults task.now.operators (plan_lines bytes.now) ≡ []) }
    // A faulty line that is answered is the first.
    ensures first { IfFault result (IsFirst (faults task.now.operators (plan_lines bytes.now))) }

    // Unless memory runs out, a plan without faulty lines is mapped, and one with faulty lines gives the first.
    ensures ok { faults task.now.operators (plan_lines bytes.now) ≡ [] → UnlessNoMemory result (IsOk result) }
    ensures fault { (fault : PlanFault) → IsFirst (faults task.now.operators (plan_lines bytes.now)) fault
        → UnlessNoMemory result (result ≡ Err (Stop.Fault fault)) }
{
    let costs = Costs::of(alloc, task)?;
    let mut text = Vec::new(alloc);
    let total = push_lines(alloc, &mut text, &costs, bytes)?;
    push_cost(&mut text, task.metric(), total)?;
    Ok(text)
}
