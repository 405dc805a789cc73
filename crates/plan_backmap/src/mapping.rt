//! A plan file, line by line.

ghost use Rattle.std.specs.Prelude.{◌≡◌, ◌≤◌, ◌<◌, ◌^◌, [], ◌++◌, length, None, Some, IsOk, Err, IfOk, IfSome, OnOk};
ghost use Rattle.std.specs.Option.{option_to_list};
ghost use Rattle.lists.specs.Stops.{IfFault, UnlessNoMemory, IsFirst};
ghost use Rattle.plan_backmap.specs.declared.fault.PlanFault.{PlanFault};
ghost use Rattle.plan_backmap.specs.Lines.{plan_lines};
ghost use Rattle.plan_backmap.specs.Plans.{step_of, fault_of, faults, mapped, total};

use crate::costs::Costs;
use crate::fault::PlanFault;
use crate::lines::{after_line, first_line, inside, is_comment, is_step, name, trimmed, words};
use crate::plan::{Mapped, Step};
use lists::{List, Stop};
use sas_task::SasTask;
use std::alloc::{AllocError, Global};

/// The step of a trimmed line, if it is one.
pub(crate) fn step_of(
    alloc: Global,
    costs: &Costs,
    number: u64,
    line: &[u8],
) -> Result<Option<Step>, Stop<PlanFault>>
    ensures step { IfOk result (λ step. step ≡ step_of costs.now.operators line.now) }
    ensures small { IfOk result (λ step. IfSome step (λ step. step.cost ≤ 2147483647)) }
    ensures faultless { OnOk result (fault_of costs.now.operators number line.now ≡ None) }
    ensures fault { IfFault result (λ fault. fault_of costs.now.operators number line.now ≡ Some fault) }
{
    if is_comment(line) {
        return Ok(None);
    }
    if !is_step(line) {
        return Err(Stop::Fault(PlanFault::BadLine(number)));
    }
    let words = words(alloc, inside(line))?;
    let name = name(alloc, words.as_slice())?;
    match costs.cost(name.as_slice()) {
        Some(cost) => Ok(Some(Step { words, cost })),
        None => Err(Stop::Fault(PlanFault::UnknownStep(number))),
    }
}

/// What the step costs, if there is one.
pub(crate) fn step_cost(found: &Option<Step>) -> u64
    requires { IfSome found.now (λ step. step.cost ≤ 2147483647) }
    ensures cost { result ≡ total (option_to_list found.now) }
    ensures small { result ≤ 2147483647 }
{
    match found {
        Some(step) => step.cost,
        None => 0,
    }
}

/// Adds the step, if there is one.
fn add_step(steps: &mut Vec<Step>, found: Option<Step>) -> Result<(), AllocError>
    ensures { OnOk result (steps.new.items ≡ steps.old.items ++ option_to_list found) }
{
    if let Some(step) = found {
        steps.push(step)?;
    }
    Ok(())
}

/// The steps of a plan file, in one pass over its lines.
fn map_lines(alloc: Global, costs: &Costs, bytes: &[u8]) -> Result<Mapped, Stop<PlanFault>>
    requires { length bytes.now < 2 ^ 32 }
    ensures mapped { IfOk result (λ answer. answer ≡ mapped costs.now.operators (plan_lines bytes.now)) }
    ensures faultless { OnOk result (faults costs.now.operators (plan_lines bytes.now) ≡ []) }
    ensures first { IfFault result (IsFirst (faults costs.now.operators (plan_lines bytes.now))) }
{
    let mut steps = Vec::new(alloc);
    let mut total = 0;
    let mut number = 0;
    let mut rest = bytes;
    while let [_, ..] = rest {
        number += 1;
        let found = match step_of(alloc, costs, number, trimmed(first_line(rest))) {
            Ok(found) => found,
            Err(stop) => return Err(stop),
        };
        total += step_cost(&found);
        add_step(&mut steps, found)?;
        rest = after_line(rest);
    }
    Ok(Mapped {
        steps: List::from_vec(steps),
        total,
    })
}

/// Maps the steps of a plan file to the operators of a task: the words of each step, lowered, and what it costs.
///
/// A plan file has the form in which Fast Downward writes plans and VAL reads them. Lines end at line feeds, are
/// counted from 1, and count without the spaces, tabs and carriage returns at both ends. An empty line and one that
/// begins with `;` are comments. A step is `(`, words of bytes 33 to 126 without `(`, `)` and `;`, with spaces and tabs
/// around them, and `)`. Its name is its words, lowered and joined by single spaces, and its cost is that of the first
/// operator with the name. Every other line is a bad one, and a step whose name no operator has is unknown: the first
/// such line ends the mapping.
///
/// Whether the steps can be taken one after another, and reach the goal, isn't looked at.
#[tactic(auto, using(lists::proofs::Stops::is_answered, lists::proofs::Stops::is_fault))]
pub fn map_plan(alloc: Global, task: &SasTask, bytes: &[u8]) -> Result<Mapped, Stop<PlanFault>>
    requires { length bytes.now < 2 ^ 32 }
    // What is answered is the steps and their total cost.
    ensures mapped { IfOk result (λ answer. answer ≡ mapped task.now.operators (plan_lines bytes.now)) }
    // Only a plan without faulty lines is mapped.
    ensures faultless { OnOk result (faults task.now.operators (plan_lines bytes.now) ≡ []) }
    // A faulty line that is answered is the first.
    ensures first { IfFault result (IsFirst (faults task.now.operators (plan_lines bytes.now))) }

    // Unless memory runs out, a plan without faulty lines is mapped, and one with faulty lines gives the first.
    ensures ok { faults task.now.operators (plan_lines bytes.now) ≡ [] → UnlessNoMemory result (IsOk result) }
    ensures fault { (fault : PlanFault) → IsFirst (faults task.now.operators (plan_lines bytes.now)) fault
        → UnlessNoMemory result (result ≡ Err (Stop.Fault fault)) }
{
    let costs = Costs::of(alloc, task)?;
    map_lines(alloc, &costs, bytes)
}
