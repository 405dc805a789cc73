//! The lines of a plan that is mapped back.

ghost use Rattle.std.specs.Prelude.{◌≡◌, ◌++◌, IfOk, OnOk};
ghost use Rattle.plan_backmap.specs.PlanText as spec;

use crate::lines::name;
use crate::plan::{Mapped, Step};
use itoa::Buffer;
use std::alloc::{AllocError, Global};

/// The text of a mapped plan: a line `(name arg arg)` for each step, and `; cost = TOTAL (general cost)` where
/// operators have costs of their own, or else `; cost = TOTAL (unit cost)`.
pub fn plan_text(alloc: Global, plan: &Mapped, metric: bool) -> Result<Vec<u8>, AllocError>
    ensures { IfOk result (λ text. text.items ≡ spec.plan_text metric plan.now) }
{
    let mut text = Vec::new(alloc);
    for step in plan.steps.as_slice() {
        push_step(alloc, &mut text, step)?;
    }
    push_cost(&mut text, metric, plan.total)?;
    Ok(text)
}

/// Appends the line of a step.
pub(crate) fn push_step(alloc: Global, text: &mut Vec<u8>, step: &Step) -> Result<(), AllocError>
    ensures { OnOk result (text.new.items ≡ text.old.items ++ spec.step_line step.now) }
{
    let name = name(alloc, step.words.as_slice())?;
    text.push(b'(')?;
    text.extend_from_slice(name.as_slice())?;
    text.extend_from_slice(b")\n")
}

/// Appends the last line, on what the steps cost together.
pub(crate) fn push_cost(text: &mut Vec<u8>, metric: bool, total: u64) -> Result<(), AllocError>
    ensures { OnOk result (text.new.items ≡ text.old.items ++ spec.cost_line metric total) }
{
    text.extend_from_slice(b"; cost = ")?;
    text.extend_from_slice(Buffer::new().format(total).as_bytes())?;
    text.extend_from_slice(kind_of_cost(metric))
}

/// How the last line ends.
fn kind_of_cost(metric: bool) -> &'static [u8]
    ensures { result.now ≡ spec.kind_of_cost metric }
{
    if metric {
        b" (general cost)\n"
    } else {
        b" (unit cost)\n"
    }
}
