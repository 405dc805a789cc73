// Parts behind the variables of a quantified condition.
ghost use Rattle.std.specs.Prelude.{◌≡◌, map, IfOk};
ghost use Rattle.normal_task.specs.Numbers.{ranges_of};
ghost use Rattle.normal_task.specs.Parts as spec;

use crate::parts::with_variables;
use lists::List;
use normal_task::{ObjectRange, Part};
use numbering::Numbering;
use pddl_syntax::Typed;
use std::alloc::{AllocError, Global};

/// The parts behind some variables more.
pub fn behind_ranges(
    alloc: Global,
    numbering: &Numbering<'_>,
    variables: &[Typed],
    parts: List<Part>,
) -> Result<List<Part>, AllocError>
    ensures { IfOk result (λ all. all ≡ map (spec.with_variables (ranges_of numbering.now.domain numbering.now.problem variables.now)) parts) }
{
    let ranges = numbering.ranges(alloc, variables)?;
    all_behind(alloc, ranges.as_slice(), parts)
}

fn all_behind(
    alloc: Global,
    ranges: &[ObjectRange],
    parts: List<Part>,
) -> Result<List<Part>, AllocError>
    ensures { IfOk result (λ all. all ≡ map (spec.with_variables ranges.now) parts) }
{
    let mut all = Vec::new(alloc);
    for part in parts.into_vec() {
        all.push(with_variables(alloc, ranges, part)?)?;
    }
    Ok(List::from_vec(all))
}
