// The new predicate of a quantified condition.
ghost use Rattle.std.specs.Prelude.{◌≡◌, ◌∷◌, map, IfOk};

use crate::made::Made;
use crate::slots::ranges_of;
use crate::variable::Variable;
use lists::List;
use normal_task::{Fresh, Part};
use std::alloc::{AllocError, Global};

/// A new derived predicate with these arguments, whose axioms have these parts, before the others that they need.
pub fn with_fresh(
    alloc: Global,
    arguments: &[Variable<'_, '_>],
    body: Made<Part>,
) -> Result<List<Fresh>, AllocError>
    ensures { IfOk result (λ fresh. fresh ≡ record { arguments = map (λ slot. slot.range) arguments.now; parts = body.items } ∷ body.fresh) }
{
    let arguments = ranges_of(alloc, arguments)?;
    let first = Fresh {
        arguments,
        parts: body.items,
    };
    let mut fresh = vec![in alloc; first]?;
    fresh.append(&mut body.fresh.into_vec())?;
    Ok(List::from_vec(fresh))
}
