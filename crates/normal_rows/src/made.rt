// Things that are made, with the new predicates that they need.
ghost use Rattle.std.specs.Prelude.{◌≡◌, ◌++◌, [], IfOk};
ghost use Rattle.normal_task.specs.declared.parts.Fresh as fresh_type;

use lists::List;
use normal_task::Fresh;
use std::alloc::{AllocError, Global};

/// What comes of something, and the new predicates that it needs, in the order of their numbers.
#[derive(Drop)]
pub struct Made<T> {
    pub items: List<T>,
    pub fresh: List<Fresh>,
}

/// Nothing.
pub fn nothing_made<T>(alloc: Global) -> Made<T>
    ensures { (result.items ≡ []) × (result.fresh ≡ []) }
{
    Made {
        items: List::from_vec(Vec::new(alloc)),
        fresh: List::from_vec(Vec::new(alloc)),
    }
}

/// The first list, and the second behind it.
pub fn joined_lists<T: Drop>(first: List<T>, second: List<T>) -> Result<List<T>, AllocError>
    ensures { IfOk result (λ all. all ≡ first ++ second) }
{
    let mut all = first.into_vec();
    all.append(&mut second.into_vec())?;
    Ok(List::from_vec(all))
}

/// What was made first, and the second behind it.
pub fn made_behind<T: Drop>(first: Made<T>, second: Made<T>) -> Result<Made<T>, AllocError>
    ensures { IfOk result (λ made. (made.items ≡ first.items ++ second.items) × (made.fresh ≡ first.fresh ++ second.fresh)) }
{
    let items = joined_lists(first.items, second.items)?;
    let fresh = joined_lists(first.fresh, second.fresh)?;
    Ok(Made { items, fresh })
}
