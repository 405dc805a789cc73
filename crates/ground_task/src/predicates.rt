// Which predicates are derived.
ghost use Rattle.std.specs.Prelude.{◌≡◌};
ghost use Rattle.normal_task.specs.Meaning.{is_derived_among};

use normal_task::{Predicate, PredicateRow};

/// Whether the predicate is derived. A number that no predicate has is none.
pub fn is_derived(predicates: &[PredicateRow], predicate: Predicate) -> bool
    ensures { result ≡ is_derived_among predicates.now predicate }
{
    match predicates.get(predicate as usize) {
        Some(row) => row.derived,
        None => false,
    }
}
