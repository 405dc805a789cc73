// The first of the positions at which faults stand.
ghost use Rattle.std.specs.Prelude.{◌≡◌, ℕ, List, Option, Ok, IfOk};
ghost use Rattle.std.specs.Fn.{FnReturnsAt};
ghost use Rattle.std.specs.List.{flat_map};
ghost use Rattle.pddl_lexer.specs.declared.position.At.{At};
ghost use Rattle.fault_positions.specs.Positions as spec;
ghost use Rattle.fault_positions.specs.Positions.{earliest};

use pddl_lexer::At;
use std::alloc::AllocError;

/// The first position in the domain and the first position in the problem, where there is one.
pub type FirstPositions = (Option<At>, Option<At>);

/// The earlier of two positions that may be missing.
pub fn earlier(first: Option<At>, second: Option<At>) -> Option<At>
    ensures { result ≡ spec.earlier first second }
{
    match (first, second) {
        (None, second) => second,
        (first, None) => first,
        (Some(first), Some(second)) => Some(first.earlier_of(second)),
    }
}

/// The first position of all items, where this is the first position of one.
pub fn first_of<T, F: Fn(&T) -> Option<At>>(items: &[T], position_of: F) -> Option<At>
    requires { F.IsAlwaysCallable position_of }
    ensures { (positions_of : T → List At) → ((item : T) (at : Option At) → FnReturnsAt F.Fn position_of item at → at ≡ earliest (positions_of item)) → result ≡ earliest (flat_map positions_of items.now) }
{
    let mut first = None;
    for item in items {
        first = earlier(first, position_of(item));
    }
    first
}

/// The first position of all items, where an item's own is found with memory.
pub fn try_first_of<T, F: Fn(&T) -> Result<Option<At>, AllocError>>(
    items: &[T],
    position_of: F,
) -> Result<Option<At>, AllocError>
    requires { F.IsAlwaysCallable position_of }
    ensures { (positions_of : T → List At) → ((item : T) (at : Option At) → FnReturnsAt F.Fn position_of item (Ok at) → at ≡ earliest (positions_of item)) → IfOk result (λ first. first ≡ earliest (flat_map positions_of items.now)) }
{
    let mut first = None;
    for item in items {
        first = earlier(first, position_of(item)?);
    }
    Ok(first)
}
