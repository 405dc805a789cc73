//! Tasks that are their own projections, since each value of each variable is kept.

use crate::tasks::{ROOM, SWITCH, has_text, task_of};
use std::alloc::{AllocError, Global};
use std::test::*;
use task_simplifier::simplify;

/// Whether the projection of the first text's task has the second text.
pub(crate) fn is_projected_to(alloc: Global, text: &str, wanted: &str) -> Result<bool, AllocError> {
    let new = simplify(alloc, task_of(alloc, text.as_bytes())?)?;
    has_text(alloc, new, wanted.as_bytes())
}

#[test]
fn the_room_and_the_switch_are_their_own_projections(rt: HostRuntime) {
    for text in [ROOM, SWITCH] {
        let answer = is_projected_to(rt.alloc(), text, text);
        assert!(rt; matches!(answer, Ok(true)), "{text}");
    }
}
