//! A long chain: each value of a variable leads to the next one, and the operators stand in reverse order, so that a
//! round over all of them would find one value.

use crate::projection::is_projected_to;
use std::alloc::{AllocError, Global};
use std::fmt::Write;
use std::test::*;

/// How many values the variable has.
const LENGTH: u64 = 20000;

/// The lines before the names of the values.
const BEFORE_VALUES: &str = "begin_version
3
end_version
begin_metric
1
end_metric
1
begin_variable
var0
-1
20000
";

/// The lines between them and the operators.
const BEFORE_STEPS: &str = "end_variable
0
begin_state
0
end_state
begin_goal
1
0 19999
end_goal
19999
";

/// Adds a line for each value. All have one name.
fn add_values(text: &mut String) -> Result<(), AllocError> {
    for _ in 0..LENGTH {
        text.push_str("x\n")?;
    }
    Ok(())
}

/// The value where the step at this place starts.
fn start(place: u64, reversed: bool) -> u64 {
    if reversed {
        (LENGTH - 2).saturating_sub(place)
    } else {
        place
    }
}

/// Adds the operators that lead from the first value to the last one, or the same in reverse order.
fn add_steps(text: &mut String, reversed: bool) -> Result<(), AllocError> {
    for place in 0..LENGTH - 1 {
        let from = start(place, reversed);
        let to = from.saturating_add(1);
        write!(
            text,
            "begin_operator\nx\n0\n1\n0 0 {from} {to}\n1\nend_operator\n"
        )?;
    }
    Ok(())
}

/// Adds the lines of the chain.
fn add_chain(text: &mut String, reversed: bool) -> Result<(), AllocError> {
    text.push_str(BEFORE_VALUES)?;
    add_values(text)?;
    text.push_str(BEFORE_STEPS)?;
    add_steps(text, reversed)?;
    text.push_str("0\n")
}

/// The text of the chain.
fn chain(alloc: Global, reversed: bool) -> Result<String, AllocError> {
    let mut text = String::new(alloc);
    add_chain(&mut text, reversed)?;
    Ok(text)
}

/// Each value is kept, and only the order of the operators changes.
#[test]
fn a_long_chain_is_put_in_order(rt: HostRuntime) -> Result<(), AllocError> {
    let reversed = chain(rt.alloc(), true)?;
    let ordered = chain(rt.alloc(), false)?;
    assert!(rt; is_projected_to(rt.alloc(), &reversed, &ordered)?);
    Ok(())
}
