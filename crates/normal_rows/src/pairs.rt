// Pairings of parts.
ghost use Rattle.std.specs.Prelude.{◌≡◌, ◌++◌, map, IfOk, OnOk};
ghost use Rattle.normal_task.specs.Parts as spec;

use crate::parts::{extended, joined};
use lists::List;
use normal_task::Part;
use std::alloc::{AllocError, Global};

/// Every pairing, the second varying fastest. Where there is only one second part, the first ones grow in place, so that
/// the time is linear in what they grow by.
pub fn paired(
    alloc: Global,
    around: u64,
    firsts: List<Part>,
    seconds: &[Part],
) -> Result<List<Part>, AllocError>
    ensures { IfOk result (λ all. all ≡ spec.paired around firsts seconds.now) }
{
    match seconds {
        [second] => all_extended(alloc, around, firsts, second),
        _ => all_joined(alloc, around, firsts.as_slice(), seconds),
    }
}

/// Each of the first parts with the second one joined to it.
fn all_extended(
    alloc: Global,
    around: u64,
    firsts: List<Part>,
    second: &Part,
) -> Result<List<Part>, AllocError>
    ensures { IfOk result (λ all. all ≡ map (λ first. spec.joined around first second.now) firsts) }
{
    let mut all = Vec::new(alloc);
    for first in firsts.into_vec() {
        all.push(extended(around, first, second)?)?;
    }
    Ok(List::from_vec(all))
}

fn all_joined(
    alloc: Global,
    around: u64,
    firsts: &[Part],
    seconds: &[Part],
) -> Result<List<Part>, AllocError>
    ensures { IfOk result (λ all. all ≡ spec.paired around firsts.now seconds.now) }
{
    let mut all = Vec::new(alloc);
    for first in firsts {
        push_joined(&mut all, around, first, seconds)?;
    }
    Ok(List::from_vec(all))
}

fn push_joined(
    all: &mut Vec<Part>,
    around: u64,
    first: &Part,
    seconds: &[Part],
) -> Result<(), AllocError>
    ensures { OnOk result (all.new.items ≡ all.old.items ++ map (spec.joined around first.now) seconds.now) }
{
    for second in seconds {
        all.push(joined(*all.allocator(), around, first, second)?)?;
    }
    Ok(())
}
