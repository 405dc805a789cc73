// The mutex groups.

ghost use Rattle.std.specs.Prelude.{◌≡◌, ◌++◌, ◌∷◌, [], nat_le, length, All, IfOk, OnOk, if◌then◌else◌};
ghost use Rattle.std.specs.List.Sorted.{IsStrictlyIncreasing};
ghost use Rattle.fdr_effects.specs.Groups as parts;

use crate::index::Index;
use lists::List;
use sas_task::{Group, arrange};
use std::alloc::{AllocError, Global};

/// The group's facts, each by its first place.
fn group(alloc: Global, index: &Index, facts: &[u64]) -> Result<Group, AllocError>
    requires { All IsStrictlyIncreasing index.now }
    ensures { IfOk result (λ group. group ≡ parts.group_of index.now facts.now) }
{
    let places = index.first_places(alloc, facts)?;
    let in_order = arrange(true, places)?;
    Ok(Group {
        facts: List::from_vec(in_order),
    })
}

fn push_group(
    alloc: Global,
    out: &mut Vec<Group>,
    index: &Index,
    facts: &[u64],
) -> Result<(), AllocError>
    requires { All IsStrictlyIncreasing index.now }
    ensures { OnOk result (out.new.items ≡ out.old.items ++ (if nat_le 2 (length facts.now) then parts.group_of index.now facts.now ∷ [] else [])) }
{
    if facts.len() >= 2 {
        out.push(group(alloc, index, facts)?)?;
    }
    Ok(())
}

/// The groups of at least two facts.
pub fn groups(alloc: Global, index: &Index, groups: &[List<u64>]) -> Result<List<Group>, AllocError>
    requires { All IsStrictlyIncreasing index.now }
    ensures { IfOk result (λ all. all ≡ parts.groups_of index.now groups.now) }
{
    let mut all = Vec::new(alloc);
    for facts in groups {
        push_group(alloc, &mut all, index, facts.as_slice())?;
    }
    Ok(List::from_vec(all))
}
