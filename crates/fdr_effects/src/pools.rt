// The values that the marks on a variable leave to it.

ghost use Rattle.std.specs.Prelude.{◌≡◌, ◌==◌, ◌∷◌, [], ◌<◌, false, not, map, slice_index_or, All, IfOk, if◌then◌else◌};
ghost use Rattle.std.specs.List.{filter, list_all, range_with_len};
ghost use Rattle.sas_task.specs.Pairs.{pair};
ghost use Rattle.fdr_effects.specs.Marks as words;

use crate::flags::{flags, is_set};
use sas_task::{Pair, Value, Var};
use std::alloc::{AllocError, Global};

/// The pairs of a variable with each of so many values that its marks leave. Where no value is wanted, the time is
/// linear in the number of values, and else in the number of marks.
pub(crate) fn pool(
    alloc: Global,
    var: Var,
    values: u64,
    wanted: &[Pair],
    barred: &[Pair],
) -> Result<Vec<Pair>, AllocError>
    requires wanted { All (λ p. p.val < values) wanted.now }
    requires barred { All (λ p. p.val < values) barred.now }
    ensures { IfOk result (λ pool. pool.items ≡ words.pool var values wanted.now barred.now) }
{
    match wanted.first() {
        Some(place) => wanted_value(alloc, var, place.val, wanted, barred),
        None => other_values(alloc, var, values, barred),
    }
}

fn all_on(marks: &[Pair], val: Value) -> bool
    ensures { result ≡ list_all (λ p. p.val == val) marks.now }
{
    marks.iter().all(|place| place.val == val)
}

fn none_on(marks: &[Pair], val: Value) -> bool
    ensures { result ≡ list_all (λ p. not (p.val == val)) marks.now }
{
    marks.iter().all(|place| place.val != val)
}

/// Whether the marks leave the value.
fn leaves(wanted: &[Pair], barred: &[Pair], val: Value) -> bool
    ensures { result ≡ words.leaves wanted.now barred.now val }
{
    all_on(wanted, val) && none_on(barred, val)
}

/// The pair of the variable with the value, if the marks leave it.
fn wanted_value(
    alloc: Global,
    var: Var,
    val: Value,
    wanted: &[Pair],
    barred: &[Pair],
) -> Result<Vec<Pair>, AllocError>
    ensures { IfOk result (λ pool. pool.items ≡ (if words.leaves wanted.now barred.now val then pair var val ∷ [] else [])) }
{
    let mut pool = Vec::new(alloc);
    if leaves(wanted, barred, val) {
        pool.push(Pair { var, val })?;
    }
    Ok(pool)
}

/// The pairs of the variable with the values that aren't barred.
fn other_values(
    alloc: Global,
    var: Var,
    values: u64,
    barred: &[Pair],
) -> Result<Vec<Pair>, AllocError>
    requires { All (λ p. p.val < values) barred.now }
    ensures { IfOk result (λ pool. pool.items ≡ words.pool var values [] barred.now) }
{
    let barred = values_of(alloc, barred)?;
    let is_barred = flags(alloc, barred.as_slice(), values as usize)?;
    unset_pairs(alloc, var, values, is_barred.as_slice())
}

fn values_of(alloc: Global, marks: &[Pair]) -> Result<Vec<Value>, AllocError>
    ensures { IfOk result (λ values. values.items ≡ map (λ p. p.val) marks.now) }
{
    marks.iter().map(|place| place.val).collect(alloc)
}

/// The pairs of the variable with the values whose flag isn't set.
fn unset_pairs(
    alloc: Global,
    var: Var,
    values: u64,
    flags: &[bool],
) -> Result<Vec<Pair>, AllocError>
    ensures { IfOk result (λ pool. pool.items ≡ map (pair var) (filter (λ val. not (slice_index_or flags.now val false)) (range_with_len 0 values))) }
{
    (0..values)
        .filter(|val| !is_set(flags, *val))
        .map(|val| Pair { var, val })
        .collect(alloc)
}
