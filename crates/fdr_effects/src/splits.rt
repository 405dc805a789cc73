// The split of literals.

ghost use Rattle.std.specs.Prelude.{ℕ, List as Numbers, ◌≡◌, ◌++◌, [], ◌==◌, ◌||◌, ◌+◌, ◌<◌, length, map, nat_lt, All, IfOk};
ghost use Rattle.std.specs.List.{list_any, list_all, flat_map, IsAllAdjacentAnswer};
ghost use Rattle.std.specs.List.Sorted.{IsPermutation, IsNonDecreasingBy, IsStrictlyIncreasing};
ghost use Rattle.sas_task.specs.Pairs.{pair};
ghost use Rattle.fdr_effects.specs.Places.{last_value};
ghost use Rattle.fdr_effects.specs.Marks.{values_marked};
ghost use Rattle.std.specs.Vec.{vec_len};
ghost use Rattle.itertools.specs.Odometer.{ways};
ghost use Rattle.itertools.specs.Pool.{multi_can, multi_left, sizes_high, pool_sizes};
ghost use Rattle.fdr_effects.specs.Split as words;

use crate::index::Index;
use crate::on::on;
use crate::pools::pool;
use ground_task::Cond;
use itertools::{Itertools, MultiProduct};
use lists::List;
use reached_task::FactNumber;
use sas_task::{Pair, Var};
use std::alloc::{AllocError, Global};

/// Marks by variable.
pub(crate) fn by_variable(marks: Vec<Pair>) -> Vec<Pair>
    ensures same { IsPermutation marks.items result.items }
    ensures in_order { IsNonDecreasingBy (λ p. p.var) result.items }
{
    let mut marks = marks;
    marks.sort_unstable_by_key(|place| place.var);
    marks
}

/// The variables of the marks, in order.
fn marked_variables(alloc: Global, wanted: &[Pair], barred: &[Pair]) -> Result<Vec<Var>, AllocError>
    ensures in_order { IfOk result (λ vars. IsStrictlyIncreasing vars.items) }
    ensures marked { IfOk result (λ vars. (var : ℕ) → list_any (λ v. v == var) vars.items ≡ (list_any (λ p. p.var == var) wanted.now || list_any (λ p. p.var == var) barred.now)) }
{
    let mut vars = variables(alloc, wanted, barred)?;
    vars.sort_unstable();
    vars.dedup();
    Ok(vars)
}

fn variables(alloc: Global, wanted: &[Pair], barred: &[Pair]) -> Result<Vec<Var>, AllocError>
    ensures { IfOk result (λ vars. vars.items ≡ map (λ p. p.var) (wanted.now ++ barred.now)) }
{
    wanted
        .iter()
        .chain(barred)
        .map(|place| place.var)
        .collect(alloc)
}

/// Whether each place is of a later variable than the one before it.
fn rise(places: &[Pair]) -> bool
    ensures { IsAllAdjacentAnswer (λ front back is_before. is_before ≡ nat_lt front.var back.var) places.now result }
{
    places.is_sorted_by(|front, back| front.var < back.var)
}

/// The split of literals. Each member stands by variable. Mostly each literal is positive and has a variable of its own, and
/// then their places are the one member.
pub fn split(
    alloc: Global,
    index: &Index,
    literals: &Cond<FactNumber>,
) -> Result<Vec<List<Pair>>, AllocError>
    ensures split { IfOk result (λ all. all.items ≡ words.split index.now literals.now) }
    ensures by_variable { IfOk result (λ all. All (IsNonDecreasingBy (λ p. p.var)) all.items) }
{
    let wanted = by_variable(index.all_places(alloc, literals.positive.as_slice())?);
    if literals.negative.as_slice().is_empty() && rise(wanted.as_slice()) {
        let one = vec![in alloc; List::from_vec(wanted)]?;
        return Ok(one);
    }
    let barred = by_variable(index.first_places(alloc, literals.negative.as_slice())?);
    let vars = marked_variables(alloc, wanted.as_slice(), barred.as_slice())?;
    let pools = pools(
        alloc,
        index,
        wanted.as_slice(),
        barred.as_slice(),
        vars.as_slice(),
    )?;
    combinations(alloc, pools)
}

/// For each variable its pairs with the values that its marks leave.
fn pools(
    alloc: Global,
    index: &Index,
    wanted: &[Pair],
    barred: &[Pair],
    vars: &[u64],
) -> Result<Vec<Vec<Pair>>, AllocError>
    requires wanted_in_order { IsNonDecreasingBy (λ p. p.var) wanted.now }
    requires barred_in_order { IsNonDecreasingBy (λ p. p.var) barred.now }
    requires wanted_fit { All (λ p. p.val < last_value index.now p.var + 1) wanted.now }
    requires barred_fit { All (λ p. p.val < last_value index.now p.var + 1) barred.now }
    ensures { IfOk result (λ pools. map (λ pool. pool.items) pools.items ≡ map (λ var. map (pair var) (values_marked index.now wanted.now barred.now var)) vars.now) }
{
    let mut pools = Vec::new(alloc);
    for var in vars {
        pools.push(pool_at(alloc, index, wanted, barred, *var)?)?;
    }
    Ok(pools)
}

fn pool_at(
    alloc: Global,
    index: &Index,
    wanted: &[Pair],
    barred: &[Pair],
    var: Var,
) -> Result<Vec<Pair>, AllocError>
    requires wanted_in_order { IsNonDecreasingBy (λ p. p.var) wanted.now }
    requires barred_in_order { IsNonDecreasingBy (λ p. p.var) barred.now }
    requires wanted_fit { All (λ p. p.val < last_value index.now p.var + 1) wanted.now }
    requires barred_fit { All (λ p. p.val < last_value index.now p.var + 1) barred.now }
    ensures { IfOk result (λ pool. pool.items ≡ map (pair var) (values_marked index.now wanted.now barred.now var)) }
{
    pool(
        alloc,
        var,
        index.values(var),
        on(wanted, var),
        on(barred, var),
    )
}

/// The ways to take one pair from each pool, the last changing fastest.
fn ways_through(
    alloc: Global,
    pools: Vec<Vec<Pair>>,
) -> Result<MultiProduct<Pair, Global>, AllocError>
    ensures can { IfOk result multi_can }
    ensures pools { IfOk result (λ made. map (λ pool. pool.items) made.pools.items ≡ map (λ pool. pool.items) pools.items) }
    ensures places { IfOk result (λ made. multi_left made ≡ ways (λ _. 0) (sizes_high (pool_sizes made.pools.items)) (vec_len made.pools) []) }
{
    pools.into_iter().multi_cartesian_product(alloc)
}

/// Whether there is one pair in each pool.
fn are_single(pools: &[Vec<Pair>]) -> bool
    ensures { result ≡ list_all (λ pool. length pool.items == 1) pools.now }
{
    pools.iter().all(|pool| pool.len() == 1)
}

/// The pairs of all pools.
fn pairs_of_all(alloc: Global, pools: &[Vec<Pair>]) -> Result<List<Pair>, AllocError>
    ensures { IfOk result (λ all. all ≡ flat_map (λ pool. pool.items) pools.now) }
{
    let mut all = Vec::with_capacity(alloc, pools.len())?;
    for pool in pools {
        all.extend_from_slice(pool.as_slice())?;
    }
    Ok(List::from_vec(all))
}

/// All ways to take one pair from each pool, the last changing fastest. Mostly there is one pair in each, and so one way.
fn combinations(alloc: Global, pools: Vec<Vec<Pair>>) -> Result<Vec<List<Pair>>, AllocError>
    ensures { (values : ℕ → Numbers ℕ) (vars : Numbers ℕ) →
        map (λ pool. pool.items) pools.items ≡ map (λ var. map (pair var) (values var)) vars →
        IfOk result (λ all. all.items ≡ words.combinations values vars) }
{
    if !are_single(pools.as_slice()) {
        return product_of(alloc, pools);
    }
    let one = pairs_of_all(alloc, pools.as_slice())?;
    let all = vec![in alloc; one]?;
    Ok(all)
}

/// All ways to take one pair from each pool, the last changing fastest.
fn product_of(alloc: Global, pools: Vec<Vec<Pair>>) -> Result<Vec<List<Pair>>, AllocError>
    ensures { (values : ℕ → Numbers ℕ) (vars : Numbers ℕ) →
        map (λ pool. pool.items) pools.items ≡ map (λ var. map (pair var) (values var)) vars →
        IfOk result (λ all. all.items ≡ words.combinations values vars) }
{
    let mut all = Vec::new(alloc);
    for member in ways_through(alloc, pools)? {
        all.push(List::from_vec(member?))?;
    }
    Ok(all)
}
