// The candidates of one part, where a part stands among others, and the atoms that effects add.
ghost use Rattle.std.specs.Prelude.{◌≡◌, ◌++◌, ◌&&◌, nat_eq, nat_lt, map, IfOk, OnOk};
ghost use Rattle.std.specs.List.{position};
ghost use Rattle.contradictions.specs.Contradictory as terms;
ghost use Rattle.contradictions.specs.Merges.{have_one_leader};
ghost use Rattle.invariant_check.specs.Extensions as spec;

use contradictions::{Candidate, Part, TermPair, are_same};
use lists::List;
use normal_task::{EffectRow, Normal, Place, Predicate};
use std::alloc::{AllocError, Global};

/// How many arguments the predicate has; none where there is no such predicate.
pub(crate) fn arity_of(normal: &Normal, predicate: Predicate) -> u64
    ensures { result ≡ spec.arity_of normal.now predicate }
{
    match normal.predicates.as_slice().get(predicate as usize) {
        Some(row) => row.arity,
        None => 0,
    }
}

fn is_counted(counted: Option<u64>, position: u64) -> bool
    ensures { result ≡ spec.is_counted counted position }
{
    match counted {
        Some(own) => position == own,
        None => false,
    }
}

/// The argument positions that are left to the parameters: all but the counted one.
pub(crate) fn left_by(
    alloc: Global,
    arity: u64,
    counted: Option<u64>,
) -> Result<Vec<u64>, AllocError>
    ensures { IfOk result (λ positions. positions.items ≡ spec.left_by arity counted) }
{
    (0..arity)
        .filter(|position| !is_counted(counted, *position))
        .collect(alloc)
}

/// The candidate with one part, each position but the counted one a parameter in its turn.
fn with_one(
    alloc: Global,
    predicate: Predicate,
    arity: u64,
    counted: Option<u64>,
) -> Result<Candidate, AllocError>
    ensures { IfOk result (λ candidate. candidate ≡ spec.with_one predicate arity counted) }
{
    let places = left_by(alloc, arity, counted)?;
    let parameters = places.len() as u64;
    let mut parts = Vec::new(alloc);
    parts.push(Part {
        predicate,
        places: List::from_vec(places),
        counted,
    })?;
    Ok(Candidate {
        parameters,
        parts: List::from_vec(parts),
    })
}

/// The candidates of one predicate: with no counted position, and then by the counted one.
pub(crate) fn push_candidates(
    alloc: Global,
    candidates: &mut Vec<Candidate>,
    normal: &Normal,
    predicate: Predicate,
) -> Result<(), AllocError>
    ensures { OnOk result (candidates.new.items ≡ candidates.old.items ++ map (spec.with_one predicate (spec.arity_of normal.now predicate)) (spec.countings (spec.arity_of normal.now predicate))) }
{
    let arity = arity_of(normal, predicate);
    candidates.push(with_one(alloc, predicate, arity, None)?)?;
    for position in 0..arity {
        candidates.push(with_one(alloc, predicate, arity, Some(position))?)?;
    }
    Ok(())
}

/// Where the first of the parts stands that have a higher predicate.
pub(crate) fn first_above(parts: &[Part], predicate: Predicate) -> Option<usize>
    ensures { result ≡ position (λ other. nat_lt predicate other.predicate) parts.now }
{
    parts.iter().position(|other| predicate < other.predicate)
}

/// The atom of an add effect.
#[derive(Clone, Copy)]
pub(crate) struct AddedAtom<'a> {
    pub predicate: Predicate,
    pub places: &'a [Place],
}

/// The two are one atom, by the classes that the merges tell.
pub(crate) fn are_one(merges: &[TermPair], one: &AddedAtom<'_>, other: &AddedAtom<'_>) -> bool
    ensures { result ≡ (nat_eq one.now.predicate other.now.predicate && terms.are_same_terms (have_one_leader merges.now) one.now.places.now other.now.places.now) }
{
    one.predicate == other.predicate && are_same(merges, one.places, other.places)
}

/// The effect adds atoms of the predicate.
pub(crate) fn is_add_of(row: &EffectRow, predicate: Predicate) -> bool
    ensures { result ≡ (row.now.adds && nat_eq row.now.predicate predicate) }
{
    row.adds && row.predicate == predicate
}
