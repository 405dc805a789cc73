// The search for invariants.
ghost use Rattle.std.specs.Prelude.{◌≡◌, ◌++◌, ◌∷◌, [], filter, IfOk, OnOk};
ghost use Rattle.indexmap.specs.IndexSet.{insert_all};
ghost use Rattle.invariant_check.specs.Accepted.{is_accepted};
ghost use Rattle.invariant_guess.specs.Trial as trial;

use crate::types::Found;
use contradictions::Candidate;
use indexmap::IndexSet;
use invariant_check::{AddTable, Verdict, check_with, one_predicate, repairs};
use lists::List;
use normal_task::Normal;
use std::alloc::{AllocError, Global};

/// Tries a candidate: an accepted one is kept, and the repairs of one that isn't balanced are answered.
fn try_one(
    alloc: Global,
    table: &AddTable<'_>,
    candidate: &Candidate,
    accepted: &mut Vec<Candidate>,
) -> Result<List<Candidate>, AllocError>
    ensures repairs { IfOk result (λ repairs. repairs ≡ trial.repairs table.now.normal.now candidate.now) }
    ensures kept { OnOk result (accepted.new.items ≡ accepted.old.items ++ filter (is_accepted table.now.normal.now) (candidate.now ∷ [])) }
{
    match check_with(alloc, table, candidate)? {
        Verdict::Accepted => {
            accepted.push(candidate.copy(alloc)?)?;
            Ok(List::from_vec(Vec::new(alloc)))
        }
        Verdict::Dropped => Ok(List::from_vec(Vec::new(alloc))),
        Verdict::Unbalanced(place) => repairs(alloc, table.normal, candidate, place),
    }
}

/// Adds those of the candidates that aren't in the queue yet, at its end.
fn add_new(queue: &mut IndexSet<Candidate>, candidates: List<Candidate>) -> Result<(), AllocError>
    ensures { OnOk result (queue.new.keys ≡ insert_all trial.is_same queue.old.keys candidates) }
{
    queue.extend(candidates.into_vec())?;
    Ok(())
}

/// Tries candidates in order, at most so many, and finds the accepted ones of them. The candidates of one predicate come
/// first. Those repairs of a tried candidate that aren't in the queue yet come last.
pub fn find(alloc: Global, normal: &Normal, max: u64) -> Result<Found, AllocError>
    ensures { IfOk result (trial.IsFound normal.now max) }
{
    let table = AddTable::new(alloc, normal)?;
    let mut queue = IndexSet::new(alloc);
    add_new(&mut queue, one_predicate(alloc, normal)?)?;
    let mut accepted = Vec::new(alloc);
    let mut tried = 0;
    while tried < max && tried < queue.len() as u64 {
        let repairs = try_one(alloc, &table, &queue[tried as usize], &mut accepted)?;
        add_new(&mut queue, repairs)?;
        tried += 1;
    }
    Ok(Found {
        tried,
        accepted: List::from_vec(accepted),
    })
}
