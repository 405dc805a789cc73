//! Candidates as they stand in tables.

use contradictions::{Candidate, Part};
use lists::List;
use normal_task::Normal;
use std::alloc::Global;

/// A part: the name of its predicate, the argument position of each parameter, and the counted position.
pub(crate) type PartRow = (&'static str, &'static [u64], Option<u64>);

fn predicate_of(normal: &Normal, name: &str) -> Option<u64> {
    let mut rows = normal.predicates.as_slice().iter();
    let place = rows.position(|row| row.name.as_slice() == name.as_bytes())?;
    Some(place as u64)
}

fn part_of(alloc: Global, normal: &Normal, row: PartRow) -> Option<Part> {
    let (name, places, counted) = row;
    Some(Part {
        predicate: predicate_of(normal, name)?,
        places: List::from_vec(Vec::from_slice(alloc, places).ok()?),
        counted,
    })
}

/// The candidate with these parts, of which each has all the parameters.
pub(crate) fn candidate_of(alloc: Global, normal: &Normal, rows: &[PartRow]) -> Option<Candidate> {
    let mut parameters = 0;
    let mut parts = Vec::new(alloc);
    for row in rows {
        parameters = row.1.len() as u64;
        parts.push(part_of(alloc, normal, *row)?).ok()?;
    }
    Some(Candidate {
        parameters,
        parts: List::from_vec(parts),
    })
}

fn is_candidate(alloc: Global, normal: &Normal, candidate: &Candidate, rows: &[PartRow]) -> bool {
    match candidate_of(alloc, normal, rows) {
        Some(wanted) => {
            let is_wanted = *candidate == wanted;
            drop(wanted);
            is_wanted
        }
        None => false,
    }
}

/// Whether the candidates are these, in this order.
pub(crate) fn are_candidates(
    alloc: Global,
    normal: &Normal,
    candidates: &[Candidate],
    rows: &[&[PartRow]],
) -> bool {
    candidates.len() == rows.len()
        && candidates
            .iter()
            .zip(rows)
            .all(|(found, row)| is_candidate(alloc, normal, found, row))
}
