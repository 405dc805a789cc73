// Candidates for invariants of normal tasks.
ghost use Rattle.std.specs.Prelude.{◌≡◌, ◌++◌, IfOk};
ghost use Rattle.std.specs.Cmp.Rules.{hashing};
ghost use Rattle.std.specs.Hash as fed;
ghost use Rattle.std.proofs.Common.{rules};

use lists::List;
use normal_task::Predicate;
use std::alloc::{AllocError, Global};
use std::hash::{Hash, Hasher};

/// A candidate for an invariant: with an object for each parameter, it covers the atoms that have these objects at the
/// places of a part.
#[derive(PartialEq, Eq, Drop)]
pub struct Candidate {
    pub parameters: u64,
    pub parts: List<Part>,
}

impl Candidate {
    /// A copy of the candidate.
    pub fn copy(&self, alloc: Global) -> Result<Candidate, AllocError>
        ensures { IfOk result (λ copy. copy ≡ self.now) }
    {
        let parts = copies(alloc, self.parts.as_slice())?;
        Ok(Candidate {
            parameters: self.parameters,
            parts: List::from_vec(parts),
        })
    }
}

impl Hash for Candidate {
    ghost use Rattle.std.proofs.lemmas.Bool.Decides.{Decides-eqb};
    ghost use Rattle.contradictions.specs.contracts.types.PartHash.TheImpl.Laws.{respects_eq-law as respects_part};

    ghost hash_input = { λ candidate. fed.u64 candidate.parameters ++ fed.slice (λ part. fed.u64 part.predicate ++ fed.slice fed.u64 part.places ++ fed.option fed.u64 part.counted) candidate.parts };

    ghost respects_eq = { (fed.and-Alike (fed.on_Alike (λ candidate. candidate.parameters) (fed.same_Alike fed.u64 Decides-eqb)) (fed.on_Alike (λ candidate. candidate.parts) (fed.items_Alike (record { fed = respects_part })))).fed };

    fn hash<H: Hasher>(&self, state: &mut H) {
        self.parameters.hash(state);
        self.parts.as_slice().hash(state);
    }
}

/// The atoms of a predicate that have the parameters at these argument positions, in the order of the parameters. At most
/// one position is left, which is counted.
#[derive(PartialEq, Eq, Drop)]
pub struct Part {
    pub predicate: Predicate,
    pub places: List<u64>,
    pub counted: Option<u64>,
}

impl Part {
    /// A copy of the part.
    pub fn copy(&self, alloc: Global) -> Result<Part, AllocError>
        ensures { IfOk result (λ copy. copy ≡ self.now) }
    {
        let places = Vec::from_slice(alloc, self.places.as_slice())?;
        Ok(Part {
            predicate: self.predicate,
            places: List::from_vec(places),
            counted: self.counted,
        })
    }
}

impl Hash for Part {
    ghost hash_input = { λ part. fed.u64 part.predicate ++ fed.slice fed.u64 part.places ++ fed.option fed.u64 part.counted };

    ghost respects_eq = { Prim.search (hashing, rules) };

    fn hash<H: Hasher>(&self, state: &mut H) {
        self.predicate.hash(state);
        self.places.as_slice().hash(state);
        self.counted.hash(state);
    }
}

/// Copies of the parts.
pub fn copies(alloc: Global, parts: &[Part]) -> Result<Vec<Part>, AllocError>
    ensures { IfOk result (λ copies. copies.items ≡ parts.now) }
{
    let mut copies = Vec::new(alloc);
    for part in parts {
        copies.push(part.copy(alloc)?)?;
    }
    Ok(copies)
}
