ghost use Rattle.std.specs.Prelude.{◌≡◌, ◌++◌, ◌∷◌, [], eqb, IfOk, OnOk};
ghost use Rattle.std.specs.Cmp.Lexicographic.{pointwise, lists_equiv};
ghost use Rattle.std.specs.Cmp.{nat_eq_equiv, partial_equiv_from_equiv};
ghost use Rattle.std.specs.Cmp.Rules.{hashing};
ghost use Rattle.std.specs.Hash as fed;
ghost use Rattle.std.proofs.Common.{rules};

use smallvec::SmallVec;
use std::alloc::{AllocError, Global};
use std::hash::{Hash, Hasher};
use std::marker::Model;

/// The numbers of objects. Up to three stand in the value itself, so that most atoms take no memory of their own; more
/// stand in an allocation. Contracts see the numbers, in order.
#[derive(Drop)]
pub struct Objects {
    numbers: SmallVec<u64, 3>,
}

impl Model for Objects {
    ghost use Rattle.std.specs.Prelude.{ℕ, List as Items};

    ghost Value = { Items ℕ };

    ghost view = { λ objects. objects.numbers.items };
}

/// Two lists of objects are equal where they are the same numbers.
impl PartialEq for Objects {
    ghost eq = { pointwise eqb };

    ghost laws = { partial_equiv_from_equiv (lists_equiv nat_eq_equiv) };

    fn eq(&self, other: &Self) -> bool {
        self.numbers == other.numbers
    }
}

impl Eq for Objects {
    ghost laws = { lists_equiv nat_eq_equiv };
}

impl Hash for Objects {
    ghost hash_input = { fed.slice fed.u64 };

    ghost respects_eq = { Prim.search (hashing, rules) };

    fn hash<H: Hasher>(&self, state: &mut H) {
        self.as_slice().hash(state);
    }
}

impl Objects {
    /// No objects yet.
    pub fn new(alloc: Global) -> Objects
        ensures { result ≡ [] }
    {
        Objects {
            numbers: SmallVec::new(alloc),
        }
    }

    /// A copy of these numbers.
    pub fn from_slice(alloc: Global, numbers: &[u64]) -> Result<Objects, AllocError>
        ensures { IfOk result (λ objects. objects ≡ numbers.now) }
    {
        Ok(Objects {
            numbers: SmallVec::from_slice(alloc, numbers)?,
        })
    }

    /// Adds the number at the end.
    #[inline]
    pub fn push(&mut self, number: u64) -> Result<(), AllocError>
        ensures { OnOk result (self.new ≡ self.old ++ number ∷ []) }
    {
        self.numbers.push(number)?;
        Ok(())
    }

    /// The numbers.
    #[inline]
    pub fn as_slice(&self) -> &[u64]
        ensures { result.now ≡ self.now }
    {
        self.numbers.as_slice()
    }
}
