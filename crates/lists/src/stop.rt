// Why a call has no answer.
ghost use Rattle.std.specs.Prelude.{◌≡◌};
ghost use Rattle.lists.specs.declared.stop.Stop.TheVariants as stops;

use std::alloc::{AllocError, AllocFailed};

/// Why a call has no answer: a fault of what it was given, or want of memory.
#[derive(Clone, Copy, PartialEq, Eq)]
pub enum Stop<F> {
    Fault(F),
    NoMemory,
}

impl<F> From<AllocError> for Stop<F> {
    ghost from_gives = { λ _ stop. stop ≡ stops.NoMemory };

    fn from(_: AllocError) -> Stop<F> {
        Stop::NoMemory
    }
}

impl<F, T: Drop> From<AllocFailed<T>> for Stop<F> {
    ghost from_gives = { λ _ stop. stop ≡ stops.NoMemory };

    fn from(_: AllocFailed<T>) -> Stop<F> {
        Stop::NoMemory
    }
}
