// What stands on one variable, found fast in a list by variable.

ghost use Rattle.std.specs.Prelude.{◌≡◌, ◌==◌, ℕ};
ghost use Rattle.std.specs.List.{filter};
ghost use Rattle.std.specs.List.Sorted.{IsNonDecreasingBy};

use sas_task::{Pair, Var};

/// What stands on a variable.
pub trait OnVariable {
    ghost var_of: { Self → ℕ };

    fn variable(&self) -> Var
        ensures { result ≡ var_of self.now };
}

impl OnVariable for Pair {
    ghost var_of = { λ p. p.var };

    fn variable(&self) -> Var {
        self.var
    }
}

/// Of a list by variable, what stands on this one.
pub fn on<T: OnVariable>(items: &[T], var: Var) -> &[T]
    requires { IsNonDecreasingBy T.var_of items.now }
    ensures { result.now ≡ filter (λ x. T.var_of x == var) items.now }
{
    let rest = &items[items.partition_point(|item| item.variable() < var)..];
    &rest[..rest.partition_point(|item| item.variable() <= var)]
}
