// In which order variables get objects.
ghost use Rattle.std.specs.Prelude.{◌≡◌, IfOk};
ghost use Rattle.std.specs.List.{find};
ghost use Rattle.std.specs.Option.{option_copied};
ghost use Rattle.static_matcher.specs.Partial as spec;
ghost use Rattle.static_matcher.specs.Partial.{HasOpenVariables};

use crate::partial::{Scope, is_about, is_settled};
use normal_task::Object;
use std::alloc::{AllocError, Global};

/// Whether the variable is one that has no object.
pub(crate) fn is_open(partial: &[Option<Object>], variable: usize) -> bool
    ensures { result ≡ spec.is_open_variable partial.now variable }
{
    match partial.get(variable) {
        Some(chosen) => chosen.is_none(),
        None => false,
    }
}

/// The first of the variables that has no object.
pub(crate) fn first_open(partial: &[Option<Object>], order: &[usize]) -> Option<usize>
    ensures { result ≡ find (spec.is_open_variable partial.now) order.now }
{
    order
        .iter()
        .copied()
        .find(|variable| is_open(partial, *variable))
}

impl<'a> Scope<'a> {
    /// Whether some equality or static literal is about the variable.
    fn is_tested(&self, variable: usize) -> bool {
        self.literals.iter().any(|literal| is_settled(self.tables, literal)
            && is_about(variable, literal))
    }

    /// The variables without objects that some equality or static literal is about.
    fn tested(&self, alloc: Global, partial: &[Option<Object>]) -> Result<Vec<usize>, AllocError> {
        (0..partial.len())
            .filter(|variable| is_open(partial, *variable) && self.is_tested(*variable))
            .collect(alloc)
    }

    /// The variables without objects. Those that no equality and no static literal is about come behind the others, since
    /// each of their objects is as good as any.
    pub(crate) fn order(
        &self,
        alloc: Global,
        partial: &[Option<Object>],
    ) -> Result<Vec<usize>, AllocError>
        ensures { IfOk result (λ order. HasOpenVariables partial.now order.items) }
    {
        let mut order = self.tested(alloc, partial)?;
        for variable in 0..partial.len() {
            if partial[variable].is_some() {
                continue;
            }
            order.push(variable)?;
        }
        Ok(order)
    }
}
