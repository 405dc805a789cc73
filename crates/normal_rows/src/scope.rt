// The variables in scope.
ghost use Rattle.std.specs.Prelude.{◌≡◌, ◌∷◌, [], reverse, unwrap_or, IfOk};
ghost use Rattle.std.specs.Option.{option_map};
ghost use Rattle.normal_task.specs.Parts as spec;

use crate::variable::Variable;
use indexmap::IndexMap;
use lists::{List, checked_sum};
use normal_task::Place;
use numbering::Numbering;
use pddl_syntax::{Term, Typed};
use std::alloc::{AllocError, Global};
use std::marker::Model;

/// The variables of the lists around a condition. A look-up goes through a table. Contracts see the variables, the
/// innermost first.
#[derive(Drop)]
pub struct Scope<'n, 'a> {
    /// The variables, the outermost first.
    variables: Vec<Variable<'n, 'a>>,
    /// The number of the innermost variable of each name.
    numbers: IndexMap<&'a [u8], u64>,
}

impl<'n, 'a> Model for Scope<'n, 'a> {
    ghost use Rattle.std.specs.Prelude.{List, reverse};
    ghost use Rattle.normal_task.specs.Parts.{Slot};
    ghost use Rattle.normal_rows.specs.InScope.{HasNumbers};

    ghost Value = { List Slot };

    ghost view = { λ scope. reverse scope.variables.items };

    ghost invariant = { λ scope. HasNumbers (reverse scope.variables.items) scope.numbers };
}

impl<'n, 'a> Scope<'n, 'a> {
    /// The scope of no variables.
    pub fn new(alloc: Global) -> Scope<'n, 'a>
        ensures { result ≡ [] }
    {
        Scope {
            variables: Vec::new(alloc),
            numbers: IndexMap::new(alloc),
        }
    }

    /// A copy of the scope.
    fn copy(&self, alloc: Global) -> Result<Scope<'n, 'a>, AllocError>
        ensures { IfOk result (λ copy. copy ≡ self.now) }
    {
        let mut scope = Scope::new(alloc);
        for variable in self.variables() {
            scope = scope.with(variable.copy())?;
        }
        Ok(scope)
    }

    /// The scope with one variable more, the innermost.
    pub fn with(self, variable: Variable<'n, 'a>) -> Result<Scope<'n, 'a>, AllocError>
        ensures { IfOk result (λ scope. scope ≡ variable.entry ∷ self.entry) }
    {
        let Scope {
            mut variables,
            mut numbers,
        } = self;
        numbers.insert(variable.name(), variable.place())?;
        variables.push(variable)?;
        Ok(Scope { variables, numbers })
    }

    /// The variables, the outermost first.
    pub fn variables(&self) -> &[Variable<'n, 'a>]
        ensures { reverse result.now ≡ self.now }
    {
        &self.variables
    }

    /// The number of the innermost variable of this name.
    fn number(&self, name: &[u8]) -> u64
        ensures { result ≡ unwrap_or (option_map (λ slot. slot.place) (spec.slot_of self.now name.now)) 0 }
    {
        self.numbers.get(name).copied().unwrap_or(0)
    }
}

/// The scope inside a list of variables, which are numbered on from the given number.
pub fn scope_inside<'n, 'a>(
    alloc: Global,
    numbering: &'n Numbering<'a>,
    variables: &'a [Typed],
    place: u64,
    outer: &Scope<'n, 'a>,
) -> Result<Scope<'n, 'a>, AllocError>
    ensures { IfOk result (λ scope. scope ≡ spec.scope_inside numbering.now.domain numbering.now.problem variables.now place outer.now) }
{
    let mut scope = outer.copy(alloc)?;
    for (index, variable) in variables.iter().enumerate() {
        let number = checked_sum(place, index as u64)?;
        scope = scope.with(Variable::new(numbering, variable, number))?;
    }
    Ok(scope)
}

/// The scope inside a list of variables that stands in no other.
pub fn scope_of<'n, 'a>(
    alloc: Global,
    numbering: &'n Numbering<'a>,
    variables: &'a [Typed],
) -> Result<Scope<'n, 'a>, AllocError>
    ensures { IfOk result (λ scope. scope ≡ spec.scope_inside numbering.now.domain numbering.now.problem variables.now 0 []) }
{
    scope_inside(alloc, numbering, variables, 0, &Scope::new(alloc))
}

/// What stands for the term.
pub fn place_of(numbering: &Numbering<'_>, scope: &Scope<'_, '_>, term: &Term) -> Place
    ensures { result ≡ spec.place_of numbering.now.domain numbering.now.problem scope.now term.now }
{
    match term {
        Term::Variable(variable) => Place::Variable(scope.number(variable.name.as_slice())),
        Term::Object(object) => Place::Object(numbering.object(object.name.as_slice())),
    }
}

/// What stands for the terms.
pub fn places_of(
    alloc: Global,
    numbering: &Numbering<'_>,
    scope: &Scope<'_, '_>,
    terms: &[Term],
) -> Result<List<Place>, AllocError>
    ensures { IfOk result (λ places. places ≡ spec.places_of numbering.now.domain numbering.now.problem scope.now terms.now) }
{
    let mut places = Vec::new(alloc);
    for term in terms {
        places.push(place_of(numbering, scope, term))?;
    }
    Ok(List::from_vec(places))
}
