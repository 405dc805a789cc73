// A variable in scope.
ghost use Rattle.std.specs.Prelude.{◌≡◌, IfOk};
ghost use Rattle.normal_task.specs.Numbers.{range_of};

use normal_task::ObjectRange;
use numbering::Numbering;
use pddl_syntax::Typed;
use std::alloc::{AllocError, Global};
use std::marker::Model;

/// A variable of a list around a condition: its declaration, and its number. Contracts see its name, the objects that
/// it ranges over, and its number.
#[derive(Drop)]
pub struct Variable<'n, 'a> {
    numbering: &'n Numbering<'a>,
    declared: &'a Typed,
    place: u64,
}

impl<'n, 'a> Model for Variable<'n, 'a> {
    ghost use Rattle.normal_task.specs.Numbers.{range_of};
    ghost use Rattle.normal_task.specs.Parts.{Slot};

    ghost Value = { Slot };

    ghost view = { λ variable. record {
      variable = variable.declared.now.name.name;
      range = range_of variable.numbering.now.domain variable.numbering.now.problem variable.declared.now;
      place = variable.place;
    } };
}

impl<'n, 'a> Variable<'n, 'a> {
    /// The variable that is declared here, with this number.
    pub fn new(numbering: &'n Numbering<'a>, declared: &'a Typed, place: u64) -> Variable<'n, 'a>
        ensures { result ≡ record {
          variable = declared.now.name.name;
          range = range_of numbering.now.domain numbering.now.problem declared.now;
          place = place;
        } }
    {
        Variable {
            numbering,
            declared,
            place,
        }
    }

    /// The variable, with another number.
    pub fn numbered(&self, place: u64) -> Variable<'n, 'a>
        ensures { result ≡ record { variable = self.now.variable; range = self.now.range; place = place } }
    {
        Variable {
            numbering: self.numbering,
            declared: self.declared,
            place,
        }
    }

    /// A copy of the variable.
    pub fn copy(&self) -> Variable<'n, 'a>
        ensures { result ≡ self.now }
    {
        self.numbered(self.place)
    }

    /// The variable's name.
    pub fn name(&self) -> &'a [u8]
        ensures { result.now ≡ self.now.variable }
    {
        self.declared.name.name.as_slice()
    }

    /// The variable's number.
    pub fn place(&self) -> u64
        ensures { result ≡ self.now.place }
    {
        self.place
    }

    /// What the variable ranges over.
    pub fn range(&self, alloc: Global) -> Result<ObjectRange, AllocError>
        ensures { IfOk result (λ range. range ≡ self.now.range) }
    {
        self.numbering.range(alloc, self.declared)
    }
}
