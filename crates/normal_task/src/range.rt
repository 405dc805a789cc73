// The objects that parameters and variables range over.
ghost use Rattle.std.specs.Prelude.{◌≡◌, IfOk};

use crate::task::Object;
use std::alloc::{AllocError, Global};
use std::marker::Model;
use std::rc::Rc;

/// The objects that a variable ranges over, by their numbers. All variables that share a range share one list. Contracts
/// see the numbers, in order.
#[derive(Drop)]
pub struct ObjectRange {
    objects: Rc<Vec<Object>>,
}

impl Model for ObjectRange {
    ghost use Rattle.std.specs.Prelude.{ℕ, List as Items};

    ghost Value = { Items ℕ };

    ghost view = { λ range. range.objects.value.items };
}

impl ObjectRange {
    /// The range of these objects.
    pub fn from_vec(alloc: Global, objects: Vec<Object>) -> Result<ObjectRange, AllocError>
        ensures { IfOk result (λ range. range ≡ objects.items) }
    {
        Ok(ObjectRange {
            objects: Rc::new(alloc, objects)?,
        })
    }

    /// The range once more, over one list that both share.
    pub fn share(&self) -> Result<ObjectRange, AllocError>
        ensures { IfOk result (λ range. range ≡ self.now) }
    {
        Ok(ObjectRange {
            objects: self.objects.clone()?,
        })
    }

    /// The objects.
    pub fn as_slice(&self) -> &[Object]
        ensures { result.now ≡ self.now }
    {
        self.objects.as_ref().as_slice()
    }
}
