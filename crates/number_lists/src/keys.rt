// Keys of atoms and of functions' terms.
ghost use Rattle.std.specs.Prelude.{◌≡◌, ◌∷◌, IfOk, OnOk};

use std::alloc::{AllocError, Global};

/// Makes the list the key of an atom or of a term: the number of its predicate or function, and then its objects. What
/// stood in the list goes.
pub fn write_key(key: &mut Vec<u64>, number: u64, objects: &[u64]) -> Result<(), AllocError>
    ensures { OnOk result (key.new.items ≡ number ∷ objects.now) }
{
    key.clear();
    key.push(number)?;
    key.extend_from_slice(objects)
}

/// The key of an atom or of a term: the number of its predicate or function, and then its objects.
pub fn key_of(alloc: Global, number: u64, objects: &[u64]) -> Result<Vec<u64>, AllocError>
    ensures { IfOk result (λ key. key.items ≡ number ∷ objects.now) }
{
    let mut key = Vec::new(alloc);
    write_key(&mut key, number, objects)?;
    Ok(key)
}
