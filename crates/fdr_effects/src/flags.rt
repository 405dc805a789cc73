// A table of the numbers in a list.

ghost use Rattle.std.specs.Prelude.{◌≡◌, ◌==◌, ◌<◌, ℕ, false, slice_index_or, All, IfOk};
ghost use Rattle.std.specs.List.{list_any};

use std::alloc::{AllocError, Global};

/// A flag for each number below `count`, set where the list has the number.
pub fn flags(alloc: Global, numbers: &[u64], count: usize) -> Result<Vec<bool>, AllocError>
    requires { All (λ n. n < count) numbers.now }
    ensures { IfOk result (λ flags. (number : ℕ) → slice_index_or flags.items number false ≡ list_any (λ n. n == number) numbers.now) }
{
    let mut flags = vec![in alloc; false; count]?;
    for number in numbers {
        flags[*number as usize] = true;
    }
    Ok(flags)
}

/// Whether the number's flag is set.
pub fn is_set(flags: &[bool], number: u64) -> bool
    ensures { result ≡ slice_index_or flags.now number false }
{
    flags.get(number as usize).copied().unwrap_or(false)
}
