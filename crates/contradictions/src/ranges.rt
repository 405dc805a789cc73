// The objects that parameters and variables range over.
ghost use Rattle.std.specs.Prelude.{◌≡◌, ◌++◌, ◌∷◌, [], get_or};
ghost use Rattle.contradictions.specs.Merges.{all_ranges};

use normal_task::{Object, ObjectRange};

/// The ranges of a schema's parameters, and then those of the variables of two effects, in the order of their numbers.
#[derive(Clone, Copy)]
pub struct Ranges<'a> {
    pub parameters: &'a [ObjectRange],
    pub first: &'a [ObjectRange],
    pub second: &'a [ObjectRange],
}

/// A number that is in no list has this range, which holds what stands at it in a binding without it.
static OBJECT_0: [u64; 1] = [0];

fn range_in(ranges: &[ObjectRange], number: usize) -> &[Object]
    ensures { result.now ≡ get_or ranges.now number (0 ∷ []) }
{
    if number < ranges.len() {
        ranges[number].as_slice()
    } else {
        &OBJECT_0
    }
}

fn range_behind<'a>(
    front: &'a [ObjectRange],
    back: &'a [ObjectRange],
    number: usize,
) -> &'a [Object]
    ensures { result.now ≡ get_or (front.now ++ back.now) number (0 ∷ []) }
{
    if number < front.len() {
        range_in(front, number)
    } else {
        range_in(back, number - front.len())
    }
}

/// The objects that the variable ranges over.
pub fn range_of<'a>(ranges: &Ranges<'a>, number: u64) -> &'a [Object]
    ensures { result.now ≡ get_or (all_ranges ranges.now) number (0 ∷ []) }
{
    let number = number as usize;
    if number < ranges.parameters.len() {
        range_in(ranges.parameters, number)
    } else {
        range_behind(
            ranges.first,
            ranges.second,
            number - ranges.parameters.len(),
        )
    }
}
