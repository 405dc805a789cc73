// The objects that are shown of an instance.
ghost use Rattle.std.specs.Prelude.{◌≡◌, take};

use normal_task::Object;

/// The first objects of the list, at most so many.
pub(crate) fn shown_objects(objects: &[Object], shown: u64) -> &[Object]
    ensures { result.now ≡ take shown objects.now }
{
    let shown = shown as usize;
    if shown < objects.len() {
        &objects[..shown]
    } else {
        objects
    }
}
