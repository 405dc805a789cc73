// Objects in rising order.
ghost use Rattle.std.specs.Prelude.{◌≡◌, IfSome};
ghost use Rattle.std.specs.List.Sorted.{IsNonDecreasing};
ghost use Rattle.contradictions.specs.FirstFrom.{IsFirstFrom};

use normal_task::Object;

/// Objects in rising order.
#[derive(Clone, Copy)]
pub(crate) struct Rising<'a> {
    pub(crate) objects: &'a [Object],
    ghost rises: { IsNonDecreasing objects.now },
}

impl<'a> Rising<'a> {
    /// The objects, if they rise.
    pub(crate) fn new(objects: &'a [Object]) -> Option<Rising<'a>>
        ensures { IfSome result (λ rising. rising.objects.now ≡ objects.now) }
    {
        if objects.is_sorted() {
            Some(Rising { objects })
        } else {
            None
        }
    }

    /// The first object from this number on.
    pub(crate) fn first_from(&self, least: Object) -> Option<Object>
        ensures { IsFirstFrom self.now.objects.now least result }
    {
        match self.objects.binary_search(&least) {
            Ok(_) => Some(least),
            Err(place) => {
                if place < self.objects.len() {
                    Some(self.objects[place])
                } else {
                    None
                }
            }
        }
    }
}
