//! Worked examples that compute.

ghost use Rattle.std.specs.Prelude.{◌≡◌, ◌∷◌, [], codes};
ghost use Rattle.pddl_syntax.specs.Step.{shown};

/// A step's name is the action's name and its objects, joined by single spaces.
pub fn names_of_steps()
    ensures with_objects { shown (codes "drive") (codes "truck" ∷ codes "depot" ∷ []) ≡ codes "drive truck depot" }
    ensures without { shown (codes "flip") [] ≡ codes "flip" }
{}
