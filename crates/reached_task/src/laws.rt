//! Laws of the definitions. The functions do nothing: their clauses are the laws.

ghost use Rattle.std.specs.Prelude.{◌≡◌, ℕ, ◌<◌, true, List, [], ◌∷◌, length, All, Contains};
ghost use Rattle.planning.specs.Plan.{IsReachable};
ghost use Rattle.planning.specs.Same.{MeansTheSame};
ghost use Rattle.planning.specs.Task.{State, IsFull};
ghost use Rattle.normal_task.specs.declared.task.GroundAtom.{GroundAtom};
ghost use Rattle.ground_task.specs.declared.types.Ground.{Ground};
ghost use Rattle.ground_task.specs.Alike.{AreAlike as AreAlikeGround};
ghost use Rattle.ground_task.specs.GroundTask.{ground_task};
ghost use Rattle.ground_task.specs.Lawful.{IsLawful as IsLawfulGround};
ghost use Rattle.ground_task.specs.Literals.{meaning};
ghost use Rattle.ground_task.specs.Ranked.{IsRanked};
ghost use Rattle.ground_task.specs.Settled.{Shows};
ghost use Rattle.reached_task.specs.declared.types.Reached.{Reached};
ghost use Rattle.reached_task.specs.Alike.{AreAlike};
ghost use Rattle.reached_task.specs.Examples.{lamp, IsRefused, two_lamps, press_b};
ghost use Rattle.reached_task.specs.Exclusive.{IsExclusive};
ghost use Rattle.reached_task.specs.ReachedTask.{reached_task, atoms_of};
ghost use Rattle.reached_task.specs.Reachable.{numbering, IsReachedTask};
ghost use Rattle.reached_task.specs.Lawful.{IsLawful};
ghost use Rattle.reached_task.specs.Layers.{AreLayers};

/// The reached task means what the ground task means, where a state of the reached task gives each fact the value of its
/// atom. Every atom that is true in a reachable state is a fact.
pub fn same_meaning()
    ensures meaning { (task : Ground) (reached : Reached) → IsRanked (ground_task task) → IsReachedTask task reached →
        MeansTheSame (meaning (ground_task task)) (meaning (reached_task reached)) (Shows (numbering (atoms_of reached))) }
    ensures facts { (task : Ground) (reached : Reached) → IsRanked (ground_task task) → IsReachedTask task reached →
        (state full : State GroundAtom) → IsReachable (meaning (ground_task task)) state → IsFull (meaning (ground_task task)) state full →
        (atom : GroundAtom) → full atom ≡ true → Contains (atoms_of reached) atom }
{}

/// Where no derived atom of the ground task depends on itself through the axioms, no derived fact does.
pub fn no_recursion()
    ensures { (task : Ground) (reached : Reached) → IsRanked (ground_task task) → IsReachedTask task reached →
        IsRanked (reached_task reached) }
{}

/// The reached task of a lawful ground task is lawful.
pub fn lawful()
    ensures { (task : Ground) (reached : Reached) → IsLawfulGround task → IsReachedTask task reached → IsLawful reached }
{}

/// A reached task has at most one list of layers, and each layer is below the number of facts.
pub fn one_list_of_layers()
    ensures one { (reached : Reached) (a b : List ℕ) → AreLayers reached a → AreLayers reached b → a ≡ b }
    ensures small { (reached : Reached) (layers : List ℕ) → AreLayers reached layers → All (λ layer. layer < length reached.facts) layers }
{}

/// Ground tasks that differ only in the order of actions and axioms have one reached task, but for that order, and the
/// layers don't depend on it.
pub fn one_but_for_order()
    ensures reached { (a b : Ground) → AreAlikeGround a b → (one other : Reached) → IsReachedTask a one → IsReachedTask b other → AreAlike one other }
    ensures layers { (a b : Reached) → AreAlike a b → (layers others : List ℕ) → AreLayers a layers → AreLayers b others → layers ≡ others }
{}

/// A small reached task is lawful, and those that differ from it in one part, each in another thing, aren't.
pub fn lawful_examples()
    ensures lawful { IsLawful lamp }
    ensures refused { IsRefused }
{}

/// Two lamps of which one is on are never on together where nothing can be done. They are where both are on at the start, or
/// where an action turns the second one on.
pub fn exclusive_examples()
    ensures exclusive { IsExclusive (two_lamps (0 ∷ []) []) (0 ∷ 1 ∷ []) }
    ensures at_start { ¬ IsExclusive (two_lamps (0 ∷ 1 ∷ []) []) (0 ∷ 1 ∷ []) }
    ensures after_a_step { ¬ IsExclusive (two_lamps (0 ∷ []) (press_b ∷ [])) (0 ∷ 1 ∷ []) }
{}
