//! Laws of restrictions, and of one of them. The functions do nothing: their clauses are the laws.

ghost use Rattle.std.specs.Prelude.{◌≡◌, ℕ, List, [], ◌∷◌};
ghost use Rattle.sas_task.specs.Task.{Task};
ghost use Rattle.sas_task.specs.Valid.{IsValid};
ghost use Rattle.sas_task.specs.Keeps.{Keeps, KeepsChanging};
ghost use Rattle.sas_task.specs.Examples.{room};
ghost use Rattle.sas_restriction.specs.Choice.{Choice, IsChoice};
ghost use Rattle.sas_restriction.specs.Restriction.{Restricts};
ghost use Rattle.sas_restriction.specs.MayStand.{MayStand, TellsAll};
ghost use Rattle.sas_restriction.specs.KeepsCosts.{KeepsCosts};
ghost use Rattle.sas_restriction.specs.Reordered.{changing_operators, variable_order, renumbered, IsReordered};
ghost use Rattle.sas_restriction.specs.KeepsPart.{KeepsPart};
ghost use Rattle.sas_restriction.specs.Relevant.{AreRelevant};
ghost use Rattle.sas_restriction.specs.Reduced.{changes_some, reduced, HasRelevantAlone, IsReduced};
ghost use Rattle.sas_restriction.specs.Examples.{room_reordered, belfry, belfry_reduced};

/// A restriction of a valid task is valid. It may stand for the task where the choice meets `MayStand`, and where all
/// variables are told too, each solution of the task whose every step changes the state is a solution of the
/// restriction, with its names and its cost.
pub fn restriction_keeps()
    ensures valid { (task new : Task) (choice : Choice) → IsValid task → IsChoice choice task → Restricts choice task new → IsValid new }
    ensures stands { (task new : Task) (choice : Choice) → IsValid task → IsChoice choice task → Restricts choice task new → MayStand choice task → Keeps task new }
    ensures changing { (task new : Task) (choice : Choice) → IsValid task → IsChoice choice task → Restricts choice task new → MayStand choice task → TellsAll choice task → KeepsChanging task new }
{}

/// A valid task whose variables are ordered by how many operators have an effect on them is valid and may stand for the
/// task: it is the restriction to all variables in this order, with all values and all operators. Its operators have the
/// names and costs of the task's.
pub fn reordering_keeps()
    ensures valid { (task new : Task) → IsValid task → IsReordered task new → IsValid new }
    ensures stands { (task new : Task) → IsValid task → IsReordered task new → Keeps task new }
    ensures costs { (task new : Task) → IsReordered task new → KeepsCosts task new }
{}

/// The room with a lamp, worked by hand. No operator changes a derived variable, so both come first, the one with the
/// lower number ahead. An operator with two effects on a variable counts once.
pub fn reordered_example()
    ensures counts { changing_operators room.operators 1 ≡ 2 }
    ensures order { variable_order room ≡ 2 ∷ 3 ∷ 0 ∷ 1 ∷ [] }
    ensures reordered { renumbered (variable_order room) room ≡ room_reordered }
{}

/// A valid task without what can't influence its goal is valid and may stand for the task. More exactly, of a solution of
/// the task the operators that have an effect on a relevant variable are, in their order and with their names and costs,
/// a solution of the task with its relevant variables alone, and so of the new task, also where the goal is empty: no
/// variable is relevant then, and nothing need be done. The new task is one task, and its operators have the names and
/// costs of the task's.
pub fn reduction_keeps()
    ensures valid { (task new : Task) → IsValid task → IsReduced task new → IsValid new }
    ensures stands { (task new : Task) → IsValid task → IsReduced task new → Keeps task new }
    ensures relevant_steps { (task new : Task) → IsValid task → (part : HasRelevantAlone task new) → KeepsPart (changes_some part.vars) task new }
    ensures reduced_steps { (task new : Task) (vars : List ℕ) → IsValid task → IsReduced task new → AreRelevant task vars → KeepsPart (changes_some vars) task new }
    ensures costs { (task new : Task) → IsReduced task new → KeepsCosts task new }
    ensures one { (task new other : Task) → IsReduced task new → IsReduced task other → new ≡ other }
{}

/// A room with a lamp and a bell, worked by hand. Without the bell two operators are one, so are two groups, and a third
/// group has one fact left and goes. A rule that stands there twice stays so.
pub fn reduced_example()
    ensures { reduced (1 ∷ 2 ∷ 4 ∷ []) belfry ≡ belfry_reduced }
{}
