//! Laws of the definitions. The functions do nothing: their clauses are the laws.

ghost use Rattle.std.specs.Prelude.{◌≡◌, ℕ, List, [], ◌∷◌};
ghost use Rattle.sas_task.specs.declared.parts.Pair.{Pair};
ghost use Rattle.sas_task.specs.Task.{Task};
ghost use Rattle.sas_task.specs.Pairs.{pair};
ghost use Rattle.sas_task.specs.Valid.{IsValid};
ghost use Rattle.sas_task.specs.Alike.{AreAlike, RulesAgree};
ghost use Rattle.sas_task.specs.Keeps.{Keeps, KeepsChanging};
ghost use Rattle.task_simplifier.specs.Projection.{kept_in, project_to, IsProjection};
ghost use Rattle.task_simplifier.specs.Kept.{IsKept};
ghost use Rattle.task_simplifier.specs.Examples.{shut, shut_kept, shut_projected, doubled, doubled_projected};

/// A valid task has at most one projection. It is valid and may stand for the task, and each solution of the task whose
/// every step changes the state is a solution of the projection, with its names and its cost.
pub fn projection_keeps()
    ensures one { (task a b : Task) → IsProjection task a → IsProjection task b → a ≡ b }
    ensures valid { (task projected : Task) → IsValid task → IsProjection task projected → IsValid projected }
    ensures stands { (task projected : Task) → IsValid task → IsProjection task projected → Keeps task projected }
    ensures changing { (task projected : Task) → IsValid task → IsProjection task projected → KeepsChanging task projected }
{}

/// Tasks that differ only in the order of groups, of operators, of their effects and of rules have one projection, where
/// the rules of one variable agree, as those of a valid task do.
pub fn orders_forgotten()
    ensures one { (a b one other : Task) → RulesAgree a → AreAlike a b → IsProjection a one → IsProjection b other → one ≡ other }
    ensures valid { (task : Task) → IsValid task → RulesAgree task }
{}

/// A task that is worked by hand: a room that nobody enters. A variable with one kept value is dropped, and with it its
/// group, the operators and effects that need another value of it, and an operator whose effects are all on it; what
/// stands there twice is left once. A goal that is met for good is left empty, and a goal that needs a value that isn't
/// kept is false: the holder is added for both.
pub fn worked_example()
    ensures hall { (goal : List Pair) (val : ℕ) → IsKept (shut goal) 0 val → val ≡ 0 }
    ensures projected { project_to (kept_in shut_kept) (shut (pair 3 0 ∷ [])) ≡ shut_projected }
    ensures once { project_to (kept_in shut_kept) doubled ≡ doubled_projected }
    ensures empty_goal { (project_to (kept_in shut_kept) (shut (pair 0 0 ∷ []))).goal ≡ pair 3 0 ∷ [] }
    ensures empty_goal_met { (project_to (kept_in shut_kept) (shut (pair 0 0 ∷ []))).state ≡ 1 ∷ 1 ∷ 1 ∷ 0 ∷ [] }
    ensures false_goal { (project_to (kept_in shut_kept) (shut (pair 0 1 ∷ []))).goal ≡ pair 3 0 ∷ [] }
    ensures false_goal_missed { (project_to (kept_in shut_kept) (shut (pair 0 1 ∷ []))).state ≡ 1 ∷ 1 ∷ 1 ∷ 1 ∷ [] }
{}
