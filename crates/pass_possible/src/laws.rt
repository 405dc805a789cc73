//! Laws of the definitions. The functions do nothing: their clauses are the laws.

ghost use Rattle.std.specs.Prelude.{◌≡◌, ◌↔◌, ◌<◌, ℕ, List, true, IsTrue, length, slice_index};
ghost use Rattle.sas_task.specs.declared.parts.Pair.{Pair};
ghost use Rattle.sas_task.specs.Task.{Task};
ghost use Rattle.sas_task.specs.Valid.{IsValid};
ghost use Rattle.sas_task.specs.Solution.{IsReachable, HasSolution};
ghost use Rattle.sas_task.specs.Keeps.{Keeps};
ghost use Rattle.sas_restriction.specs.KeepsCosts.{KeepsCosts};
ghost use Rattle.pass_possible.specs.Possible.{is_plain, Pairs, ArePossible};
ghost use Rattle.pass_possible.specs.Pruned.{pruned, IsPruned};
ghost use Rattle.pass_possible.specs.Examples.{house, house_pairs, house_pruned};

/// Facts that hold together in a reachable state of a plain task are a possible pair. Two values of one variable never
/// are. A task has one set of possible pairs.
pub fn possible_pairs()
    ensures reached { (task : Task) (pairs : Pairs) (state : List ℕ) (p q : Pair) → IsValid task → is_plain task ≡ true → ArePossible task pairs → IsReachable task state →
        p.var < length task.variables → q.var < length task.variables → slice_index state p.var ≡ p.val → slice_index state q.var ≡ q.val → IsTrue (pairs p q) }
    ensures one_value { (task : Task) (pairs : Pairs) → ArePossible task pairs → (p q : Pair) → IsTrue (pairs p q) → p.var ≡ q.var → p.val ≡ q.val }
    ensures one { (task : Task) (pairs other : Pairs) → ArePossible task pairs → ArePossible task other → pairs ≡ other }
{}

/// A valid task without what no pair of facts allows is valid and may stand for the task. More exactly, the solutions of
/// the task are, with their names and costs, those of the new one, and no others are. The new task is one task, and its
/// operators have the names and costs of the task's.
pub fn pruning_keeps()
    ensures valid { (task new : Task) → IsValid task → IsPruned task new → IsValid new }
    ensures stands { (task new : Task) → IsValid task → IsPruned task new → Keeps task new }
    ensures same_solutions { (task new : Task) (names : List (List ℕ)) (cost : ℕ) → IsValid task → IsPruned task new → HasSolution task names cost ↔ HasSolution new names cost }
    ensures costs { (task new : Task) → IsPruned task new → KeepsCosts task new }
    ensures one { (task new other : Task) → IsPruned task new → IsPruned task other → new ≡ other }
{}

/// A house with a dark cellar, worked by hand. That the lamp is lit in the hall isn't possible, so two operators go, and
/// a third goes since it is mixed. A value goes, and one that is in the goal alone stays.
pub fn pruned_example()
    ensures plain { IsTrue (is_plain house) }
    ensures pruned { pruned house_pairs house ≡ house_pruned }
{}
