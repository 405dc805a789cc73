//! Laws of what domains and problems mean. The functions do nothing: their clauses are the laws.

ghost use Rattle.std.specs.Prelude.{◌≡◌, ℕ, List, [], ◌∷◌, codes, length, IsTrue, ◌⊎◌};
ghost use Rattle.pddl_syntax.specs.declared.types.Domain.{Domain};
ghost use Rattle.pddl_syntax.specs.declared.types.Problem.{Problem};
ghost use Rattle.pddl_syntax.specs.declared.types.Typed.{Typed};
ghost use Rattle.pddl_syntax.specs.Words.{Name};
ghost use Rattle.pddl_syntax.specs.Objects.{leads};
ghost use Rattle.planning.specs.Task.{Takes, IsIdle};
ghost use Rattle.planning.specs.Plan.{LeavesPlan};
ghost use Rattle.pddl_syntax.specs.Holds.{State};
ghost use Rattle.pddl_syntax.specs.Step.{Step};
ghost use Rattle.pddl_syntax.specs.Plan.{pddl_task, HasPlan, HasBusyPlan};
ghost use Rattle.pddl_syntax.specs.WorkedPair.{lamp, lit_lamp};

/// Where a chain of entries of `:types`, however long, leads from one type to another, one with as many entries as
/// there are does.
pub fn type_chains()
    ensures { (types : List Typed) (entries : ℕ) (from to : Name) →
        IsTrue (leads types entries from to) → IsTrue (leads types (length types) from to) }
{}

/// A step is idle where it leaves the state as it was. Whether a step is idle can be told. A plan without idle steps
/// is a plan, and taking the idle steps out of a plan leaves a plan of no greater cost.
pub fn idle_steps()
    ensures told { (domain : Domain) (problem : Problem) (state : State) (step : Step) (next : State) →
        Takes (pddl_task domain problem) state step next → IsIdle state next ⊎ (IsIdle state next → ⊥) }
    ensures busy_plan { (domain : Domain) (problem : Problem) (names : List Name) (cost : ℕ) →
        HasBusyPlan domain problem names cost → HasPlan domain problem names cost }
    ensures left_out { (domain : Domain) (problem : Problem) (names : List Name) (cost : ℕ)
        (plan : HasPlan domain problem names cost) → LeavesPlan (pddl_task domain problem) names cost plan }
{}

/// A lamp that one action, `switch`, makes lit at a cost of 3: it has a plan of that name and cost. It has none without
/// steps, as the goal doesn't hold at the start, and none of that name at another cost.
pub fn worked_pair()
    ensures has_plan { HasPlan lamp lit_lamp (codes "switch" ∷ []) 3 }
    ensures no_steps { (cost : ℕ) → HasPlan lamp lit_lamp [] cost → ⊥ }
    ensures one_cost { (cost : ℕ) → HasPlan lamp lit_lamp (codes "switch" ∷ []) cost → cost ≡ 3 }
{}
