//! Laws of normal tasks. The functions do nothing: their clauses are the laws.

ghost use Rattle.std.specs.Prelude.{◌≡◌, ◌++◌, ◌∷◌, ℕ, Bool, List, true, [], length, if◌then◌else◌};
ghost use Rattle.std.specs.List.{list_any};
ghost use Rattle.planning.specs.Same.{MeansTheSame};
ghost use Rattle.pddl_syntax.specs.declared.types.Condition.{Condition};
ghost use Rattle.pddl_syntax.specs.declared.types.Domain.{Domain};
ghost use Rattle.pddl_syntax.specs.declared.types.Problem.{Problem};
ghost use Rattle.pddl_syntax.specs.Plan.{pddl_task};
ghost use Rattle.pddl_syntax.specs.Spelled.{IsWellSpelled, IsWellSpelledProblem};
ghost use Rattle.fault_positions.specs.Sizes.{size_of};
ghost use Rattle.type_checker.specs.Faults.{check_faults};
ghost use Rattle.normal_task.specs.Lawful.{IsLawful};
ghost use Rattle.normal_task.specs.Meaning.{normal_task};
ghost use Rattle.normal_task.specs.Normalised.{normal, once_after};
ghost use Rattle.normal_task.specs.Parts.{Scope, parts};
ghost use Rattle.normal_task.specs.Refused.{small, IsRefused};
ghost use Rattle.normal_task.specs.Same.{Shows};
ghost use Rattle.normal_task.specs.TellCosts.{NamesTellCosts};

/// The normal task of a checked pair has the plans of the files, with the same names and costs, and reaches the same
/// states.
pub fn same_task()
    ensures { (domain : Domain) (problem : Problem) → check_faults domain problem ≡ [] →
        MeansTheSame (pddl_task domain problem) (normal_task (normal domain problem)) (Shows domain problem) }
{}

/// Steps of the normal task of a checked pair that have one name have one cost: a name tells the action and the
/// objects that are shown, and these tell the cost.
pub fn names_tell_costs()
    ensures { (domain : Domain) (problem : Problem) → IsWellSpelled domain → IsWellSpelledProblem problem → check_faults domain problem ≡ [] →
        NamesTellCosts (normal_task (normal domain problem)) }
{
    type_checker::laws::declared_once();
}

/// A condition has as many parts as the bound on parts counts.
pub fn as_many_parts()
    ensures { (domain : Domain) (problem : Problem) (condition : Condition) (positive : Bool) (scope : Scope) (around next : ℕ) →
        length (parts domain problem condition positive scope around next).items ≡ (size_of condition positive).parts }
{}

/// The normal task of a checked pair that is well spelled is lawful: its numbers are positions, its atoms have the
/// arities of their predicates, its names are words, and no derived predicate depends on itself.
pub fn lawful()
    ensures { (domain : Domain) (problem : Problem) → IsWellSpelled domain → IsWellSpelledProblem problem → check_faults domain problem ≡ [] →
        IsLawful (normal domain problem) }
{}

/// A small task is lawful, and those that differ from it in one place, each in another clause, aren't.
pub fn refused_examples()
    ensures lawful { IsLawful small }
    ensures refused { IsRefused }
{}

/// What is kept of a list each of whose items is to stand once: behind what is kept of the items before it, an item is
/// kept exactly where none of them is the same.
pub fn kept_once<A>()
    ensures { (domain : Domain) (problem : Problem) (same : A → A → Bool) → ((a b c : A) → same a b ≡ true → same b c ≡ true → same a c ≡ true) →
        (before items : List A) (item : A) → once_after domain problem same before (items ++ item ∷ []) ≡
        once_after domain problem same before items ++ (if list_any (same item) (before ++ items) then [] else item ∷ []) }
{}
