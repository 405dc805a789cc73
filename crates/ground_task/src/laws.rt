//! Laws of the definitions. The functions do nothing: their clauses are the laws.

ghost use Rattle.std.specs.Prelude.{◌≡◌, []};
ghost use Rattle.planning.specs.Same.{MeansTheSame};
ghost use Rattle.pddl_syntax.specs.declared.types.Domain.{Domain};
ghost use Rattle.pddl_syntax.specs.declared.types.Problem.{Problem};
ghost use Rattle.type_checker.specs.Faults.{check_faults};
ghost use Rattle.normal_task.specs.declared.task.Normal.{Normal};
ghost use Rattle.normal_task.specs.Lawful.{IsLawful as IsLawfulNormal};
ghost use Rattle.normal_task.specs.Meaning.{normal_task};
ghost use Rattle.normal_task.specs.Normalised.{normal};
ghost use Rattle.ground_task.specs.declared.types.Ground.{Ground};
ghost use Rattle.ground_task.specs.Alike.{AreAlike};
ghost use Rattle.ground_task.specs.Examples.{lamp, IsRefused};
ghost use Rattle.ground_task.specs.GroundTask.{ground_task};
ghost use Rattle.ground_task.specs.Instances.{instance_task, static_settling, IsGroundTask};
ghost use Rattle.ground_task.specs.Lawful.{IsLawful};
ghost use Rattle.ground_task.specs.Literals.{meaning};
ghost use Rattle.ground_task.specs.Ranked.{IsRanked};
ghost use Rattle.ground_task.specs.Settled.{Shows};
ghost use Rattle.ground_task.specs.Statics.{KeepsStatics};

/// The ground task means what the normal task means, where a state of the ground task has the values of the atoms that aren't
/// static, and the static ones keep the values of the start.
pub fn same_meaning()
    ensures { (task : Normal) (result : Ground) → KeepsStatics task → IsGroundTask task result →
        MeansTheSame (normal_task task) (meaning (ground_task result)) (Shows (static_settling task)) }
{}

/// Where no derived atom depends on itself through the axioms' instances, none does in the ground task.
pub fn no_recursion()
    ensures { (task : Normal) (result : Ground) → KeepsStatics task → IsGroundTask task result →
        IsRanked (instance_task task) → IsRanked (ground_task result) }
{}

/// The normal task of a checked pair keeps its static predicates.
pub fn statics_kept()
    ensures { (domain : Domain) (problem : Problem) → check_faults domain problem ≡ [] → KeepsStatics (normal domain problem) }
{}

/// No derived atom of the instances of a checked pair's normal task depends on itself.
pub fn instances_ranked()
    ensures { (domain : Domain) (problem : Problem) → check_faults domain problem ≡ [] → IsRanked (instance_task (normal domain problem)) }
{}

/// A lawful normal task keeps its static predicates.
pub fn keeps_statics()
    ensures { (task : Normal) → IsLawfulNormal task → KeepsStatics task }
{}

/// No derived atom of the instances of a lawful normal task depends on itself.
pub fn falling_ranks()
    ensures { (task : Normal) → IsLawfulNormal task → IsRanked (instance_task task) }
{}

/// No derived atom of a lawful ground task depends on itself through the axioms.
pub fn lawful_ranks()
    ensures { (task : Ground) → IsLawful task → IsRanked (ground_task task) }
{}

/// The ground task of a lawful normal task is lawful.
pub fn lawful()
    ensures { (task : Normal) (result : Ground) → IsLawfulNormal task → IsGroundTask task result → IsLawful result }
{}

/// A normal task has one ground task, but for the order of actions and axioms.
pub fn one_ground_task()
    ensures { (task : Normal) (a b : Ground) → IsGroundTask task a → IsGroundTask task b → AreAlike a b }
{}

/// A small ground task is lawful, and those that differ from it in one part, each in another thing, aren't.
pub fn lawful_examples()
    ensures lawful { IsLawful lamp }
    ensures refused { IsRefused }
{}
