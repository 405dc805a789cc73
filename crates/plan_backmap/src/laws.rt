//! Laws of the definitions. The functions do nothing: their clauses are the laws.

ghost use Rattle.plan_backmap.specs.Examples.{LineExamples, PlanExamples};
ghost use Rattle.plan_backmap.specs.Solutions.{SolutionsCostTheTotal};

/// Lines of plan files, and what each is.
pub fn worked_lines()
    ensures { LineExamples }
{}

/// Plan files, and what each comes to.
pub fn worked_plans()
    ensures { PlanExamples }
{}

/// Where operators of one name have one cost, a solution with the names of a plan's steps costs what they cost together.
pub fn solutions_cost_the_total()
    ensures { SolutionsCostTheTotal }
{}
