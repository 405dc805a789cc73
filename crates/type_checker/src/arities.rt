// Wrong numbers of arguments in the two files.
ghost use Rattle.std.specs.Prelude.{◌≡◌};
ghost use Rattle.fault_positions.specs.Positions.{earliest};
ghost use Rattle.fault_positions.specs.Mentioned.{AreMentioned};
ghost use Rattle.fault_positions.specs.Mentions.{in_problem};
ghost use Rattle.fault_positions.specs.Names.{wrong_uses, domain_arities};

use fault_positions::{Files, FirstPositions, earlier, first_total_cost_head, first_wrong_use};

/// The first uses with another number of arguments than any declaration has, and declarations of `total-cost` with some.
pub(crate) fn first_wrong_arities(files: &Files<'_>) -> FirstPositions
    requires { AreMentioned files.now }
    ensures { result ≡ (earliest (domain_arities files.now.domain.now), earliest (wrong_uses files.now.domain.now (in_problem files.now.problem.now))) }
{
    let in_uses = first_wrong_use(files.signature, files.domain_mentions);
    (
        earlier(first_total_cost_head(files.domain), in_uses),
        first_wrong_use(files.signature, files.problem_mentions),
    )
}
