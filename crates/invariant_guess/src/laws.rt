//! Laws of the trial order. The functions do nothing: their clauses are the laws.

ghost use Rattle.std.specs.Prelude.{◌≡◌, ℕ, suc, Bool, true, List, [], ◌∷◌, length, take, filter, min, Contains};
ghost use Rattle.std.specs.List.{list_all};
ghost use Rattle.normal_task.specs.declared.task.Normal.{Normal};
ghost use Rattle.normal_task.specs.Lawful.{differ};
ghost use Rattle.contradictions.specs.declared.types.Candidate.{Candidate};
ghost use Rattle.invariant_check.specs.Accepted.{is_accepted};
ghost use Rattle.invariant_check.specs.Examples.{switch, back};
ghost use Rattle.invariant_check.specs.Extensions.{one_predicate};
ghost use Rattle.invariant_check.specs.WellFormed.{is_well_formed};
ghost use Rattle.invariant_guess.specs.declared.types.Found.{Found};
ghost use Rattle.invariant_guess.specs.Examples.{found, on, off, on_and_off, one_q, bell, one_place, blocks, hand, below_block, above_block};
ghost use Rattle.invariant_guess.specs.Trial.{repairs, is_same, turn, AreTried, IsFound, IsTrialOrder};

/// The queue has well-formed candidates, each once, and a trial only adds some behind them.
pub fn queues()
    ensures well_formed { (task : Normal) (number : ℕ) → list_all (is_well_formed task) (turn task number) ≡ true }
    ensures each_once { (task : Normal) (number : ℕ) → differ is_same (turn task number) ≡ true }
    ensures goes_on { (task : Normal) (number : ℕ) → take (length (turn task number)) (turn task (suc number)) ≡ turn task number }
{}

/// The queue has the candidates of one predicate, the repairs of all that are tried, and nothing that these don't reach.
pub fn closure()
    ensures begins { (task : Normal) (number : ℕ) (candidate : Candidate) → Contains (one_predicate task) candidate → Contains (turn task number) candidate }
    ensures repaired { (task : Normal) (number : ℕ) (candidate repair : Candidate) →
        Contains (take number (turn task number)) candidate → Contains (repairs task candidate) repair → Contains (turn task number) repair }
    ensures least { (task : Normal) (test : Candidate → Bool) → list_all test (one_predicate task) ≡ true →
        ((candidate : Candidate) → test candidate ≡ true → list_all test (repairs task candidate) ≡ true) → (number : ℕ) → list_all test (turn task number) ≡ true }
{}

/// There is one trial order. As many candidates are tried as it has, or `max` where it has more, and these are its first.
pub fn tried()
    ensures some_order { (task : Normal) → (order : List Candidate) × IsTrialOrder task order }
    ensures some { (task : Normal) (max : ℕ) → (number : ℕ) × AreTried task max number }
    ensures one { (task : Normal) (max number other : ℕ) → AreTried task max number → AreTried task max other → number ≡ other }
    ensures smaller { (task : Normal) (order : List Candidate) → IsTrialOrder task order → (max number : ℕ) → AreTried task max number → number ≡ min max (length order) }
    ensures first { (task : Normal) (order : List Candidate) → IsTrialOrder task order → (max number : ℕ) → AreTried task max number → take number (turn task number) ≡ take number order }
{}

/// What is found are well-formed candidates that are light and balanced, and there is one list of them.
pub fn finds()
    ensures one { (task : Normal) (max : ℕ) (found other : Found) → IsFound task max found → IsFound task max other → found ≡ other }
    ensures well_formed { (task : Normal) (max : ℕ) (found : Found) → IsFound task max found → list_all (is_well_formed task) found.accepted ≡ true }
    ensures accepted { (task : Normal) (max : ℕ) (found : Found) → IsFound task max found → list_all (is_accepted task) found.accepted ≡ true }
{}

/// Searches that were worked by hand.
pub fn worked_examples()
    ensures order_of_switch { turn switch 3 ≡ on ∷ off ∷ on_and_off ∷ [] }
    ensures switch { IsFound switch 100000 (found 3 (off ∷ on_and_off ∷ [])) }
    ensures two_of_switch { IsFound switch 2 (found 2 (off ∷ [])) }
    ensures none_of_switch { IsFound switch 0 (found 0 []) }
    ensures back { IsFound back 100000 (found 4 (one_q ∷ [])) }
    ensures bell { IsFound bell 100000 (found 3 (one_place ∷ [])) }
    ensures blocks_tried { length (turn blocks 20) ≡ 20 }
    ensures blocks_accepted { filter (is_accepted blocks) (turn blocks 20) ≡ hand ∷ below_block ∷ above_block ∷ [] }
{}
