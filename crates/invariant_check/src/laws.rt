//! Laws of invariants. The functions do nothing: their clauses are the laws.

ghost use Rattle.std.specs.Prelude.{◌≡◌, true, false, [], ◌∷◌, map};
ghost use Rattle.normal_task.specs.declared.task.Literal.TheVariants.{Equal};
ghost use Rattle.normal_task.specs.declared.task.Normal.{Normal};
ghost use Rattle.contradictions.specs.declared.types.Candidate.{Candidate};
ghost use Rattle.contradictions.specs.Candidates.{covers};
ghost use Rattle.contradictions.specs.Contradictory.{in_one_class, is_contradictory};
ghost use Rattle.contradictions.specs.Closure.{ClassesAreClosures};
ghost use Rattle.invariant_check.specs.declared.types.Verdict.TheVariants.{Accepted, Dropped, Unbalanced};
ghost use Rattle.invariant_check.specs.Accepted.{is_light, is_balanced, is_accepted};
ghost use Rattle.invariant_check.specs.Examples.{p, not_p, q, not_q, r, not_r, x, y, z, a, b, both_objects, adds, deletes, only_p, p_and_q, p_and_q_of_one, counted_p, one_action, action_of_one, action_of_two, switch, back, late, predicates_of, of_object, counting, with_schemas, action};
ghost use Rattle.invariant_check.specs.Soundness.{InvariantsAreSound, InvariantsAreSoundInFiles, WeightsStayAtMostOne};
ghost use Rattle.invariant_check.specs.Names.{of_parts, OnePredicateIsAll, ExtensionsAreAll, SameAreEqual};
ghost use Rattle.invariant_check.specs.Repairs.{repairs_at, verdict, is_accepted_verdict};

/// An instance of an accepted candidate with weight at most one at the start has weight at most one in every reachable
/// state of the normal task, and of the files that it is made of.
pub fn invariants_are_sound()
    ensures pairwise { InvariantsAreSound }
    ensures by_weight { WeightsStayAtMostOne }
    ensures in_files { InvariantsAreSoundInFiles }
{}

/// Being in one class is the least equivalence that has the pairs.
pub fn classes_are_closures()
    ensures { ClassesAreClosures }
{}

/// A candidate is accepted exactly where it is light and balanced.
pub fn accepted_exactly()
    ensures { (task : Normal) (candidate : Candidate) → is_accepted_verdict (verdict task candidate) ≡ is_accepted task candidate }
{}

/// The candidates that are listed are all: those of one predicate are the well-formed candidates of one part, and the
/// extensions of a well-formed candidate are the well-formed ones that have one part more, for another predicate. The names
/// of parameters mean nothing: candidates that differ by them are the same, and of these one is well formed.
pub fn candidates_are_all()
    ensures one_predicate { OnePredicateIsAll }
    ensures extensions { ExtensionsAreAll }
    ensures one_form { SameAreEqual }
{}

/// What an instance covers: the atoms of a part that have its objects at the places of the parameters.
pub fn covering_examples()
    ensures of_the_first_part { covers p_and_q_of_one (0 ∷ []) (of_object 0 0) ≡ true }
    ensures of_the_second_part { covers p_and_q_of_one (0 ∷ []) (of_object 1 0) ≡ true }
    ensures of_no_part { covers p_and_q_of_one (0 ∷ []) (of_object 2 0) ≡ false }
    ensures other_object { covers p_and_q_of_one (0 ∷ []) (of_object 0 1) ≡ false }
    ensures counted { covers counted_p [] (of_object 0 1) ≡ true }
{}

/// Lists of literals that are contradictory, and some that aren't, by what makes the difference.
pub fn contradictory_examples()
    ensures one_class { in_one_class ((x, y) ∷ (z, y) ∷ []) x z ≡ true }
    ensures two_classes { in_one_class ((x, y) ∷ []) x z ≡ false }
    ensures complementary { is_contradictory p_and_q_of_one (both_objects ∷ []) (p (x ∷ []) ∷ not_p (x ∷ []) ∷ []) [] (x ∷ []) ≡ true }
    ensures other_predicate { is_contradictory p_and_q_of_one (both_objects ∷ []) (p (x ∷ []) ∷ not_q (x ∷ []) ∷ []) [] (x ∷ []) ≡ false }
    ensures other_term { is_contradictory p_and_q_of_one (both_objects ∷ both_objects ∷ []) (p (x ∷ []) ∷ not_p (y ∷ []) ∷ []) [] (x ∷ []) ≡ false }
    ensures equated { is_contradictory p_and_q_of_one (both_objects ∷ both_objects ∷ []) (p (x ∷ []) ∷ not_p (y ∷ []) ∷ []) ((y, x) ∷ []) (x ∷ []) ≡ true }
    ensures by_an_equality { is_contradictory p_and_q_of_one (both_objects ∷ both_objects ∷ []) (p (x ∷ []) ∷ Equal true x y ∷ not_p (y ∷ []) ∷ []) [] (x ∷ []) ≡ true }
    ensures by_no_inequality { is_contradictory p_and_q_of_one (both_objects ∷ both_objects ∷ []) (p (x ∷ []) ∷ Equal false x y ∷ not_p (y ∷ []) ∷ []) [] (x ∷ []) ≡ false }
    ensures must_differ { is_contradictory p_and_q_of_one (both_objects ∷ both_objects ∷ []) (Equal false x y ∷ []) ((x, y) ∷ []) (x ∷ []) ≡ true }
    ensures two_objects { is_contradictory p_and_q_of_one (both_objects ∷ []) [] ((x, a) ∷ (x, b) ∷ []) (x ∷ []) ≡ true }
    ensures nothing_common { is_contradictory p_and_q_of_one ((0 ∷ []) ∷ (1 ∷ []) ∷ []) [] ((x, y) ∷ []) (x ∷ []) ≡ true }
    ensures one_common { is_contradictory p_and_q_of_one ((0 ∷ []) ∷ both_objects ∷ []) [] ((x, y) ∷ []) (x ∷ []) ≡ false }
    // Any two of the three terms share an object, but the class has none in common.
    ensures none_of_three { is_contradictory p_and_q_of_one ((0 ∷ 1 ∷ []) ∷ (1 ∷ 2 ∷ []) ∷ (0 ∷ 2 ∷ []) ∷ []) [] ((x, y) ∷ (y, z) ∷ []) (x ∷ []) ≡ true }
    // The terms that have classes: those of the list alone, in equalities and in atoms, and those of the instance alone.
    ensures two_objects_by_equalities { is_contradictory p_and_q_of_one (both_objects ∷ both_objects ∷ []) (Equal true y a ∷ Equal true y b ∷ []) [] (x ∷ []) ≡ true }
    ensures stands_in_an_atom { is_contradictory p_and_q_of_one (both_objects ∷ [] ∷ []) (p (y ∷ []) ∷ []) [] (x ∷ []) ≡ true }
    ensures stands_in_the_instance { is_contradictory p_and_q_of_one ([] ∷ []) [] [] (x ∷ []) ≡ true }
    // The second parameter stands nowhere: it has no class, though no object is in its range.
    ensures stands_nowhere { is_contradictory p_and_q_of_one (both_objects ∷ [] ∷ []) (p (x ∷ []) ∷ []) [] (x ∷ []) ≡ false }
    ensures two_of_the_instance { is_contradictory p_and_q_of_one (both_objects ∷ []) (p (x ∷ []) ∷ q (x ∷ []) ∷ []) [] (x ∷ []) ≡ true }
    ensures of_two_instances { is_contradictory p_and_q_of_one (both_objects ∷ both_objects ∷ []) (p (x ∷ []) ∷ q (y ∷ []) ∷ []) [] (x ∷ []) ≡ false }
    ensures one_predicate { is_contradictory p_and_q_of_one (both_objects ∷ []) (p (x ∷ []) ∷ p (x ∷ []) ∷ []) [] (x ∷ []) ≡ false }
{}

/// Candidates that are light, and some that aren't.
pub fn light_examples()
    ensures two_added { is_light (one_action [] (adds [] [] 0 [] ∷ adds [] [] 1 [] ∷ [])) p_and_q ≡ false }
    ensures of_another_predicate { is_light (one_action [] (adds [] [] 0 [] ∷ adds [] [] 1 [] ∷ [])) only_p ≡ true }
    ensures one_deleted { is_light (one_action [] (adds [] [] 0 [] ∷ deletes [] [] 1 [] ∷ [])) p_and_q ≡ true }
    ensures first_held_before { is_light (one_action (p [] ∷ []) (adds [] [] 0 [] ∷ adds [] [] 1 [] ∷ [])) p_and_q ≡ true }
    ensures conditions_exclude { is_light (one_action [] (adds [] (r ∷ []) 0 [] ∷ adds [] (not_r ∷ []) 1 [] ∷ [])) p_and_q ≡ true }
    ensures ranges_exclude { is_light (with_schemas 1 (action [] [] (adds ((0 ∷ []) ∷ []) [] 0 (x ∷ []) ∷ adds ((1 ∷ []) ∷ []) [] 1 (x ∷ []) ∷ []) ∷ [])) p_and_q_of_one ≡ true }
    ensures one_object { is_light (action_of_one [] (adds (both_objects ∷ []) (Equal true y a ∷ []) 0 (y ∷ []) ∷ [])) counted_p ≡ true }
    ensures beside_itself { is_light (action_of_one [] (adds (both_objects ∷ []) [] 0 (y ∷ []) ∷ [])) counted_p ≡ false }
    ensures once_an_instance { is_light (action_of_one [] (adds (both_objects ∷ []) [] 0 (y ∷ []) ∷ [])) p_and_q_of_one ≡ true }
{}

/// Candidates that are balanced, and some that aren't.
pub fn balanced_examples()
    ensures swapped { is_balanced switch p_and_q ≡ true }
    ensures not_swapped { is_balanced switch only_p ≡ false }
    ensures true_already { is_balanced (one_action (p [] ∷ []) (adds [] [] 0 [] ∷ [])) only_p ≡ true }
    ensures not_required { is_balanced (one_action [] (adds [] [] 0 [] ∷ deletes [] [] 1 [] ∷ [])) p_and_q ≡ false }
    ensures not_deleted { is_balanced (one_action (q [] ∷ []) (adds [] [] 0 [] ∷ adds [] [] 1 [] ∷ [])) p_and_q ≡ false }
    ensures deleted_where_it_adds { is_balanced (one_action (q [] ∷ []) (adds [] (r ∷ []) 0 [] ∷ deletes [] (r ∷ []) 1 [] ∷ [])) p_and_q ≡ true }
    ensures deleted_elsewhere { is_balanced (one_action (q [] ∷ []) (adds [] [] 0 [] ∷ deletes [] (r ∷ []) 1 [] ∷ [])) p_and_q ≡ false }
    // A negative literal is required where the precondition has it.
    ensures deleted_where_false { is_balanced (one_action (q [] ∷ not_r ∷ []) (adds [] [] 0 [] ∷ deletes [] (not_r ∷ []) 1 [] ∷ [])) p_and_q ≡ true }
    // So is an inequality, with its sides in the same order.
    ensures deleted_where_they_differ { is_balanced (action_of_two (q (x ∷ []) ∷ Equal false x y ∷ []) (adds [] [] 0 (x ∷ []) ∷ deletes [] (Equal false x y ∷ []) 1 (x ∷ []) ∷ [])) p_and_q_of_one ≡ true }
    ensures sides_are_ordered { is_balanced (action_of_two (q (x ∷ []) ∷ Equal false x y ∷ []) (adds [] [] 0 (x ∷ []) ∷ deletes [] (Equal false y x ∷ []) 1 (x ∷ []) ∷ [])) p_and_q_of_one ≡ false }
    ensures restored { is_balanced (one_action (q [] ∷ []) (adds [] [] 0 [] ∷ deletes [] [] 1 [] ∷ adds [] [] 1 [] ∷ [])) p_and_q ≡ false }
    ensures never_restored { is_balanced (one_action (q [] ∷ r ∷ []) (adds [] [] 0 [] ∷ deletes [] [] 1 [] ∷ adds [] (not_r ∷ []) 1 [] ∷ [])) p_and_q ≡ true }
    ensures restored_where_not_new { is_balanced (one_action (q [] ∷ []) (adds [] [] 0 [] ∷ deletes [] [] 1 [] ∷ adds [] (p [] ∷ []) 1 [] ∷ [])) p_and_q ≡ true }
    ensures of_the_instance { is_balanced (action_of_one (q (x ∷ []) ∷ []) (adds [] [] 0 (x ∷ []) ∷ deletes [] [] 1 (x ∷ []) ∷ [])) p_and_q_of_one ≡ true }
    ensures of_another_instance { is_balanced (action_of_two (q (y ∷ []) ∷ []) (adds [] [] 0 (x ∷ []) ∷ deletes [] [] 1 (y ∷ []) ∷ [])) p_and_q_of_one ≡ false }
    ensures for_all_objects { is_balanced (action_of_one (q (x ∷ []) ∷ []) (adds [] [] 0 (x ∷ []) ∷ deletes (both_objects ∷ []) [] 1 (y ∷ []) ∷ [])) p_and_q_of_one ≡ true }
    ensures not_for_all_objects { is_balanced (action_of_one (q (x ∷ []) ∷ []) (adds [] [] 0 (x ∷ []) ∷ deletes ((0 ∷ []) ∷ []) [] 1 (y ∷ []) ∷ [])) p_and_q_of_one ≡ false }
    ensures for_some_object { is_balanced (action_of_one (q (x ∷ []) ∷ []) (adds [] [] 0 (x ∷ []) ∷ deletes (both_objects ∷ []) [] 1 (x ∷ []) ∷ [])) p_and_q_of_one ≡ true }
    ensures for_no_object { is_balanced (action_of_one (q (x ∷ []) ∷ []) (adds [] [] 0 (x ∷ []) ∷ deletes ([] ∷ []) [] 1 (x ∷ []) ∷ [])) p_and_q_of_one ≡ false }
{}

/// What the check says of some candidates.
pub fn verdict_examples()
    ensures turned_on { verdict switch p_and_q ≡ Accepted }
    ensures can_be_repaired { verdict switch only_p ≡ Unbalanced (record { schema = 0; effect = 0 }) }
    ensures repaired { map predicates_of (repairs_at switch only_p (record { schema = 0; effect = 0 })) ≡ (0 ∷ 1 ∷ []) ∷ [] }
    ensures comes_back { verdict back p_and_q_of_one ≡ Dropped }
    ensures not_light { verdict (one_action [] (adds [] [] 0 [] ∷ adds [] [] 1 [] ∷ [])) p_and_q ≡ Dropped }
    ensures first_of_two { verdict late only_p ≡ Unbalanced (record { schema = 1; effect = 1 }) }
    ensures moves { verdict back (of_parts 0 (counting 1 ∷ [])) ≡ Accepted }
{}
