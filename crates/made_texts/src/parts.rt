//! The parts of the made texts that are the same for every number of balls.

ghost use Rattle.std.specs.Prelude.{◌≡◌};
ghost use Rattle.made_texts.specs.Texts as spec;

/// Name, requirements, types and predicates of the domain.
#[tactic(auto, unfolding(crate::specs::Texts::domain_head))]
pub(crate) fn domain_head() -> &'static [u8]
    ensures { result.now ≡ spec.domain_head }
{
    b"(define (domain gripper)
 (:requirements :strips :typing)
 (:types room ball gripper)
 (:predicates (at-robby ?r - room) (at ?b - ball ?r - room)
  (free ?g - gripper) (carry ?b - ball ?g - gripper))
"
}

/// The action that moves the robot.
#[tactic(auto, unfolding(crate::specs::Texts::move_action))]
pub(crate) fn move_action() -> &'static [u8]
    ensures { result.now ≡ spec.move_action }
{
    b" (:action move :parameters (?from ?to - room)
  :precondition (at-robby ?from)
  :effect (and (at-robby ?to) (not (at-robby ?from))))
"
}

/// The action that picks a ball up.
#[tactic(auto, unfolding(crate::specs::Texts::pick_action))]
pub(crate) fn pick_action() -> &'static [u8]
    ensures { result.now ≡ spec.pick_action }
{
    b" (:action pick :parameters (?b - ball ?r - room ?g - gripper)
  :precondition (and (at ?b ?r) (at-robby ?r) (free ?g))
  :effect (and (carry ?b ?g) (not (at ?b ?r)) (not (free ?g))))
"
}

/// The action that puts a ball down, and the end of the domain.
#[tactic(auto, unfolding(crate::specs::Texts::drop_action))]
pub(crate) fn drop_action() -> &'static [u8]
    ensures { result.now ≡ spec.drop_action }
{
    b" (:action drop :parameters (?b - ball ?r - room ?g - gripper)
  :precondition (and (carry ?b ?g) (at-robby ?r))
  :effect (and (at ?b ?r) (free ?g) (not (carry ?b ?g)))))
"
}

/// Name and domain of the problem, and its objects before the balls.
#[tactic(auto, unfolding(crate::specs::Texts::problem_head))]
pub(crate) fn problem_head() -> &'static [u8]
    ensures { result.now ≡ spec.problem_head }
{
    b"(define (problem made)
 (:domain gripper)
 (:objects rooma roomb - room left right - gripper
 "
}

/// The end of the objects, and the initial state before the places of the balls.
#[tactic(auto, unfolding(crate::specs::Texts::before_places))]
pub(crate) fn before_places() -> &'static [u8]
    ensures { result.now ≡ spec.before_places }
{
    b" - ball)
 (:init (at-robby rooma) (free left) (free right)
 "
}

/// The end of the initial state, and the goal before the places of the balls.
#[tactic(auto, unfolding(crate::specs::Texts::before_goal))]
pub(crate) fn before_goal() -> &'static [u8]
    ensures { result.now ≡ spec.before_goal }
{
    b")
 (:goal (and"
}

/// The end of the goal and of the problem.
#[tactic(auto, unfolding(crate::specs::Texts::problem_end))]
pub(crate) fn problem_end() -> &'static [u8]
    ensures { result.now ≡ spec.problem_end }
{
    b")))
"
}
