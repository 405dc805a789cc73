//! Texts of pairs of files: a domain, and the problems of it.

/// A switch that is off can be flipped.
pub(crate) const SWITCH: &str = "(define (domain switch) (:predicates (on) (off))
 (:action flip :parameters () :precondition (off) :effect (and (on) (not (off)))))";

/// A switch that is off.
pub(crate) const ONE: &str = "(define (problem one) (:domain switch) (:init (off)) (:goal (on)))";

/// Blocks that one hand takes from the table and from one another.
pub(crate) const BLOCKS: &str = "(define (domain blocks)
 (:predicates (on ?x ?y) (ontable ?x) (clear ?x) (handempty) (holding ?x))
 (:action pick-up :parameters (?x) :precondition (and (clear ?x) (ontable ?x) (handempty))
  :effect (and (not (ontable ?x)) (not (clear ?x)) (not (handempty)) (holding ?x)))
 (:action put-down :parameters (?x) :precondition (holding ?x)
  :effect (and (not (holding ?x)) (clear ?x) (handempty) (ontable ?x)))
 (:action stack :parameters (?x ?y) :precondition (and (holding ?x) (clear ?y))
  :effect (and (not (holding ?x)) (not (clear ?y)) (clear ?x) (handempty) (on ?x ?y)))
 (:action unstack :parameters (?x ?y) :precondition (and (on ?x ?y) (clear ?x) (handempty))
  :effect (and (holding ?x) (clear ?y) (not (clear ?x)) (not (handempty)) (not (on ?x ?y)))))";

/// Three blocks on the table.
pub(crate) const THREE: &str = "(define (problem three) (:domain blocks) (:objects a b c)
 (:init (ontable a) (ontable b) (ontable c) (clear a) (clear b) (clear c) (handempty)) (:goal (and (on a b) (on b c))))";

/// What is taken from one object may be given back to it.
pub(crate) const BACK: &str = "(define (domain back) (:predicates (p ?x) (q ?x))
 (:action act :parameters (?x ?y) :precondition (q ?x) :effect (and (p ?x) (not (q ?x)) (q ?y))))";

/// Two objects, of which the first has it.
pub(crate) const TWO: &str =
    "(define (problem b) (:domain back) (:objects a b) (:init (q a)) (:goal (p b)))";

/// A bell rings where one isn't at the first place.
pub(crate) const BELL: &str = "(define (domain bell) (:constants l1) (:predicates (at ?l) (rung))
 (:action move :parameters (?x ?y) :precondition (at ?x) :effect (and (not (at ?x)) (at ?y)))
 (:action ring :precondition (not (at l1)) :effect (rung)))";

/// Four places.
pub(crate) const RUNG: &str =
    "(define (problem b) (:domain bell) (:objects l2 l3 l4) (:init (at l1)) (:goal (rung)))";

/// Two objects that both have it.
pub(crate) const BOTH: &str =
    "(define (problem both) (:domain back) (:objects a b) (:init (q a) (q b)) (:goal (p b)))";

/// A robot with grippers carries balls between rooms.
pub(crate) const GRIPPER: &str =
    "(define (domain gripper) (:requirements :strips :typing) (:types room ball gripper)
 (:predicates (at-robby ?r - room) (at ?b - ball ?r - room) (free ?g - gripper) (carry ?b - ball ?g - gripper))
 (:action move :parameters (?from ?to - room) :precondition (at-robby ?from)
  :effect (and (at-robby ?to) (not (at-robby ?from))))
 (:action pick :parameters (?b - ball ?r - room ?g - gripper) :precondition (and (at ?b ?r) (at-robby ?r) (free ?g))
  :effect (and (carry ?b ?g) (not (at ?b ?r)) (not (free ?g))))
 (:action drop :parameters (?b - ball ?r - room ?g - gripper) :precondition (and (carry ?b ?g) (at-robby ?r))
  :effect (and (at ?b ?r) (free ?g) (not (carry ?b ?g)))))";

/// Two rooms, two grippers and two balls.
pub(crate) const BALLS: &str = "(define (problem made) (:domain gripper)
 (:objects rooma roomb - room left right - gripper ball1 ball2 - ball)
 (:init (at-robby rooma) (free left) (free right) (at ball1 rooma) (at ball2 rooma))
 (:goal (and (at ball1 roomb) (at ball2 roomb))))";

/// Nothing makes q true but an action that needs r, and r is added only where q is true.
pub(crate) const CIRCLE: &str = "(define (domain circle) (:predicates (p) (q) (r) (s) (d) (e))
 (:action act :parameters () :precondition (and (p) (not (d)))
  :effect (and (when (q) (r)) (when (not (q)) (s)) (not (q)) (when (p) (not (s))) (not (p))))
 (:action never :parameters () :precondition (r) :effect (q))
 (:derived (d) (q))
 (:derived (e) (and (p) (not (q)))))";

/// p at the start.
pub(crate) const HALF: &str =
    "(define (problem half) (:domain circle) (:init (p)) (:goal (and (s) (not (r)))))";

/// What is wet of a tank wets what its roads lead to, all by one action.
pub(crate) const SPREAD: &str =
    "(define (domain spread) (:predicates (tank ?t) (road ?x ?y) (wet ?t ?x))
 (:action flow :parameters (?t) :precondition (tank ?t)
  :effect (forall (?x ?y) (when (and (road ?x ?y) (wet ?t ?x)) (wet ?t ?y)))))";

/// A tank, roads from a to b and from b to c, and one from d, which stays dry.
pub(crate) const FORK: &str = "(define (problem fork) (:domain spread) (:objects t a b c d e)
 (:init (tank t) (wet t a) (road a b) (road b c) (road d e)) (:goal (wet t c)))";

/// From a place with a road one comes to all others that it leads to. A place is near where a road leads from it to one's own.
pub(crate) const ROADS: &str = "(define (domain roads) (:predicates (road ?x ?y) (at ?x) (near ?x))
 (:action go :parameters (?x) :precondition (and (at ?x) (exists (?z) (road ?x ?z)))
  :effect (forall (?y) (and (when (and (not (= ?x ?y)) (road ?x ?y)) (at ?y)) (when (= ?x ?y) (not (at ?y))))))
 (:derived (near ?x) (exists (?y) (and (road ?x ?y) (at ?y)))))";

/// Roads from a to itself and to b, and none from b.
pub(crate) const ENDS: &str = "(define (problem ends) (:domain roads) (:objects a b c)
 (:init (at a) (road a a) (road a b)) (:goal (and (near a) (road b a))))";

/// f rests on d and on e, which rests on d. By an axiom that can't be reached it rests on g too, which rests on e.
pub(crate) const LAYERS: &str = "(define (domain layers) (:predicates (p) (q) (d) (e) (f) (g))
 (:action act :parameters () :precondition (p) :effect (not (p)))
 (:action never :parameters () :precondition (q) :effect (q))
 (:derived (d) (p))
 (:derived (e) (not (d)))
 (:derived (f) (or (d) (not (e))))
 (:derived (f) (and (q) (g)))
 (:derived (g) (e)))";

/// p at the start.
pub(crate) const LOW: &str =
    "(define (problem low) (:domain layers) (:init (p)) (:goal (and (f) (q))))";

/// One fact leads to the next, and nothing makes z true.
pub(crate) const CHAIN: &str = "(define (domain chain) (:predicates (a) (b) (c) (e) (y) (z))
 (:action last :parameters () :precondition (and (b) (c)) :effect (e))
 (:action second :parameters () :precondition (b) :effect (c))
 (:action first :parameters () :precondition (a) :effect (and (b) (not (a))))
 (:action lost :parameters () :precondition (and (a) (z)) :effect (and (y) (not (z)))))";

/// a at the start.
pub(crate) const START: &str = "(define (problem start) (:domain chain) (:init (a)) (:goal (e)))";
