// A domain and a problem, with what the checks of their names look through.
use crate::heads::Signature;
use crate::mentions::Mention;
use pddl_syntax::{Domain, Problem};

/// A domain and a problem, what each of them mentions, and the table of what is declared.
#[derive(Clone, Copy)]
pub struct Files<'a> {
    pub domain: &'a Domain,
    pub problem: &'a Problem,
    pub domain_mentions: &'a [Mention<'a>],
    pub problem_mentions: &'a [Mention<'a>],
    pub signature: &'a Signature<'a>,
}
