//! Tests of planning tasks over variables, worked by hand: the lists that they are made of, what they mean, their text as it
//! is written and read back, plans that are mapped back to their operators, copies, the projection, and passes and their
//! book.
//!
//! They stand apart from the crates that they test, which would otherwise be proved once more with them.
#![tactic(auto)]

#[cfg(test)]
mod chain;
#[cfg(test)]
mod examples;
#[cfg(test)]
mod first_faults;
#[cfg(test)]
mod h2;
#[cfg(test)]
mod items;
#[cfg(test)]
mod line_rules;
#[cfg(test)]
mod meaning;
#[cfg(test)]
mod passes;
#[cfg(test)]
mod planner_texts;
#[cfg(test)]
mod plans;
#[cfg(test)]
mod projection;
#[cfg(test)]
mod reading;
#[cfg(test)]
mod relevance;
#[cfg(test)]
mod tasks;
