//! Tests of the tasks that are made of a pair of files, over texts, worked by hand: the normal task and the objects of its
//! atoms; which candidates for invariants are tried, accepted and repaired; the ground task, what can be reached of it, and
//! its layers; groups of facts and their covers.
//!
//! What is written of a task hides much of them: a later step drops what can't hold. So they are looked at themselves. They
//! stand apart from the crates that they test, which would otherwise be proved once more with them.
#![tactic(auto)]

#[cfg(test)]
mod candidates;
#[cfg(test)]
mod covers;
#[cfg(test)]
mod ground_tasks;
#[cfg(test)]
mod grounds;
#[cfg(test)]
mod grouped;
#[cfg(test)]
mod groups;
#[cfg(test)]
mod large;
#[cfg(test)]
mod lines;
#[cfg(test)]
mod listed;
#[cfg(test)]
mod made;
#[cfg(test)]
mod moves;
#[cfg(test)]
mod normal;
#[cfg(test)]
mod objects;
#[cfg(test)]
mod searches;
#[cfg(test)]
mod shown;
#[cfg(test)]
mod tasks;
#[cfg(test)]
mod texts;
#[cfg(test)]
mod verdicts;
