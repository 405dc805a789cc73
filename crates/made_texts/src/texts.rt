//! The made texts.

ghost use Rattle.std.specs.Prelude.{◌≡◌, ◌++◌, IfOk, OnOk};
ghost use Rattle.made_texts.specs.Texts as spec;

use crate::parts::{
    before_goal, before_places, domain_head, drop_action, move_action, pick_action, problem_end,
    problem_head,
};
use itoa::Buffer;
use std::alloc::{AllocError, Global};

/// The made domain, a robot with two grippers in two rooms: `move`, `pick` and `drop`.
pub fn domain(alloc: Global) -> Result<Vec<u8>, AllocError>
    ensures { IfOk result (λ text. text.items ≡ spec.domain) }
{
    let mut text = Vec::new(alloc);
    text.extend_from_slice(domain_head())?;
    text.extend_from_slice(move_action())?;
    text.extend_from_slice(pick_action())?;
    text.extend_from_slice(drop_action())?;
    Ok(text)
}

/// The made problem: so many balls, from `ball1` on, are to be carried from `rooma` to `roomb`.
pub fn problem(alloc: Global, balls: u32) -> Result<Vec<u8>, AllocError>
    ensures { IfOk result (λ text. text.items ≡ spec.problem balls) }
{
    let mut text = Vec::new(alloc);
    text.extend_from_slice(problem_head())?;
    push_balls(&mut text, balls, b" ", b"")?;
    text.extend_from_slice(before_places())?;
    push_balls(&mut text, balls, b" (at ", b" rooma)")?;
    text.extend_from_slice(before_goal())?;
    push_balls(&mut text, balls, b" (at ", b" roomb)")?;
    text.extend_from_slice(problem_end())?;
    Ok(text)
}

/// The names of so many balls, from `ball1` on, each between these two texts.
fn push_balls(text: &mut Vec<u8>, balls: u32, before: &[u8], after: &[u8]) -> Result<(), AllocError>
    ensures { OnOk result (text.new.items ≡ text.old.items ++ spec.each_ball balls before.now after.now) }
{
    for number in 0..balls {
        push_ball(text, number + 1, before, after)?;
    }
    Ok(())
}

/// The name of a ball between these two texts.
fn push_ball(text: &mut Vec<u8>, number: u32, before: &[u8], after: &[u8]) -> Result<(), AllocError>
    ensures { OnOk result (text.new.items ≡ text.old.items ++ (before.now ++ spec.ball number ++ after.now)) }
{
    text.extend_from_slice(before)?;
    text.extend_from_slice(b"ball")?;
    text.extend_from_slice(Buffer::new().format(number).as_bytes())?;
    text.extend_from_slice(after)
}
