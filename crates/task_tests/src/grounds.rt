//! The reached tasks of ground tasks and of normal tasks.

ghost use Rattle.std.specs.Prelude.{◌≡◌, ◌<◌, IfOk};
ghost use Rattle.normal_task.specs.Lawful.{IsLawful as IsLawfulNormal};
ghost use Rattle.ground_task.specs.Lawful.{IsLawful as IsLawfulGround};
ghost use Rattle.reached_task.specs.Lawful.{IsLawful};

use ground_task::Ground;
use normal_task::Normal;
use reached_task::{Reached, Steps};
use relaxed_reach::reach;
use static_matcher::instances;
use std::alloc::{AllocError, Global};
use std::marker::Brand;
use std::sync::ledger::{Blank, Ledger};

fn reached_by<L: Ledger>(
    alloc: Global,
    ground: &Ground,
    blank: Blank,
) -> Result<Reached, AllocError>
    requires name { blank.name ≡ L.name }
    requires parts { blank.parts ≡ L.parts }
    requires some { 0 < L.parts }
    requires lawful { IsLawfulGround ground.now }
    ensures { IfOk result IsLawful }
{
    let mut steps = Steps::<L>::new(blank);
    reach(alloc, ground, &mut steps)
}

/// The reached task of a ground task.
pub(crate) fn reached_of(alloc: Global, ground: &Ground) -> Result<Reached, AllocError>
    requires { IsLawfulGround ground.now }
    ensures { IfOk result IsLawful }
{
    reached_by::<Brand>(alloc, ground, Blank::new(1))
}

/// The reached task of a normal task.
pub(crate) fn reached_task(alloc: Global, normal: &Normal) -> Result<Reached, AllocError>
    requires { IsLawfulNormal normal.now }
    ensures { IfOk result IsLawful }
{
    let ground = instances(alloc, normal)?;
    let reached = reached_of(alloc, &ground);
    drop(ground);
    reached
}
