//! Plan files read back: which of their lines are steps, which operators of a task these name, and what they cost.
#![tactic(auto)]

mod costs;
mod fault;
mod laws;
mod lines;
mod mapping;
mod plan;
mod text;
mod writing;

pub use fault::PlanFault;
pub use laws::{solutions_cost_the_total, worked_lines, worked_plans};
pub use mapping::map_plan;
pub use plan::{Mapped, Step};
pub use text::plan_text;
pub use writing::mapped_text;
