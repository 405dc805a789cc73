//! How conditions are cut into parts, and what effects and actions become (Helmert 2009, section 4). The only error of a
//! call is want of memory, also where numbers would exceed a `u64`.
#![tactic(auto)]

mod conditions;
mod effects;
mod emptiness;
mod schemas;

pub use conditions::{Here, cut};
pub use schemas::schemas_of;
