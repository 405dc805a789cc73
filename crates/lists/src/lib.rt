//! Lists, texts and names that contracts see as what they hold, so that a value made of them is plain data:
//! a contract can say that it equals what a definition gives; and why a call has no answer.
#![tactic(auto)]

mod list;
mod name;
mod rows;
mod stop;
mod sums;
mod text;

pub use list::List;
pub use name::Name;
pub use rows::Rows;
pub use sqlite_items::Boxed;
pub use stop::Stop;
pub use sums::checked_sum;
pub use text::Text;
