//! Where check faults stand in a domain and a problem: the positions of each kind, and the first of them.
#![tactic(auto)]

mod arguments;
mod cycles;
mod files;
mod heads;
mod initial;
mod mentions;
mod positions;
mod recursion;
mod repeats;
mod sizes;
mod types;
mod uses;

pub use arguments::{first_unknown_objects, first_written_derived};
pub use cycles::first_type_on_cycle;
pub use files::Files;
pub use heads::Signature;
pub use initial::{first_denied, first_revalued};
pub use mentions::{Mention, mentions_in_domain, mentions_in_problem};
pub use positions::{FirstPositions, earlier, first_of, try_first_of};
pub use recursion::first_recursive_axiom;
pub use repeats::{
    all_names, first_repeat_after, first_repeated_action, first_repeated_head,
    first_repeated_variable,
};
pub use sizes::first_too_large;
pub use types::first_unknown_types;
pub use uses::{
    first_total_cost_head, first_unknown_functions, first_unknown_predicates, first_wrong_use,
};
