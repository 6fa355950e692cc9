//! What certificates' maker refines after a failure: which states are to be told apart, and where.
//!
//! Over gb_dataflow `plan_for` answers a plan for a run's failure, if anything may help: read `plans`, then `cells`, `losses`,
//! `arrays`, `texts`, `circles`, `returns` and `kept`; `inlining` and `saving` save procedures. Nothing here is trusted: a plan that doesn't help costs time alone.
#![tactic(auto)]

mod arrays;
mod below;
mod cells;
mod circles;
mod inlining;
mod kept;
mod losses;
mod plans;
mod returns;
mod saving;
mod texts;

pub use arrays::array_behind;
pub use below::learn_touched;
pub use cells::{PointerSource, loaded_span, pointer_source, untracked_behind};
pub use inlining::inline_plan;
pub use plans::{last_plan, plan_compared, plan_for};
pub use saving::targets_to_follow;

// What lies below, for the crates above.
pub use gb_dataflow::EditedPlaces;
pub use gb_dataflow::plan::{Edit, Plan, parted_by};
pub use gb_dataflow::sources::without;
