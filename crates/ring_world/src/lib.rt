//! What a call that needs a ring does: its steps, and the lawful paths that they make.
#![tactic(auto)]

mod step;

pub use step::{MAX_STEPS, SECOND_TRY_SPAN, Step, StepList};
