// The summary of a function: the sections of the answer that are written from the workspace (the original's Part 3, and `collect_param_effects`).
#![tactic(auto)]

pub mod flows;
pub mod records;
pub mod simulation;
pub mod tracked;
pub mod walks;
