#![tactic(auto)]

// Records written in normal form: one as a block, and all of a block rewritten.
pub mod block;
mod judged;
pub mod record;
