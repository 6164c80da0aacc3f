#![tactic(auto)]

// One pass over a feed: the next block, its records posted, the totals.
pub mod block;
pub mod run;
pub mod totals;
