#![tactic(auto)]

// Blocks of records: the header, the specification, and records one after the other.
pub mod block;
pub mod cursor;
pub mod fault;
pub mod header;
pub mod marks;
pub mod presence;
pub mod record;
pub mod statistics;
pub mod walk;
