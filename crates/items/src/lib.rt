#![tactic(auto)]

// One item of category 23, 65 or 242: its typed form, whether its values are in range, and its octets.
pub mod item;
pub mod typed;
pub mod values;
