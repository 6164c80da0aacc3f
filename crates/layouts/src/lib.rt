#![tactic(auto)]

// The layouts of categories 23, 65 and 242: their fields, the kinds of items with their sizes, and where an item ends.
pub mod cat23;
pub mod cat242;
pub mod cat65;
pub mod category;
pub mod ends;
pub mod form;
pub mod presence;
