#![tactic(auto)]

// What was promised, on one page: see proofs/. There is no code here.
