#![tactic(auto)]

// No code: a ledger's rows as a list, and what is proved of posting reports to them.
