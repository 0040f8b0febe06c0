#![tactic(auto)]

// What a run file plans, and the laws of plans: this crate has no code.
