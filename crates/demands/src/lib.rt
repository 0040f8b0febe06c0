#![tactic(auto)]

// No code: the demands of the customer's terms, stated of the definitions of the crates below. The statements are in specs/, their
// proofs in proofs/.
