#![tactic(auto)]

// No code: document 01's starred edges, a table about the definitions of the crates below. The table is specs/Edges.antt and
// the one theorem that it holds is proofs/Starred.antt.
