// The platform as definitions, and demand 3 proved of them. Of code there is only what an event did, as a struct.
#![tactic(auto)]

// What an event did: its letter, its tick, its node, the other node, the node's list after it; and, where it moved the node's emitter, how many
// listed nodes the search for the new one passed.
#[derive(Clone, Copy)]
pub struct Deed {
    pub letter: u8,
    pub tick: u32,
    pub node: u8,
    pub other: u8,
    pub list: u64,
    pub moved: Option<u8>,
}
