// The platform's state in a store of 65,536 lent bytes, read and changed in place. The layout stands in specs/Store.antt.
// A store is the slice that C lends, and no type of its own: that it has a store's length, or is one, is asked for in the contracts, as by
// `Sized` and `Held`.
#![tactic(auto)]

pub mod layout; // layout.rt: where each field starts
pub mod plan; // plan.rt: the P line, the ring's order, the rows of C and L lines, and what of them is done
pub mod nodes; // nodes.rt: the nodes
pub mod messages; // messages.rt: the messages in flight
pub mod fill; // fill.rt: how a store is begun, and the parts that it is filled with

// A row of a C line. Rows are ordered by tick, then node.
#[derive(Clone, Copy, PartialEq, Eq, PartialOrd, Ord)]
pub struct CrashRow {
    pub tick: u32,
    pub node: u8,
}

// A row of an L line.
#[derive(Clone, Copy)]
pub struct DelayRow {
    pub number: u32,
    pub delay: u8,
}

// A message in flight. Its kind is its letter: b'H', b'O' or b'R'. Its list is its sender's on H, else empty.
#[derive(Clone, Copy)]
pub struct Flight {
    pub number: u64,
    pub due: u32,
    pub kind: u8,
    pub from: u8,
    pub to: u8,
    pub subject: u8,
    pub list: u64,
}
