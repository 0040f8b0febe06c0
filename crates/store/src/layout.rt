// The store's layout: where each field starts, how wide its numbers are and how many places there are, in the order of specs/Store.antt.
ghost use Rattle.std.specs.Prelude.{◌≡◌, ◌+◌, ◌*◌, ◌^◌, ◌<◌, ◌≤◌, length};
ghost use Rattle.limits.specs.Limits.{store_size};
ghost use Rattle.store.specs.Columns.{cell, cell_put};

pub use limits::STORE_SIZE;

// ---- the places: of nodes, of the Q line's numbers and of C rows, of L rows, of messages in flight

pub use limits::{MOST_DELAYS, MOST_IN_FLIGHT, MOST_NODES};

// A field: where its column starts, how many bytes a number has, and for how many numbers there is room.
#[derive(Clone, Copy)]
pub struct Field {
    pub at: usize,
    pub width: usize,
    pub places: usize,
}

impl Field {
    // The number at place i.
    pub(crate) fn get(self, s: &[u8], i: usize) -> u64
        requires { (self.at + self.width * i + self.width ≤ length s.now) × (self.width ≤ 8) }
        ensures value { result ≡ cell s.now self i }
        ensures bound { result < 256 ^ self.width }
    {
        fields::get(s, self.at + self.width * i, self.width)
    }

    // x put at place i.
    pub(crate) fn put(self, s: &mut [u8], i: usize, x: u64)
        requires { self.at + self.width * i + self.width ≤ length s.old }
        ensures { s.new ≡ cell_put s.old self i x }
    {
        fields::put(s, self.at + self.width * i, self.width, x);
    }
}

// ---- the P line and the counts

pub const NODE_COUNT: Field = Field {
    at: 0,
    width: 1,
    places: 1,
};

pub const LONGEST_DELAY: Field = Field {
    at: 1,
    width: 1,
    places: 1,
};

pub const PERIOD: Field = Field {
    at: 2,
    width: 2,
    places: 1,
};

pub const TIME_OUT: Field = Field {
    at: 4,
    width: 2,
    places: 1,
};

pub const CRASH_COUNT: Field = Field {
    at: 6,
    width: 1,
    places: 1,
};

pub const CRASHES_DONE: Field = Field {
    at: 7,
    width: 1,
    places: 1,
};

pub const END_TICK: Field = Field {
    at: 8,
    width: 4,
    places: 1,
};

pub const LAST_TICK: Field = Field {
    at: 12,
    width: 4,
    places: 1,
};

pub const NEXT_NUMBER: Field = Field {
    at: 16,
    width: 8,
    places: 1,
};

pub const DELAY_COUNT: Field = Field {
    at: 24,
    width: 2,
    places: 1,
};

pub const MESSAGE_COUNT: Field = Field {
    at: 26,
    width: 2,
    places: 1,
};

pub const RING_SIZE: Field = Field {
    at: 28,
    width: 1,
    places: 1,
};

pub const SPARE_HEAD: Field = Field {
    at: 29,
    width: 1,
    places: 35,
};

// ---- the numbers of the Q line

pub const RING_NODES: Field = Field {
    at: 64,
    width: 1,
    places: MOST_NODES,
};

// ---- the nodes

pub const EMITTERS: Field = Field {
    at: 128,
    width: 1,
    places: MOST_NODES,
};

pub const OBSERVERS: Field = Field {
    at: 192,
    width: 1,
    places: MOST_NODES,
};

pub const WATCHES: Field = Field {
    at: 256,
    width: 4,
    places: MOST_NODES,
};

pub const HEARTBEATS: Field = Field {
    at: 512,
    width: 4,
    places: MOST_NODES,
};

pub const DEAD_LISTS: Field = Field {
    at: 768,
    width: 8,
    places: MOST_NODES,
};

pub const MARKS: Field = Field {
    at: 1280,
    width: 8,
    places: MOST_NODES,
};

// The fields of a node, one after another.
pub const NODE_FIELDS: [Field; 6] = [EMITTERS, OBSERVERS, WATCHES, HEARTBEATS, DEAD_LISTS, MARKS];

// ---- the rows of C lines and of L lines

pub const CRASH_TICKS: Field = Field {
    at: 1792,
    width: 4,
    places: MOST_NODES,
};

pub const CRASH_NODES: Field = Field {
    at: 2048,
    width: 1,
    places: MOST_NODES,
};

pub const DELAY_NUMBERS: Field = Field {
    at: 2112,
    width: 4,
    places: MOST_DELAYS,
};

pub const DELAY_TICKS: Field = Field {
    at: 10304,
    width: 1,
    places: MOST_DELAYS,
};

// The fields of a C row, and those of an L row.
pub const CRASH_FIELDS: [Field; 2] = [CRASH_TICKS, CRASH_NODES];

pub const DELAY_FIELDS: [Field; 2] = [DELAY_NUMBERS, DELAY_TICKS];

// ---- the messages in flight

pub const MESSAGE_NUMBERS: Field = Field {
    at: 12352,
    width: 8,
    places: MOST_IN_FLIGHT,
};

pub const MESSAGE_DUES: Field = Field {
    at: 28736,
    width: 4,
    places: MOST_IN_FLIGHT,
};

pub const MESSAGE_KINDS: Field = Field {
    at: 36928,
    width: 1,
    places: MOST_IN_FLIGHT,
};

pub const MESSAGE_SENDERS: Field = Field {
    at: 38976,
    width: 1,
    places: MOST_IN_FLIGHT,
};

pub const MESSAGE_RECEIVERS: Field = Field {
    at: 41024,
    width: 1,
    places: MOST_IN_FLIGHT,
};

pub const MESSAGE_SUBJECTS: Field = Field {
    at: 43072,
    width: 1,
    places: MOST_IN_FLIGHT,
};

pub const MESSAGE_LISTS: Field = Field {
    at: 45120,
    width: 8,
    places: MOST_IN_FLIGHT,
};

// The fields of a message, one after another.
pub const MESSAGE_FIELDS: [Field; 7] = [
    MESSAGE_NUMBERS,
    MESSAGE_DUES,
    MESSAGE_KINDS,
    MESSAGE_SENDERS,
    MESSAGE_RECEIVERS,
    MESSAGE_SUBJECTS,
    MESSAGE_LISTS,
];

pub const SPARE_TAIL: Field = Field {
    at: 61504,
    width: 1,
    places: 4032,
};
