// The three calls of the crate host as a static library for C: each has the symbol, the parameters and the contract of the
// library's function of that name, and calls it. include/kelbraut.h says how to use them.
#![tactic(auto)]

ghost use Rattle.std.specs.Prelude.{◌≡◌};
ghost use Rattle.host.specs.Call.{open_answer, open_leaves, deliver_answer, deliver_leaves, deliver_sends};
ghost use Rattle.host.specs.Call.{timers_answer, timers_leaves, timers_sends};

// Opens a record, at tick 0. Answers 0, or 10 where the record has another length than 64, or 3 where a number is out of range.
#[unsafe(no_mangle)]
pub extern "C" fn kelbraut_node_open(
    bytes: &mut [u8],
    number: u64,
    nodes: u64,
    h: u64,
    w: u64,
) -> u64
    ensures { (result ≡ open_answer bytes.old number nodes h w)
        × (bytes.new ≡ open_leaves bytes.old number nodes h w) }
{
    host::kelbraut_node_open(bytes, number, nodes, h, w)
}

// Delivers a message to the record's node at a tick. Answers 0, or 10, 12, 11 or 9.
#[unsafe(no_mangle)]
pub extern "C" fn kelbraut_node_deliver(
    bytes: &mut [u8],
    tick: u64,
    kind: u64,
    sender: u64,
    subject: u64,
    list: u64,
    messages: &mut [u8],
) -> u64
    ensures { (result ≡ deliver_answer bytes.old tick kind sender subject list messages.old)
        × (bytes.new ≡ deliver_leaves bytes.old tick kind sender subject list messages.old)
        × (messages.new ≡ deliver_sends bytes.old tick kind sender subject list messages.old) }
{
    host::kelbraut_node_deliver(bytes, tick, kind, sender, subject, list, messages)
}

// Does the watch of the record's node if due by this tick, else the heartbeat if due, else nothing. Answers 0, or 10, 12 or 9.
#[unsafe(no_mangle)]
pub extern "C" fn kelbraut_node_timers(bytes: &mut [u8], tick: u64, messages: &mut [u8]) -> u64
    ensures { (result ≡ timers_answer bytes.old tick messages.old)
        × (bytes.new ≡ timers_leaves bytes.old tick messages.old)
        × (messages.new ≡ timers_sends bytes.old tick messages.old) }
{
    host::kelbraut_node_timers(bytes, tick, messages)
}
