// The node's rules for a host in C: three calls on a record of 64 lent bytes. include/kelbraut.h says how to use them, and
// docs/LAYOUTS.md has the bytes.
#![tactic(auto)]

ghost use Rattle.std.specs.Prelude.{◌≡◌, cond, Ok, Err, ◌+◌, ◌≤◌, ◌<◌, length, take};
ghost use Rattle.std.proofs.lemmas.List.Edits.{sets};
ghost use Rattle.limits.specs.Limits.{most_nodes, most_h, most_w, most_tick, most_sent, record_size, message_size, part_size};
ghost use Rattle.limits.specs.declared.Refusal.TheVariants.{BadRecord, BadMessage, BadTick};
ghost use Rattle.limits.specs.Refusals.{answer_of};
ghost use Rattle.node.specs.Node.{turned};
ghost use Rattle.node.specs.Range.{kind_test};
ghost use Rattle.host.specs.Record.{encode, numbers_bytes, neighbours_bytes, ticks_bytes, mark_bytes, decode, openable, in_range, sound};
ghost use Rattle.host.specs.Call.{tick_taken, other_node, message_taken, received, message_bytes, put_messages, open_answer, opened_record, open_leaves};
ghost use Rattle.host.specs.Call.{deliver_answer, deliver_leaves, deliver_sends, timers_answer, timers_leaves, timers_sends};
ghost use Rattle.host.specs.Call.{delivered, due_by, fired, with_turn};

use limits::{
    MESSAGE_SIZE, MOST_H, MOST_NODES, MOST_TICK, MOST_W, PART_SIZE, RECORD_SIZE, Refusal,
};
use node::{Message, Node, Turned};

// A record: its node's number, N, H, W, the last tick and the node.
#[derive(Clone, Copy)]
pub struct Record {
    pub number: u8,
    pub nodes: u8,
    pub h: u32,
    pub w: u32,
    pub last: u32,
    pub node: Node,
}

// A message that a call takes: its letter (b'H', b'O' or b'R'), its sender, on R its subject and on H its sender's list.
#[derive(Clone, Copy)]
struct Received {
    kind: u8,
    sender: u8,
    subject: u8,
    list: u64,
}

// The letter of a report, in the width of a call's numbers.
const REPORT: u64 = b'R' as u64;

// The mark of a record, and where the spare bytes before and after it begin.
const GAP_FROM: usize = 28;

const MARK_AT: usize = 32;

const SPARE_FROM: usize = 40;

// ---- a record's bytes

// The node in a record's bytes.
#[tactic(auto, unfolding(crate::specs::Record::decode))]
fn read_node(s: &[u8]) -> Node
    requires { length s.now ≡ record_size }
    ensures { result ≡ (decode s.now).node }
{
    Node {
        emitter: fields::get(s, 6, 1) as u8,
        observer: fields::get(s, 7, 1) as u8,
        watch: fields::get(s, 20, 4) as u32,
        heartbeat: fields::get(s, 24, 4) as u32,
        list: fields::get(s, 8, 8),
        mark: fields::get(s, MARK_AT, 8),
    }
}

// The record in 64 bytes.
#[tactic(auto, unfolding(crate::specs::Record::decode))]
fn read_record(s: &[u8]) -> Record
    requires { length s.now ≡ record_size }
    ensures { result ≡ decode s.now }
{
    Record {
        number: fields::get(s, 0, 1) as u8,
        nodes: fields::get(s, 1, 1) as u8,
        h: fields::get(s, 2, 2) as u32,
        w: fields::get(s, 4, 2) as u32,
        last: fields::get(s, 16, 4) as u32,
        node: read_node(s),
    }
}

// The numbers of a record: its own, N, H and W.
fn write_numbers(s: &mut [u8], r: Record)
    requires { length s.old ≡ record_size }
    ensures { s.new ≡ sets s.old 0 (numbers_bytes r) }
{
    fields::put(s, 0, 1, r.number as u64);
    fields::put(s, 1, 1, r.nodes as u64);
    fields::put(s, 2, 2, r.h as u64);
    fields::put(s, 4, 2, r.w as u64);
}

// Its emitter, its observer and its dead list.
fn write_neighbours(s: &mut [u8], n: Node)
    requires { length s.old ≡ record_size }
    ensures { s.new ≡ sets s.old 6 (neighbours_bytes n) }
{
    fields::put(s, 6, 1, n.emitter as u64);
    fields::put(s, 7, 1, n.observer as u64);
    fields::put(s, 8, 8, n.list);
}

// Its last tick and its timers.
fn write_ticks(s: &mut [u8], last: u32, n: Node)
    requires { length s.old ≡ record_size }
    ensures { s.new ≡ sets s.old 16 (ticks_bytes last n) }
{
    fields::put(s, 16, 4, last as u64);
    fields::put(s, 20, 4, n.watch as u64);
    fields::put(s, 24, 4, n.heartbeat as u64);
}

// Four bytes that are zero, and its mark.
fn write_mark(s: &mut [u8], n: Node)
    requires { length s.old ≡ record_size }
    ensures { s.new ≡ sets s.old 28 (mark_bytes n) }
{
    fields::put(s, GAP_FROM, 4, 0);
    fields::put(s, MARK_AT, 8, n.mark);
}

// A record's 64 bytes.
fn write_record(s: &mut [u8], r: Record)
    requires { length s.old ≡ record_size }
    ensures { s.new ≡ encode r }
{
    write_numbers(s, r);
    write_neighbours(s, r.node);
    write_ticks(s, r.last, r.node);
    write_mark(s, r.node);
    fields::clear(s, SPARE_FROM, RECORD_SIZE);
}

// ---- ranges

// Whether opening takes these numbers.
#[tactic(auto, unfolding(crate::specs::Record::openable))]
fn is_openable(number: u64, nodes: u64, h: u64, w: u64) -> bool
    ensures { result ≡ openable number nodes h w }
{
    (1..=MOST_NODES as u64).contains(&nodes)
        && number < nodes
        && (1..=MOST_H).contains(&h)
        && (1..=MOST_W).contains(&w)
}

// Whether every field of a record is in its range.
#[tactic(auto, using(crate::proofs::Facts::in_openable), unfolding(crate::specs::Record::in_range))]
fn in_range(r: Record) -> bool
    ensures { result ≡ in_range r }
{
    is_openable(r.number as u64, r.nodes as u64, r.h as u64, r.w as u64)
        && r.last as u64 <= MOST_TICK
        && node::node_in_range(r.nodes, r.h, r.w, r.last, r.node)
        && node::live_in_range(r.number, r.node)
}

// Whether a call takes these bytes as a record.
#[tactic(auto, unfolding(crate::specs::Record::sound))]
fn is_sound(s: &[u8]) -> bool
    ensures { result ≡ sound s.now }
{
    s.len() == RECORD_SIZE
        && fields::is_zero(s, GAP_FROM, MARK_AT)
        && fields::is_zero(s, SPARE_FROM, RECORD_SIZE)
        && in_range(read_record(s))
}

// Whether i is a node of the ring other than the record's own.
#[tactic(auto, unfolding(crate::specs::Call::other_node))]
fn is_other(r: Record, i: u64) -> bool
    ensures { result ≡ other_node r i }
{
    i < r.nodes as u64 && i != r.number as u64
}

// Whether a kind is a message's letter.
#[tactic(auto, unfolding(node::specs::Range::kind_test))]
fn is_known(kind: u64) -> bool
    ensures { result ≡ kind_test kind }
{
    matches!(u8::try_from(kind), Ok(b'H' | b'O' | b'R'))
}

// Whether a message is of a known kind, from another node and, on R, of another, with a list of the ring's nodes.
#[tactic(auto, unfolding(crate::specs::Call::message_taken))]
fn takes_message(r: Record, kind: u64, sender: u64, subject: u64, list: u64) -> bool
    requires { (1 ≤ r.nodes) × (r.nodes ≤ most_nodes) }
    ensures { result ≡ message_taken r kind sender subject list }
{
    is_known(kind)
        && is_other(r, sender)
        && (kind != REPORT || is_other(r, subject))
        && list <= ring::all_nodes(r.nodes)
}

// ---- what a call takes, or why it is refused

// Refuses a call's bytes where they are no record. It gives no record: one in a Result is written and read back, and the quickest calls take a
// third more.
#[tactic(auto, using(crate::proofs::Facts::in_sound))]
fn try_record(s: &[u8]) -> Result<(), Refusal>
    ensures { result ≡ cond (sound s.now) (Ok tt) (Err BadRecord) }
{
    if is_sound(s) {
        Ok(())
    } else {
        Err(Refusal::BadRecord)
    }
}

// A call's tick, which is neither before the record's last one nor too high.
#[tactic(auto, unfolding(crate::specs::Call::tick_taken))]
fn take_tick(r: Record, tick: u64) -> Result<u32, Refusal>
    ensures { result ≡ cond (tick_taken r tick) (Ok tick) (Err BadTick) }
{
    if (r.last as u64..=MOST_TICK).contains(&tick) {
        Ok(tick as u32)
    } else {
        Err(Refusal::BadTick)
    }
}

// The message that a call delivers.
#[tactic(auto, using(crate::proofs::Facts::in_message, node::proofs::Tests::kind_fits))]
fn take_message(
    r: Record,
    kind: u64,
    sender: u64,
    subject: u64,
    list: u64,
) -> Result<Received, Refusal>
    requires { (1 ≤ r.nodes) × (r.nodes ≤ most_nodes) }
    ensures { result ≡ cond (message_taken r kind sender subject list) (Ok (received kind sender subject list)) (Err BadMessage) }
{
    if takes_message(r, kind, sender, subject, list) {
        Ok(Received {
            kind: kind as u8,
            sender: sender as u8,
            subject: if kind == REPORT { subject as u8 } else { 0 },
            list,
        })
    } else {
        Err(Refusal::BadMessage)
    }
}

// ---- the messages sent

// A message's 16 bytes, put from `at` on.
fn put_message(part: &mut [u8], at: usize, sender: u8, m: Message)
    requires { at + message_size ≤ length part.old }
    ensures { part.new ≡ sets part.old at (message_bytes sender m) }
{
    fields::put(part, at, 1, m.kind as u64);
    fields::put(part, at + 1, 1, m.to as u64);
    fields::put(part, at + 2, 1, sender as u64);
    fields::put(part, at + 3, 1, m.subject as u64);
    fields::put(part, at + 4, 4, 0);
    fields::put(part, at + 8, 8, m.list);
}

// Messages in the first 112 bytes of a part, the unused places zero.
fn put_messages(messages: &[Message], sender: u8, part: &mut [u8])
    requires { (length messages.now ≤ most_sent) × (part_size ≤ length part.old) }
    ensures { part.new ≡ put_messages part.old sender messages.now }
{
    fields::clear(part, 0, PART_SIZE);
    for (i, m) in messages.iter().enumerate() {
        put_message(part, i * MESSAGE_SIZE, sender, *m);
    }
}

// ---- what the rules give

// The record's node after a message, with what it sends.
#[tactic(auto, using(crate::proofs::Tests::number_ring), unfolding(crate::specs::Call::delivered))]
fn message_turn(r: Record, tick: u32, m: Received) -> Turned
    requires { (1 ≤ r.nodes) × (r.nodes ≤ most_nodes) × (r.number < r.nodes) × (r.w ≤ most_w) × (tick ≤ most_tick)
        × (m.sender < most_nodes) × (m.subject < most_nodes) }
    ensures { result ≡ turned (delivered r tick m.kind m.sender m.subject m.list) }
{
    let all = ring::number_order();
    let ring = &all[..r.nodes as usize];
    node::on_message(
        ring, r.w, tick, r.number, m.kind, m.sender, m.subject, m.list, r.node,
    )
}

// Whether a timer is on and due by this tick.
#[tactic(auto, unfolding(crate::specs::Call::due_by))]
fn is_due(tick: u32, timer: u32) -> bool
    requires { tick ≤ most_tick }
    ensures { result ≡ due_by tick timer }
{
    timer != 0 && timer <= tick + 1
}

// The record's node after its watch if due, else its heartbeat if due, else nothing.
#[tactic(auto, using(crate::proofs::Tests::number_ring), unfolding(crate::specs::Call::fired))]
fn timer_turn(r: Record, tick: u32) -> Turned
    requires { (1 ≤ r.nodes) × (r.nodes ≤ most_nodes) × (r.h ≤ most_h) × (r.w ≤ most_w) × (tick ≤ most_tick)
        × (r.node.emitter < most_nodes) }
    ensures { result ≡ turned (fired r tick) }
{
    if is_due(tick, r.node.watch) {
        let all = ring::number_order();
        node::on_watch_due(&all[..r.nodes as usize], r.w, tick, r.number, r.node)
    } else if is_due(tick, r.node.heartbeat) {
        node::on_heartbeat_due(r.h, tick, r.node)
    } else {
        node::quiet(r.node)
    }
}

// A record just opened.
#[tactic(auto, using(crate::proofs::Tests::number_ring), unfolding(crate::specs::Call::opened_record))]
fn opened_record(number: u8, nodes: u8, h: u32, w: u32) -> Record
    requires { (nodes ≤ most_nodes) × (h ≤ most_h) × (w ≤ most_w) }
    ensures { result ≡ opened_record number nodes h w }
{
    let all = ring::number_order();
    Record {
        number,
        nodes,
        h,
        w,
        last: 0,
        node: node::opened(&all[..nodes as usize], h, w, number),
    }
}

// The record and the message part after a turn of the record's node, where the part is long enough.
#[tactic(auto, unfolding(crate::specs::Call::with_turn))]
fn leave(bytes: &mut [u8], part: &mut [u8], r: Record, tick: u32, t: Turned)
    requires { (length bytes.old ≡ record_size) × (part_size ≤ length part.old) }
    ensures { (bytes.new ≡ encode (with_turn r tick t.node))
        × (part.new ≡ put_messages part.old r.number (take t.count t.sent)) }
{
    let after = Record {
        last: tick,
        node: t.node,
        ..r
    };
    write_record(bytes, after);
    put_messages(t.messages(), r.number, part);
}

// ---- the calls

// Opens a record, at tick 0.
#[tactic(auto, using(crate::proofs::Facts::in_openable), unfolding(crate::specs::Call::open_answer, crate::specs::Call::open_leaves))]
fn open(bytes: &mut [u8], number: u64, nodes: u64, h: u64, w: u64) -> Result<(), Refusal>
    ensures { (answer_of result ≡ open_answer bytes.old number nodes h w)
        × (bytes.new ≡ open_leaves bytes.old number nodes h w) }
{
    if bytes.len() != RECORD_SIZE {
        return Err(Refusal::BadRecord);
    }
    if !is_openable(number, nodes, h, w) {
        return Err(Refusal::OutOfRange);
    }
    let r = opened_record(number as u8, nodes as u8, h as u32, w as u32);
    write_record(bytes, r);
    Ok(())
}

// Delivers a message to the record's node at a tick.
#[tactic(auto, using(crate::proofs::Facts::in_sound))]
fn deliver(
    bytes: &mut [u8],
    tick: u64,
    kind: u64,
    sender: u64,
    subject: u64,
    list: u64,
    messages: &mut [u8],
) -> Result<(), Refusal>
    ensures { (answer_of result ≡ deliver_answer bytes.old tick kind sender subject list messages.old)
        × (bytes.new ≡ deliver_leaves bytes.old tick kind sender subject list messages.old)
        × (messages.new ≡ deliver_sends bytes.old tick kind sender subject list messages.old) }
{
    try_record(bytes)?;
    let r = read_record(bytes);
    let tick = take_tick(r, tick)?;
    let m = take_message(r, kind, sender, subject, list)?;
    if messages.len() < PART_SIZE {
        return Err(Refusal::ShortPart);
    }
    leave(bytes, messages, r, tick, message_turn(r, tick, m));
    Ok(())
}

// Does the watch of the record's node if due by this tick, else the heartbeat if due, else nothing.
#[tactic(auto, using(crate::proofs::Facts::in_sound))]
fn do_timers(bytes: &mut [u8], tick: u64, messages: &mut [u8]) -> Result<(), Refusal>
    ensures { (answer_of result ≡ timers_answer bytes.old tick messages.old)
        × (bytes.new ≡ timers_leaves bytes.old tick messages.old)
        × (messages.new ≡ timers_sends bytes.old tick messages.old) }
{
    try_record(bytes)?;
    let r = read_record(bytes);
    let tick = take_tick(r, tick)?;
    if messages.len() < PART_SIZE {
        return Err(Refusal::ShortPart);
    }
    leave(bytes, messages, r, tick, timer_turn(r, tick));
    Ok(())
}

// ---- the same for C

// Opens a record, at tick 0. Answers 0, or 10 where the record has another length than 64, or 3 where a number is out of range.
#[unsafe(no_mangle)]
pub extern "C" fn kelbraut_node_open(
    bytes: &mut [u8],
    number: u64,
    nodes: u64,
    h: u64,
    w: u64,
) -> u64
    ensures { (result ≡ open_answer bytes.old number nodes h w)
        × (bytes.new ≡ open_leaves bytes.old number nodes h w) }
{
    limits::answer(open(bytes, number, nodes, h, w))
}

// Delivers a message to the record's node at a tick. Answers 0, or 10, 12, 11 or 9.
#[unsafe(no_mangle)]
pub extern "C" fn kelbraut_node_deliver(
    bytes: &mut [u8],
    tick: u64,
    kind: u64,
    sender: u64,
    subject: u64,
    list: u64,
    messages: &mut [u8],
) -> u64
    ensures { (result ≡ deliver_answer bytes.old tick kind sender subject list messages.old)
        × (bytes.new ≡ deliver_leaves bytes.old tick kind sender subject list messages.old)
        × (messages.new ≡ deliver_sends bytes.old tick kind sender subject list messages.old) }
{
    limits::answer(deliver(bytes, tick, kind, sender, subject, list, messages))
}

// Does the watch of the record's node if due by this tick, else the heartbeat if due, else nothing. Answers 0, or 10, 12 or 9.
#[unsafe(no_mangle)]
pub extern "C" fn kelbraut_node_timers(bytes: &mut [u8], tick: u64, messages: &mut [u8]) -> u64
    ensures { (result ≡ timers_answer bytes.old tick messages.old)
        × (bytes.new ≡ timers_leaves bytes.old tick messages.old)
        × (messages.new ≡ timers_sends bytes.old tick messages.old) }
{
    limits::answer(do_timers(bytes, tick, messages))
}
