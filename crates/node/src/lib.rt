// The rules of one node. A node goes in by value and comes back with the messages that it sends.
// Nodes in the field and the rehearsal both run these functions.
#![tactic(auto)]

ghost use Rattle.std.specs.Prelude.{◌≡◌, [], ◌∷◌, ◌+◌, ◌<◌, ◌≤◌, length, take};
ghost use Rattle.std.proofs.lemmas.List.Edits.{sets};
ghost use Rattle.limits.specs.Limits.{most_nodes, most_h, most_w, most_tick, most_sent};
ghost use Rattle.node.specs.Node.{message, reports, silent, sending, alone, opening, on_heartbeat, on_observer, on_report, on_heartbeat_due, on_watch_due};
ghost use Rattle.node.specs.Node.{on_message, turned, relayed, leaving, learnt};
ghost use Rattle.node.specs.Range.{node_test, apart, live_test};

use limits::MOST_SENT;

// A node's fields. The mark has those of its listed nodes of which it took a report, or which it left as its emitter: a further report of them does
// nothing. A timer is 0 where it is off, else one more than the tick at which it is due: a number and no `Option`, since a store and a record keep it in
// their bytes so (`off` and `due`, `NodeRange`).
#[derive(Clone, Copy)]
pub struct Node {
    pub emitter: u8,
    pub observer: u8,
    pub watch: u32,
    pub heartbeat: u32,
    pub list: u64,
    pub mark: u64,
}

// A message as its sender gives it away: its letter (b'H', b'O' or b'R'), its receiver, on R its subject and on H its sender's list. The letter is a
// byte and no enum, since the messages in flight and the log have it so (`Known`).
#[derive(Clone, Copy)]
pub struct Message {
    pub kind: u8,
    pub to: u8,
    pub subject: u8,
    pub list: u64,
}

// A node after a rule, with what it sends: the first `count` of seven messages, as nothing is allocated. The others are zero; `messages` hands out
// those that are sent. And how many listed nodes its search for a new emitter passed, 0 where there was none.
#[derive(Clone, Copy)]
pub struct Turned {
    pub node: Node,
    pub sent: [Message; MOST_SENT],
    pub count: usize,
    pub passed: u8,
}

// What stands in a place that holds no message.
const NO_MESSAGE: Message = Message {
    kind: 0,
    to: 0,
    subject: 0,
    list: 0,
};

impl Turned {
    // The messages that it sends.
    pub fn messages(&self) -> &[Message]
        ensures { result.now ≡ take self.now.count self.now.sent }
    {
        &self.sent[..self.count.min(MOST_SENT)]
    }
}

// A node that sends nothing.
#[tactic(auto, unfolding(crate::specs::Node::turned, crate::specs::Node::places))]
pub fn quiet(n: Node) -> Turned
    ensures { result ≡ turned (silent n) }
{
    Turned {
        node: n,
        sent: [NO_MESSAGE; MOST_SENT],
        count: 0,
        passed: 0,
    }
}

// A node that sends one message.
#[tactic(auto, unfolding(crate::specs::Node::turned, crate::specs::Node::places))]
fn sends_one(n: Node, m: Message) -> Turned
    ensures { result ≡ turned (sending n (m ∷ [])) }
{
    let mut sent = [NO_MESSAGE; MOST_SENT];
    sent[0] = m;
    Turned {
        node: n,
        sent,
        count: 1,
        passed: 0,
    }
}

// R of the subject to each of some nodes, put into seven places from `from` on.
fn put_reports(
    places: [Message; MOST_SENT],
    from: usize,
    nodes: &[u8],
    subject: u8,
) -> [Message; MOST_SENT]
    requires { from + length nodes.now ≤ most_sent }
    ensures { result ≡ sets places from (reports subject nodes.now) }
{
    let mut out = places;
    for (i, to) in nodes.iter().enumerate() {
        out[from + i] = Message {
            kind: b'R',
            to: *to,
            subject,
            list: 0,
        };
    }
    out
}

// A node after a rule, with R of the subject to its forward targets after what it sends already.
#[tactic(auto, using(crate::proofs::Messages::few_reports))]
fn relay(order: &[u8], me: u8, subject: u8, t: Turned) -> Turned
    requires { (1 ≤ length order.now) × (length order.now ≤ most_nodes) × (t.count ≤ 1) }
    ensures { result ≡ relayed order.now me subject t }
{
    let p = ring::place_of(order, me);
    let row = ring::target_row(order, t.node.list, p);
    let left = ring::count_unlisted(order.len() as u8, t.node.list);
    let jumps = ring::jump_count(left) as usize;
    Turned {
        sent: put_reports(t.sent, t.count, &row[..jumps], subject),
        count: t.count + jumps,
        ..t
    }
}

// A node that is alone.
fn lone(me: u8, list: u64, mark: u64) -> Node
    ensures { result ≡ alone me list mark }
{
    Node {
        emitter: me,
        observer: me,
        watch: 0,
        heartbeat: 0,
        list,
        mark,
    }
}

// Leaving the emitter: it is listed, marked and reported, and the first unlisted node going back from it becomes the emitter. The search begins at the node
// that is left, so that it is passed too.
fn leave_emitter(order: &[u8], w: u32, tick: u32, me: u8, n: Node) -> Turned
    requires { (1 ≤ length order.now) × (length order.now ≤ most_nodes) × (w ≤ most_w) × (tick ≤ most_tick) × (n.emitter < most_nodes) }
    ensures { result ≡ turned (leaving order.now w tick me n) }
{
    let list = ring::with_listed(n.list, n.emitter);
    let mark = ring::with_listed(n.mark, n.emitter);
    let p = ring::place_of(order, n.emitter);
    let found = ring::find_back(order, list, p + 1);
    if found.node == me {
        return Turned {
            passed: found.passed,
            ..quiet(lone(me, list, mark))
        };
    }
    let moved = Node {
        emitter: found.node,
        watch: tick + 2 * w + 1,
        list,
        mark,
        ..n
    };
    let observe = Message {
        kind: b'O',
        to: found.node,
        subject: 0,
        list: 0,
    };
    let sent = Turned {
        passed: found.passed,
        ..sends_one(moved, observe)
    };
    relay(order, me, n.emitter, sent)
}

// Opening, at tick 0.
#[tactic(auto, unfolding(crate::specs::Node::opening))]
pub fn opened(order: &[u8], h: u32, w: u32, me: u8) -> Node
    requires { (length order.now ≤ most_nodes) × (h ≤ most_h) × (w ≤ most_w) }
    ensures { result ≡ opening order.now h w me }
{
    if order.len() <= 1 {
        return lone(me, 0, 0);
    }
    let p = ring::place_of(order, me);
    let before = ring::find_back(order, 0, p);
    let observer = ring::find_next(order, 0, p);
    Node {
        emitter: before.node,
        observer,
        watch: w + 1,
        heartbeat: h + 1,
        list: 0,
        mark: 0,
    }
}

// What a node takes from the list that an H carries: not itself and not the sender.
#[tactic(auto, unfolding(crate::specs::Node::learnt))]
fn learnt_from(me: u8, from: u8, list: u64) -> u64
    requires { (me < most_nodes) × (from < most_nodes) }
    ensures { result ≡ learnt me from list }
{
    let others = ring::with_unlisted(list, me);
    ring::with_unlisted(others, from)
}

// Message H: from the emitter it renews the watch, and the nodes of the list that it carries are listed.
#[tactic(auto, unfolding(crate::specs::Node::on_heartbeat))]
pub fn on_heartbeat(w: u32, tick: u32, me: u8, from: u8, list: u64, n: Node) -> Turned
    requires { (w ≤ most_w) × (tick ≤ most_tick) × (me < most_nodes) × (from < most_nodes) }
    ensures { result ≡ turned (on_heartbeat w tick me from list n) }
{
    if n.emitter != from {
        return quiet(n);
    }
    quiet(Node {
        watch: tick + w + 1,
        list: ring::with_all(n.list, learnt_from(me, from, list)),
        ..n
    })
}

// Message O: the sender is the new observer, and a heartbeat is due now.
#[tactic(auto, unfolding(crate::specs::Node::on_observer))]
pub fn on_observer(tick: u32, from: u8, n: Node) -> Turned
    requires { tick ≤ most_tick }
    ensures { result ≡ turned (on_observer tick from n) }
{
    quiet(Node {
        observer: from,
        heartbeat: tick + 1,
        ..n
    })
}

// Message R: a subject that is not marked here is marked, listed and reported on; an emitter is also left.
#[tactic(auto, unfolding(crate::specs::Node::on_report))]
pub fn on_report(order: &[u8], w: u32, tick: u32, me: u8, subject: u8, n: Node) -> Turned
    requires { (1 ≤ length order.now) × (length order.now ≤ most_nodes) × (w ≤ most_w) × (tick ≤ most_tick) × (subject < most_nodes) }
    ensures { result ≡ turned (on_report order.now w tick me subject n) }
{
    if ring::is_listed(n.mark, subject) || subject == me {
        return quiet(n);
    }
    if subject == n.emitter {
        return leave_emitter(order, w, tick, me, n);
    }
    let told = Node {
        list: ring::with_listed(n.list, subject),
        mark: ring::with_listed(n.mark, subject),
        ..n
    };
    relay(order, me, subject, quiet(told))
}

// Heartbeat due: H to the observer, with the list.
#[tactic(auto, unfolding(crate::specs::Node::on_heartbeat_due))]
pub fn on_heartbeat_due(h: u32, tick: u32, n: Node) -> Turned
    requires { (h ≤ most_h) × (tick ≤ most_tick) }
    ensures { result ≡ turned (on_heartbeat_due h tick n) }
{
    let beat = Message {
        kind: b'H',
        to: n.observer,
        subject: 0,
        list: n.list,
    };
    let beaten = Node {
        heartbeat: tick + h + 1,
        ..n
    };
    sends_one(beaten, beat)
}

// Watch due: the emitter is left.
pub fn on_watch_due(order: &[u8], w: u32, tick: u32, me: u8, n: Node) -> Turned
    requires { (1 ≤ length order.now) × (length order.now ≤ most_nodes) × (w ≤ most_w) × (tick ≤ most_tick) × (n.emitter < most_nodes) }
    ensures { result ≡ turned (on_watch_due order.now w tick me n) }
{
    leave_emitter(order, w, tick, me, n)
}

// A message of a kind, its letter; all but H and O are taken as R. The ring, W, the tick and the node's number stay parameters of their own, as
// each rule's definition takes others of them (`on_heartbeat`, `on_observer`, `on_report`).
#[tactic(auto, unfolding(crate::specs::Node::on_message))]
pub fn on_message(
    order: &[u8],
    w: u32,
    tick: u32,
    me: u8,
    kind: u8,
    from: u8,
    subject: u8,
    list: u64,
    n: Node,
) -> Turned
    requires in_bounds { (1 ≤ length order.now) × (length order.now ≤ most_nodes) × (w ≤ most_w) × (tick ≤ most_tick) × (me < most_nodes) }
    requires from_lt_most_nodes { (from < most_nodes) × (subject < most_nodes) }
    ensures { result ≡ turned (on_message order.now w tick me kind from subject list n) }
{
    match kind {
        b'H' => on_heartbeat(w, tick, me, from, list, n),
        b'O' => on_observer(tick, from, n),
        _ => on_report(order, w, tick, me, subject, n),
    }
}

// ---- what a node may hold

// Whether a node's fields are in range, where the ring has n nodes and t is the last tick.
#[tactic(auto, unfolding(crate::specs::Range::node_test))]
pub fn node_in_range(n: u8, h: u32, w: u32, t: u32, a: Node) -> bool
    requires { (1 ≤ n) × (n ≤ most_nodes) × (h ≤ most_h) × (w ≤ most_w) × (t ≤ most_tick) }
    ensures { result ≡ node_test n h w t a }
{
    a.emitter < n
        && a.observer < n
        && a.list <= ring::all_nodes(n)
        && !ring::is_listed(a.list, a.emitter)
        && a.watch <= t + 2 * w + 1
        && a.heartbeat <= t + h + 1
        && ring::is_part(a.mark, a.list)
}

// A timer is off, or what it is about is another node.
#[tactic(auto, unfolding(crate::specs::Range::apart))]
fn is_apart(timer: u32, other: u8, me: u8) -> bool
    ensures { result ≡ apart timer other me }
{
    timer == 0 || other != me
}

// Whether a live node neither lists itself, nor observes itself with the watch on, nor sends to itself with the heartbeat on.
#[tactic(auto, unfolding(crate::specs::Range::live_test))]
pub fn live_in_range(me: u8, a: Node) -> bool
    ensures { result ≡ live_test me a }
{
    !ring::is_listed(a.list, me)
        && is_apart(a.watch, a.emitter, me)
        && is_apart(a.heartbeat, a.observer, me)
}
