// The nodes.
#![tactic(auto, using(crate::proofs::Store::rows_held, crate::proofs::States::changes))]

ghost use Rattle.std.specs.Prelude.{◌≡◌, ◌<◌};
ghost use Rattle.model.specs.Platform.{node_of, start};
ghost use Rattle.store.specs.Store.{encode, plan_in, state_in};
ghost use Rattle.store.specs.Inside.{Sized, Held, with_node};
ghost use Rattle.store.specs.Filling.{Unopened};

use crate::{fill, layout, plan};
use node::Node;

// Node i.
pub fn node_at(s: &[u8], i: usize) -> Node
    requires sized { Sized s.now }
    requires i_bound { i < (plan_in s.now).n }
    ensures { result ≡ node_of (state_in s.now) i }
{
    Node {
        emitter: layout::EMITTERS.get(s, i) as u8,
        observer: layout::OBSERVERS.get(s, i) as u8,
        watch: layout::WATCHES.get(s, i) as u32,
        heartbeat: layout::HEARTBEATS.get(s, i) as u32,
        list: layout::DEAD_LISTS.get(s, i),
        mark: layout::MARKS.get(s, i),
    }
}

// Node i becomes n.
pub fn set_node(s: &mut [u8], i: usize, n: Node)
    requires held { Held s.old }
    requires i_bound { i < (plan_in s.old).n }
    ensures { s.new ≡ encode (plan_in s.old) (with_node (state_in s.old) i n) }
{
    fill::put_node(s, i, n);
}

// All nodes, each as it is opened: the store has its P line and its Q line, and no rows.
pub fn open_nodes(s: &mut [u8])
    requires { Unopened s.old }
    ensures { s.new ≡ encode (plan_in s.old) (start (plan_in s.old)) }
{
    let all = ring::number_order();
    let n = plan::node_count(s);
    let h = plan::period(s);
    let w = plan::time_out(s);
    for i in 0..n {
        let order = plan::ring_order(s, &all[..]);
        let a = node::opened(order, h, w, i as u8);
        set_node(s, i, a);
    }
}
