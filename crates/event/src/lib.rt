// One event of the platform, done in place on the bytes of a store. It asks for a store that opening, steps and runs lead to, and makes
// no test of the whole store.
#![tactic(auto)]

pub mod search; // search.rt: the next event
pub mod turn; // turn.rt: what an event does to its node, what it sends and what is told of it
pub mod lines; // lines.rt: the lines of an event, and the last line
mod act; // act.rt: the events of a store that holds its messages in flight

ghost use Rattle.std.specs.Prelude.{◌≡◌};
ghost use Rattle.event.specs.Event.{next_answer, store_left};
ghost use Rattle.event.specs.Ready.{Ready};

use limits::Refusal;
use model::Deed;

// The next event: its tick, and the node that crashes, the place of the message, or the node whose timer it is.
#[derive(Clone, Copy)]
pub enum Next {
    Crash(u32, u8),
    Message(u32, usize),
    Watch(u32, usize),
    Heartbeat(u32, usize),
}

// The next event is done, if one is left up to the end tick. What it did; it is refused where more than 2,048 messages would be in flight.
pub fn do_event(s: &mut [u8]) -> Result<Option<Deed>, Refusal>
    requires { Ready s.old }
    ensures { (result ≡ next_answer s.old) × (s.new ≡ store_left s.old) }
{
    match search::next_event(s) {
        Some(Next::Crash(t, k)) => act::do_crash(s, t, k),
        Some(Next::Message(t, i)) => act::do_message(s, t, i),
        Some(Next::Watch(t, x)) => act::do_watch(s, t, x),
        Some(Next::Heartbeat(t, x)) => act::do_heartbeat(s, t, x),
        None => Ok(None),
    }
}
