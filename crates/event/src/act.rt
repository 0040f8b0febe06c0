// The events of a store that holds its messages in flight. Number 8 is tested before anything is written.
ghost use Rattle.std.specs.Prelude.{◌≡◌, ◌<◌, ◌≤◌, MatchResult};
ghost use Rattle.limits.specs.Limits.{most_in_flight};
ghost use Rattle.limits.specs.declared.Refusal.TheVariants.{TooMany};
ghost use Rattle.model.specs.Platform.{crash, message, watch, heartbeat};
ghost use Rattle.event.specs.Event.{NextIs, next_answer, store_left, sends_left, turn_left, Turns};
ghost use Rattle.event.specs.Ready.{Ready};

use crate::turn;
use limits::Refusal;
use model::Deed;
use node::Turned;
use store::{layout, messages, plan};

// Number 8's test: no more messages than there are places are in flight, where so many are.
fn room(flying: usize) -> Result<(), Refusal>
    ensures { MatchResult result (λ nothing. flying ≤ most_in_flight) (λ refusal. (most_in_flight < flying) × (refusal ≡ TooMany)) }
{
    if layout::MOST_IN_FLIGHT < flying {
        return Err(Refusal::TooMany);
    }
    Ok(())
}

// Node x sends the messages of its turn at tick t: each joins those in flight.
fn send_all(s: &mut [u8], t: u32, x: u8, u: Turned)
    requires { Turns s.old t x u }
    ensures { s.new ≡ sends_left s.old t x u }
{
    for m in u.messages() {
        let f = turn::stamp(s, t, x, *m);
        messages::put_message(s, f);
    }
}

// Node x has taken its turn at tick t, and what it sends joins the messages in flight.
fn take_turn(s: &mut [u8], t: u32, x: u8, u: Turned)
    requires { Turns s.old t x u }
    ensures { s.new ≡ turn_left s.old t x u }
{
    turn::put_turn(s, t, x, u.node);
    send_all(s, t, x, u);
}

// Crash: one C row more is done.
pub fn do_crash(s: &mut [u8], t: u32, k: u8) -> Result<Option<Deed>, Refusal>
    requires ready { Ready s.old }
    requires next_is { NextIs s.old t (crash k) }
    ensures { (result ≡ next_answer s.old) × (s.new ≡ store_left s.old) }
{
    Ok(Some(turn::crash(s, t, k)))
}

// A message is delivered; to a crashed node it is dropped.
pub fn do_message(s: &mut [u8], t: u32, i: usize) -> Result<Option<Deed>, Refusal>
    requires ready { Ready s.old }
    requires next_is { NextIs s.old t (message i) }
    ensures { (result ≡ next_answer s.old) × (s.new ≡ store_left s.old) }
{
    let m = messages::message_at(s, i);
    let dead = plan::crashed_list(s);
    let u = turn::message_turn(s, dead, t, m);
    room(messages::message_count(s) - 1 + u.count)?;
    let deed = turn::message_deed(s, t, m, ring::is_listed(dead, m.to), u);
    messages::take_message(s, i);
    take_turn(s, t, m.to, u);
    Ok(Some(deed))
}

// Watch due: the emitter is listed. Watches and heartbeats have a function each: one over a rule and a deed would have a harder contract than both.
pub fn do_watch(s: &mut [u8], t: u32, x: usize) -> Result<Option<Deed>, Refusal>
    requires ready { Ready s.old }
    requires next_is { NextIs s.old t (watch x) }
    ensures { (result ≡ next_answer s.old) × (s.new ≡ store_left s.old) }
{
    let u = turn::watch_turn(s, t, x);
    room(messages::message_count(s) + u.count)?;
    let deed = turn::watch_deed(s, t, x, u);
    take_turn(s, t, x as u8, u);
    Ok(Some(deed))
}

// Heartbeat due: it is sent to the observer.
pub fn do_heartbeat(s: &mut [u8], t: u32, x: usize) -> Result<Option<Deed>, Refusal>
    requires ready { Ready s.old }
    requires next_is { NextIs s.old t (heartbeat x) }
    ensures { (result ≡ next_answer s.old) × (s.new ≡ store_left s.old) }
{
    let u = turn::heartbeat_turn(s, t, x);
    room(messages::message_count(s) + u.count)?;
    let deed = turn::heartbeat_deed(s, t, x, u);
    take_turn(s, t, x as u8, u);
    Ok(Some(deed))
}
