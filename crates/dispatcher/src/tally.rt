// Whose turn it is, and what the turns of a call came to.
ghost use Rattle.std.specs.Prelude.{◌≡◌, ◌^◌, ◌+◌, ◌≤◌, ◌<◌};
ghost use Rattle.ring.specs.Ring.{numbers, round};
ghost use Rattle.platform.specs.Calls.{events_done};
ghost use Rattle.dispatcher.specs.Dispatch.{first_marked, bits};
ghost use Rattle.dispatcher.specs.Tally.{able_marks, stopped_marks, new_tally, after_ran, answer_of};

use crate::Dispatched;
use platform::{Ran, RunRefusal};

// Of a store: whether it can go on, whether it is stopped, and the events that its turns did.
#[derive(Clone, Copy, Debug, PartialEq, Eq)]
pub struct Tally {
    pub able: bool,
    pub stopped: bool,
    pub events: u64,
}

impl Tally {
    // Of a store that has had no turn.
    pub fn new(able: bool) -> Tally
        ensures { result ≡ new_tally able }
    {
        Tally {
            able,
            stopped: false,
            events: 0,
        }
    }

    // After a turn of the store.
    pub fn after(self, ran: Result<Ran, RunRefusal>) -> Tally
        requires { self.events + events_done ran < 2 ^ 64 }
        ensures { result ≡ after_ran self ran }
    {
        let (able, stopped, events) = match ran {
            Ok(Ran::Spent(events)) => (true, false, events),
            Ok(Ran::Done(events)) => (false, false, events),
            Err(refused) => (false, true, refused.events),
        };
        Tally {
            able,
            stopped,
            events: self.events + events,
        }
    }
}

// The first of n stores that can go on, from the one at an index on and then from 0 on.
pub fn next_able(tallies: &[Tally; 8], n: usize, at: usize) -> Option<usize>
    requires { (at ≤ n) × (n ≤ 8) }
    ensures { result ≡ first_marked (able_marks tallies.now) (round (numbers 0 n) at) }
{
    match tallies[at..n].iter().position(|tally| tally.able) {
        Some(later) => Some(at + later),
        None => tallies[..at].iter().position(|tally| tally.able),
    }
}

// Which stores are stopped, as bits, the first as bit 0.
fn stopped_bits(tallies: &[Tally; 8]) -> u64
    ensures { result ≡ bits (stopped_marks tallies.now) }
{
    let mut sum = 0u64;
    for tally in tallies.iter().rev() {
        sum = 2 * sum + u64::from(tally.stopped);
    }
    sum
}

// The answer of a call that gave so many turns.
pub fn answer(tallies: &[Tally; 8], turns: u64) -> Dispatched
    ensures { result ≡ answer_of tallies.now turns }
{
    Dispatched {
        turns,
        events: tallies.map(|tally| tally.events),
        stopped: stopped_bits(tallies),
    }
}
