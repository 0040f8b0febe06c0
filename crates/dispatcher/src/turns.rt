// The turns of a call, on stores that are ready for them.
ghost use Rattle.std.specs.Prelude.{◌≡◌, false, map, ◌/◌, ◌≤◌, length};
ghost use Rattle.limits.specs.Limits.{store_size};
ghost use Rattle.event.specs.Ready.{Ready};
ghost use Rattle.dispatcher.specs.Dispatch.{stores_in, event_left, for_eight};
ghost use Rattle.dispatcher.specs.Dispatch.{turns_of, standings_after, given, part_after};
ghost use Rattle.dispatcher.specs.Tally.{Whole, AllReady, new_tally};

use crate::tally::Tally;
use crate::{Dispatched, tally};
use event::search;
use limits::STORE_SIZE;
use platform::advance;

// Whether an event is left up to the end tick.
fn event_left(store: &[u8]) -> bool
    requires { Ready store.now }
    ensures { result ≡ event_left store.now }
{
    search::next_event(store).is_some()
}

// How the stores stand before the first turn: which have an event left.
fn at_first(part: &[u8]) -> [Tally; 8]
    requires { Whole (length part.now / store_size) part.now × AllReady (stores_in part.now) }
    ensures { result ≡ for_eight (new_tally false) (map (λ store. new_tally (event_left store)) (stores_in part.now)) }
{
    let mut tallies = [Tally::new(false); 8];
    for (i, store) in part.chunks_exact(STORE_SIZE).enumerate() {
        tallies[i] = Tally::new(event_left(store));
    }
    tallies
}

// Gives the turns of a call.
pub fn give(part: &mut [u8], each: u64, turns: u64) -> Dispatched
    requires whole { Whole (length part.old / store_size) part.old × AllReady (stores_in part.old) }
    requires le_each { 1 ≤ each }
    ensures value { result ≡ given (length (turns_of part.old each turns)) (standings_after part.old each turns) }
    ensures part_after { part.new ≡ part_after (standings_after part.old each turns) }
{
    let n = part.len() / STORE_SIZE;
    let mut tallies = at_first(part);
    let mut at = 0;
    for given in 0..turns {
        let Some(i) = tally::next_able(&tallies, n, at) else {
            return tally::answer(&tallies, given);
        };
        let start = i * STORE_SIZE;
        let end = start + STORE_SIZE;
        let ran = advance::run_ready(&mut part[start..end], each);
        tallies[i] = tallies[i].after(ran);
        at = i + 1;
    }
    tally::answer(&tallies, turns)
}
