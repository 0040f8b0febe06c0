// The dispatcher: turns for up to eight stores that are lent one after another in one part.
#![tactic(auto)]

mod tally; // tally.rt: whose turn it is, and what the turns of a call came to
mod turns; // turns.rt: the turns of a call, on stores that are ready for them

ghost use Rattle.std.specs.Prelude.{◌≡◌, ◌/◌, length};
ghost use Rattle.limits.specs.Limits.{store_size};
ghost use Rattle.dispatcher.specs.Dispatch.{stores_in, all_in_range, dispatch};
ghost use Rattle.dispatcher.specs.Tally.{Whole};

use limits::{MOST_STORES, MOST_TURN, Refusal, STORE_SIZE};

// What a call answers that is not refused: how many turns it gave, how many events these did on each store, and which stores are stopped, bit i
// for store i. The C interface has these eight numbers and these bits.
#[derive(Clone, Copy, Debug, PartialEq, Eq)]
pub struct Dispatched {
    pub turns: u64,
    pub events: [u64; 8],
    pub stopped: u64,
}

// Number 7's test of every store of a part.
fn all_in_range(part: &[u8]) -> bool
    requires { Whole (length part.now / store_size) part.now }
    ensures { result ≡ all_in_range (stores_in part.now) }
{
    part.chunks_exact(STORE_SIZE)
        .all(|store| lent::in_range(store))
}

// Gives `turns` turns of `each` events to the stores of a part, round by index from 0 on, fewer once no store can go on.
pub fn dispatch(part: &mut [u8], each: u64, turns: u64) -> Result<Dispatched, Refusal>
    ensures value { result ≡ (dispatch part.old each turns).answer }
    ensures part_after { part.new ≡ (dispatch part.old each turns).part }
{
    let size = part.len();
    if size < 1 || MOST_STORES * STORE_SIZE < size {
        return Err(Refusal::BadPart);
    }
    if each < 1 || MOST_TURN < each {
        return Err(Refusal::BadTurn);
    }
    if size % STORE_SIZE != 0 || !all_in_range(part) {
        return Err(Refusal::BadStore);
    }
    Ok(turns::give(part, each, turns))
}
