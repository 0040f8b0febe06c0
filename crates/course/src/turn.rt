// What a turn of a node writes into the store and the queue.
ghost use Rattle.store.specs.declared.Flight.{Flight};
ghost use Rattle.course.specs.Apart.{Turning, Sends, Takes};

use event::turn;
use node::Turned;
use store::Flight;

// Node x sends the messages of its turn at tick t into the queue from `start` up to `end`.
fn send_all(b: &mut [u8], q: &mut [Flight], start: usize, end: usize, t: u32, x: u8, u: Turned)
    requires { Turning b.old q.old start end t x u }
    ensures { Sends b.old q.old start end t x u b.new q.new }
{
    for (i, m) in u.messages().iter().enumerate() {
        let f = turn::stamp(b, t, x, *m);
        queue::push(&mut q[start..end + i + 1], f);
    }
}

// Node x has taken its turn at tick t.
pub fn take_turn(b: &mut [u8], q: &mut [Flight], start: usize, end: usize, t: u32, x: u8, u: Turned)
    requires { Turning b.old q.old start end t x u }
    ensures { Takes b.old q.old start end t x u b.new q.new }
{
    turn::put_turn(b, t, x, u.node);
    send_all(b, q, start, end, t, x, u);
}
