// Standard input and output. A call that a signal interrupts, or that finds nothing to move yet, is tried again.
ghost use Rattle.std.specs.Prelude.{◌≡◌, ◌≢◌, ◌≤◌, ◌⊎◌, ◌↔◌, length, IfOk, IfErr, IsTrue};
ghost use Rattle.std.specs.IoError.{error_kind};

use std::io::{ErrorKind, Read};
use std::time::{Clock, Duration};
use std::{io, thread};

// Waits a millisecond, so that a stream that is slow does not keep a processor busy.
fn pause(rt: &impl Clock) {
    thread::sleep(rt, Duration::from_millis(1));
}

// Whether the call that just failed is to be tried again, after a pause where nothing can be moved yet.
fn try_again(rt: &impl Clock, error: &io::Error) -> bool
    ensures { IsTrue result ↔ ((error_kind error.now ≡ ErrorKind.WouldBlock) ⊎ (error_kind error.now ≡ ErrorKind.Interrupted)) }
{
    let kind = error.kind();
    if kind == ErrorKind::WouldBlock {
        pause(rt);
        return true;
    }
    kind == ErrorKind::Interrupted
}

// Reads some bytes of the input. Answers how many, 0 at its end, or why it cannot be read. Reads and writes have a loop each: one over a closure
// would have to ask of the closure what a read and a write promise by themselves.
pub fn read_some(rt: &impl Clock, input: &mut impl Read, buf: &mut [u8]) -> io::Result<usize>
    ensures moved { IfOk result (λ got. got ≤ length buf.old) }
    ensures retried { IfErr result (λ error. (error_kind error ≢ ErrorKind.WouldBlock) × (error_kind error ≢ ErrorKind.Interrupted)) }
{
    for _ in 0..u64::MAX {
        match input.read(buf) {
            Ok(got) => return Ok(got),
            Err(error) => {
                if !try_again(rt, &error) {
                    return Err(error);
                }
            }
        }
    }
    Err(io::Error::from(ErrorKind::TimedOut))
}

// Writes some of these bytes. Answers how many, or why they cannot be written.
pub fn write_some(rt: &(impl Print + Clock), buf: &[u8]) -> io::Result<usize>
    ensures moved { IfOk result (λ put. put ≤ length buf.now) }
    ensures retried { IfErr result (λ error. (error_kind error ≢ ErrorKind.WouldBlock) × (error_kind error ≢ ErrorKind.Interrupted)) }
{
    for _ in 0..u64::MAX {
        match rt.write_some(buf) {
            Ok(put) => return Ok(put),
            Err(error) => {
                if !try_again(rt, &error) {
                    return Err(error);
                }
            }
        }
    }
    Err(io::Error::from(ErrorKind::TimedOut))
}
