// Run files: their reader, the numbers and rows of an accepted file, and their writer.
#![tactic(auto)]

ghost use Rattle.std.specs.Prelude.{◌≡◌, true, ◌+◌, ◌<◌, ◌≤◌, length};
ghost use Rattle.text.specs.Put.{Writes};
ghost use Rattle.runfile.specs.Text.{line_text, start_text, crash_text, delay_text};
ghost use Rattle.runfile.specs.File.{row_of, two_of, ring_of, crash_of, delay_of, first_line, crash_line, delay_line, later_line, file_of};
ghost use Rattle.plans.specs.Plan.{start_plan, start_ranges};
ghost use Rattle.runfile.specs.Reader.{read_of, line_answer, Tells, follows as Reader·follows, fields_at};
ghost use Rattle.runfile.specs.Reader.{numbers_there, numbers_at, ring_refusal};

use limits::{
    MOST_BYTES, MOST_D, MOST_DELAYS, MOST_H, MOST_NODES, MOST_NUMBER, MOST_TICK, MOST_W, Refusal,
};
use text::Writer;

// What an accepted file plans: the values of its P line, how many numbers its Q line has, 0 without one, how many C and L lines it has,
// and the place after the P line, where the Q line or else the first row stands.
#[derive(Clone, Copy)]
pub struct Outline {
    pub n: u64,
    pub h: u64,
    pub w: u64,
    pub d: u64,
    pub end: u64,
    pub ring: usize,
    pub crashes: usize,
    pub delays: usize,
    pub rows: usize,
}

// Why a file is refused, or its opening, and the line that is, from 1; else 0, as the C interface has it.
#[derive(Clone, Copy)]
pub struct FileRefusal {
    pub refusal: Refusal,
    pub line: u64,
}

// What is kept of the lines so far: what they plan, the tick and node that the next C line may not be below, the nodes that the C lines
// named, and the number that the next L line may not be below.
#[derive(Clone, Copy)]
struct Sofar {
    outline: Outline,
    tick: u64,
    node: u64,
    seen: u64,
    number: u64,
}

impl Outline {
    // Whether the values of the P line are in their ranges.
    #[tactic(auto, unfolding(plans::specs::Plan::start_ranges, plans::specs::Plan::start_plan, plans::specs::Plan::within))]
    fn starts_in_range(self) -> bool
        ensures { result ≡ start_ranges (start_plan self.n self.h self.w self.d self.end) }
    {
        (1..=MOST_NODES as u64).contains(&self.n)
            && (1..=MOST_H).contains(&self.h)
            && (1..=MOST_W).contains(&self.w)
            && (1..=MOST_D).contains(&self.d)
            && self.end <= MOST_TICK
    }
}

// The first line, which is to be the P line.
#[tactic(auto, using(crate::proofs::Forms::letter, crate::proofs::Reading::opening), unfolding(crate::specs::File::start_of))]
fn first_line(l: &[u8]) -> Result<Sofar, Refusal>
    ensures { result ≡ line_answer (first_line (row_of 0 l.now)) }
{
    let [b'P', ..] = l else {
        return Err(Refusal::BadForm);
    };
    let Some((n, i)) = text::read_field(l, 1) else {
        return Err(Refusal::BadForm);
    };
    let Some((h, j)) = text::read_field(l, i) else {
        return Err(Refusal::BadForm);
    };
    let Some((w, k)) = text::read_field(l, j) else {
        return Err(Refusal::BadForm);
    };
    let Some((d, m)) = text::read_field(l, k) else {
        return Err(Refusal::BadForm);
    };
    let Some((end, e)) = text::read_field(l, m) else {
        return Err(Refusal::BadForm);
    };
    if !text::ends(l, e) {
        return Err(Refusal::BadForm);
    }
    let outline = Outline {
        n,
        h,
        w,
        d,
        end,
        ring: 0,
        crashes: 0,
        delays: 0,
        rows: l.len(),
    };
    if !outline.starts_in_range() {
        return Err(Refusal::OutOfRange);
    }
    Ok(Sofar {
        outline,
        tick: 0,
        node: 0,
        seen: 0,
        number: 0,
    })
}

// The row of a tick and a node is not below that of the tick floor and the node first, by tick and then node.
#[tactic(auto, unfolding(crate::specs::Reader::follows))]
fn follows(floor: u64, first: u64, tick: u64, node: u64) -> bool
    ensures { result ≡ Reader·follows floor first tick node }
{
    (floor, first) <= (tick, node)
}

// A C line after those before it.
fn take_crash(st: Sofar, tick: u64, node: u64) -> Result<Sofar, Refusal>
    requires { (1 ≤ st.outline.n) × (st.outline.n ≤ 64) × (st.outline.crashes < 65536) }
    ensures { Tells st (λ p. crash_line p (record { tick = tick; node = node })) result }
{
    let outline = st.outline;
    if outline.delays != 0 {
        return Err(Refusal::BadForm);
    }
    if outline.end < tick || outline.n <= node {
        return Err(Refusal::OutOfRange);
    }
    if !follows(st.tick, st.node, tick, node) || ring::is_listed(st.seen, node as u8) {
        return Err(Refusal::NotRising);
    }
    Ok(Sofar {
        outline: Outline {
            crashes: outline.crashes + 1,
            ..outline
        },
        tick,
        node: node + 1,
        seen: ring::with_listed(st.seen, node as u8),
        ..st
    })
}

// An L line after those before it.
fn take_delay(st: Sofar, number: u64, delay: u64) -> Result<Sofar, Refusal>
    ensures { Tells st (λ p. delay_line p (record { number = number; delay = delay })) result }
{
    let outline = st.outline;
    if MOST_NUMBER < number || !(1..=outline.d).contains(&delay) {
        return Err(Refusal::OutOfRange);
    }
    if number < st.number {
        return Err(Refusal::NotRising);
    }
    if MOST_DELAYS <= outline.delays {
        return Err(Refusal::ManyDelays);
    }
    Ok(Sofar {
        outline: Outline {
            delays: outline.delays + 1,
            ..outline
        },
        number: number + 1,
        ..st
    })
}

// Whether n numbers and the line's end follow the letter.
#[tactic(auto, using(crate::proofs::Rings::numbers_read))]
fn has_numbers(l: &[u8], n: u64) -> bool
    ensures { result ≡ numbers_there n l.now 1 }
{
    let mut i: usize = 1;
    for _ in 0..n {
        let Some((_, j)) = text::read_field(l, i) else {
            return false;
        };
        i = j;
    }
    text::ends(l, i)
}

// What refuses the n numbers after the letter: first whether each is a node, then whether one stands twice.
fn ring_refusal(l: &[u8], n: u64) -> Result<(), Refusal>
    requires { (1 ≤ n) × (n ≤ 64) × (numbers_there n l.now 1 ≡ true) }
    ensures { result ≡ ring_refusal n (numbers_at n l.now 1) }
{
    let mut seen: u64 = 0;
    let mut once = true;
    let mut i: usize = 1;
    for _ in 0..n {
        let Some((x, j)) = text::read_field(l, i) else {
            return Err(Refusal::BadForm);
        };
        if n <= x {
            return Err(Refusal::OutOfRange);
        }
        once = once && !ring::is_listed(seen, x as u8);
        seen = ring::with_listed(seen, x as u8);
        i = j;
    }
    if once {
        Ok(())
    } else {
        Err(Refusal::NotEachOnce)
    }
}

// A Q line: right after the P line, N numbers and the line's end, then the numbers' ranges and each node once.
fn ring_line(st: Sofar, l: &[u8]) -> Result<Sofar, Refusal>
    requires { (1 ≤ st.outline.n) × (st.outline.n ≤ 64) }
    ensures { Tells st (λ p. later_line p (ring_of p.n l.now)) result }
{
    let outline = st.outline;
    if outline.ring != 0
        || outline.crashes != 0
        || outline.delays != 0
        || !has_numbers(l, outline.n)
    {
        return Err(Refusal::BadForm);
    }
    ring_refusal(l, outline.n)?;
    Ok(Sofar {
        outline: Outline {
            ring: outline.n as usize,
            ..outline
        },
        ..st
    })
}

// The two numbers after the letter of a C or L line, where the line's end follows them.
#[tactic(auto, unfolding(crate::specs::File::two_of))]
fn two_numbers(l: &[u8]) -> Option<(u64, u64)>
    ensures { result ≡ two_of l.now }
{
    let Some((a, i)) = text::read_field(l, 1) else {
        return None;
    };
    let Some((b, j)) = text::read_field(l, i) else {
        return None;
    };
    if text::ends(l, j) { Some((a, b)) } else { None }
}

// A line after the P line, by its letter.
#[tactic(auto, using(crate::proofs::Forms::letter), unfolding(crate::specs::File::crash_of, crate::specs::File::delay_of, crate::specs::File::later_line))]
fn later_line(st: Sofar, l: &[u8]) -> Result<Sofar, Refusal>
    requires { (1 ≤ st.outline.n) × (st.outline.n ≤ 64) × (st.outline.crashes < 65536) }
    ensures { Tells st (λ p. later_line p (row_of p.n l.now)) result }
{
    match l {
        [b'Q', ..] => ring_line(st, l),
        [b'C', ..] => {
            let Some((tick, node)) = two_numbers(l) else {
                return Err(Refusal::BadForm);
            };
            take_crash(st, tick, node)
        }
        [b'L', ..] => {
            let Some((number, delay)) = two_numbers(l) else {
                return Err(Refusal::BadForm);
            };
            take_delay(st, number, delay)
        }
        _ => Err(Refusal::BadForm),
    }
}

// What a file comes to: its length, then its lines one after another, the first bad line deciding.
#[tactic(auto, using(crate::proofs::Reading::length_refused))]
pub fn read_file(s: &[u8]) -> Result<Outline, FileRefusal>
    ensures { result ≡ read_of (file_of s.now) }
{
    let bad_length = FileRefusal {
        refusal: Refusal::BadLength,
        line: 0,
    };
    if MOST_BYTES < s.len() {
        return Err(bad_length);
    }
    let mut lines = s.split_inclusive(|b| *b == b'\n');
    let Some(first) = lines.next() else {
        return Err(bad_length);
    };
    let mut line: u64 = 1;
    let mut st = match first_line(first) {
        Ok(st) => st,
        Err(refusal) => return Err(FileRefusal { refusal, line }),
    };
    for bytes in lines {
        line += 1;
        match later_line(st, bytes) {
            Ok(next) => st = next,
            Err(refusal) => return Err(FileRefusal { refusal, line }),
        }
    }
    Ok(st.outline)
}

// The C or L line at the place at: its two numbers, and the place after the line.
#[tactic(auto, using(crate::proofs::Places::within_text), unfolding(crate::specs::Reader::fields_at))]
pub fn row_at(s: &[u8], at: usize) -> Option<(u64, u64, usize)>
    ensures { result ≡ fields_at s.now at }
{
    if s.len() <= at {
        return None;
    }
    let Some((first, i)) = text::read_field(s, at + 1) else {
        return None;
    };
    let Some((second, j)) = text::read_field(s, i) else {
        return None;
    };
    Some((first, second, j + 1))
}

// A line: its letter, its numbers and a line feed.
fn put_line(out: &mut Writer, letter: u8, numbers: &[u64])
    requires { out.old.at + length (line_text letter numbers.now) ≤ length out.old.out.now }
    ensures { Writes out.old out.new (line_text letter numbers.now) }
{
    out.byte(letter);
    for number in numbers {
        out.field(*number);
    }
    out.byte(b'\n');
}

// A P line.
#[tactic(auto, unfolding(crate::specs::Text::start_text, plans::specs::Plan::start_plan))]
pub fn put_start(out: &mut Writer, n: u64, h: u64, w: u64, d: u64, end: u64)
    requires { out.old.at + length (start_text (start_plan n h w d end)) ≤ length out.old.out.now }
    ensures { Writes out.old out.new (start_text (start_plan n h w d end)) }
{
    put_line(out, b'P', &[n, h, w, d, end]);
}

// A C line.
#[tactic(auto, unfolding(crate::specs::Text::crash_text))]
pub fn put_crash(out: &mut Writer, tick: u64, node: u64)
    requires { out.old.at + length (crash_text (record { tick = tick; node = node })) ≤ length out.old.out.now }
    ensures { Writes out.old out.new (crash_text (record { tick = tick; node = node })) }
{
    put_line(out, b'C', &[tick, node]);
}

// An L line.
#[tactic(auto, unfolding(crate::specs::Text::delay_text))]
pub fn put_delay(out: &mut Writer, number: u64, delay: u64)
    requires { out.old.at + length (delay_text (record { number = number; delay = delay })) ≤ length out.old.out.now }
    ensures { Writes out.old out.new (delay_text (record { number = number; delay = delay })) }
{
    put_line(out, b'L', &[number, delay]);
}
