// Writes forwarding tables, for a test that compares them with the simulator's. Each line of standard input is `N,LIST`, N of
// at most three digits and LIST of 16 lower-case hexadecimal digits. It gives one line: the answer's number and the 384 targets,
// row after row, parted by commas. The input may have any length, as a line may go on in the next buffer.
#![tactic(auto)]

ghost use Rattle.std.specs.Prelude.{◌≡◌, ◌+◌, ◌<◌, ◌≤◌, length};

use ring::Table;
use std::io;
use std::io::{ErrorKind, Read};
use text::Writer;

// The room of a line: an answer's number, 384 targets of at most three digits, each after a comma, and a line feed.
const LINE_ROOM: usize = 20 + 4 * 384 + 1;

// What is read of a line so far: N, and LIST once there was a comma.
#[derive(Clone, Copy, Default)]
struct Line {
    n: u64,
    list: Option<u64>,
}

// A digit's value, decimal or hexadecimal. Any other byte has one too, and `char::to_digit` would give it none.
fn digit(b: u8) -> u64
    ensures { result < 16 }
{
    if b < b'a' {
        return b as u64 % 16;
    }
    (b - b'a') as u64 % 6 + 10
}

// The line with one byte more.
fn longer(line: Line, b: u8) -> Line {
    match line.list {
        _ if b == b',' => Line {
            list: line.list.or(Some(0)),
            ..line
        },
        Some(list) => Line {
            list: Some(list % 0x1000_0000_0000_0000 * 16 + digit(b)),
            ..line
        },
        None => Line {
            n: line.n % 100 * 10 + digit(b),
            ..line
        },
    }
}

// Puts a comma and a target, which has at most three digits. With `Writer::field`, which is for numbers of any length, the program has a
// quarter more instructions.
fn put_target(target: u8, out: &mut Writer)
    requires room { out.old.at + 4 ≤ length out.old.out.now }
    ensures same { out.new.out.ghost_name ≡ out.old.out.ghost_name }
    ensures size { length out.new.out.now ≡ length out.old.out.now }
    ensures within { out.new.at ≤ out.old.at + 4 }
{
    out.byte(b',');
    if 100 <= target {
        out.byte(b'0' + target / 100);
    }
    if 10 <= target {
        out.byte(b'0' + target / 10 % 10);
    }
    out.byte(b'0' + target % 10);
}

// Puts the targets of a row.
fn put_row(row: &[u8; 6], out: &mut Writer)
    requires room { out.old.at + 24 ≤ length out.old.out.now }
    ensures same { out.new.out.ghost_name ≡ out.old.out.ghost_name }
    ensures size { length out.new.out.now ≡ length out.old.out.now }
    ensures within { out.new.at ≤ out.old.at + 24 }
{
    for target in row {
        put_target(*target, out);
    }
}

// Puts the line of a table: the answer's number, the targets row after row, and a line feed. Answers its length.
fn put_table(table: &Table, line: &mut [u8; LINE_ROOM]) -> usize
    ensures { result ≤ 1557 }
{
    let mut out = Writer::new(line);
    out.number(limits::answer(table.answer));
    for row in &table.rows {
        put_row(row, &mut out);
    }
    out.byte(b'\n');
    out.at
}

// Writes the line of a table at once, so that it stays whole where others write beside it.
fn write_table(rt: &impl Print, table: &Table) -> io::Result<()> {
    let mut line = [0u8; LINE_ROOM];
    let end = put_table(table, &mut line);
    rt.write_all(&line[..end])
}

// Writes the table of each line that ends in the part, and answers what is read of the last one.
fn read_part(rt: &impl Print, part: &[u8], begun: Line) -> io::Result<Line> {
    let mut line = begun;
    for b in part {
        if *b == b'\n' {
            let table = ring::forwarding_table(line.n, line.list.unwrap_or(0));
            write_table(rt, &table)?;
            line = Line::default();
        } else {
            line = longer(line, *b);
        }
    }
    Ok(line)
}

// Nothing says that the input ends, so the turns are counted. A read that a signal interrupts is tried again.
fn main(rt: HostRuntime) -> io::Result<()> {
    let mut input = rt.stdin();
    let mut buffer = [0u8; 65536];
    let mut line = Line::default();
    for _ in 0..u64::MAX {
        match input.read(&mut buffer) {
            Ok(0) => return Ok(()),
            Ok(n) => line = read_part(&rt, &buffer[..n], line)?,
            Err(error) if error.kind() == ErrorKind::Interrupted => {}
            Err(error) => return Err(error),
        }
    }
    Ok(())
}
