// The program with its buffers: a read, a round and a write, and whether there is another. Its fields are private, so that the loop can only hand on what it was
// handed.
ghost use Rattle.std.specs.Prelude.{◌≡◌, false, ◌≤◌, ◌<◌, length};
ghost use Rattle.turns.specs.Turns.{store_in};
ghost use Rattle.rounds.specs.Due.{room_for};
ghost use Rattle.gatebook.specs.Course.{most_bytes, goes, Opened, Received, Rounded, Sent};

use crate::buffers::{move_down, read_behind, write_lines};
use rounds::{Progress, answer};
use std::io::{Read, Write};

// No run comes to so many bytes, 2^63. The bytes are counted, since every loop must be proved to end and nothing says that the input does.
const MOST_BYTES: usize = 9223372036854775808;

// How the program stands; how many bytes are held at the front of the input buffer, and whether they are the last; how many bytes at the front of the lines wait
// to be written, and whether lines could not be written; and how many bytes were read and written in all.
#[derive(Clone, Copy)]
pub struct Course {
    on: bool,
    started: bool,
    columns: usize,
    held: usize,
    last: bool,
    written: usize,
    failed: bool,
    read: usize,
    sent: usize,
}

pub fn opening() -> Course
    ensures { Opened result }
{
    Course {
        on: true,
        started: false,
        columns: 0,
        held: 0,
        last: false,
        written: 0,
        failed: false,
        read: 0,
        sent: 0,
    }
}

// The program ends where it has come to an end, where lines could not be written, and after the most bytes.
pub fn goes_on(c: Course) -> bool
    ensures { result ≡ goes c }
{
    !c.failed && c.read < MOST_BYTES && c.sent < MOST_BYTES && c.on
}

// One read behind the bytes that are held. There is room for one, so that nothing comes only where the input ends.
pub fn receive<R: Read>(reader: &mut R, input: &mut [u8], c: Course) -> Course
    requires { (c.held < length input.old) × (c.read < most_bytes) × (length input.old ≤ most_bytes) }
    ensures { Received c result input.old input.new }
{
    let end = c.held + read_behind(reader, input, c.held);
    Course {
        held: end,
        last: end == c.held,
        read: c.read + (end - c.held),
        ..c
    }
}

// One round. Nothing may wait to be written before it. What it leaves moves to the front.
pub fn round(
    mem: &mut [u8],
    scans: &mut [u8],
    input: &mut [u8],
    lines: &mut [u8],
    c: Course,
) -> Course
    requires { (c.written ≡ 0) × (c.held ≤ length input.old) × (room_for (length input.old) ≤ length lines.old) }
    ensures { Rounded c result (store_in mem.old scans.old) (store_in mem.new scans.new) input.old input.new lines.new }
{
    let p = Progress {
        on: c.on,
        started: c.started,
        columns: c.columns,
        taken: 0,
        written: 0,
    };
    let r = answer(mem, scans, &input[..c.held], c.last, lines, p);
    let left = c.held - r.taken;
    move_down(input, r.taken, left);
    Course {
        on: r.on,
        started: r.started,
        columns: r.columns,
        held: left,
        written: r.written,
        ..c
    }
}

// What waits is written.
pub fn send<W: Write>(writer: &mut W, lines: &[u8], c: Course) -> Course
    requires { (c.written ≤ length lines.now) × (c.sent < most_bytes) × (length lines.now ≤ most_bytes) }
    ensures { Sent c result }
{
    let w = write_lines(writer, &lines[..c.written]);
    Course {
        written: c.written - w.bytes,
        failed: !w.done,
        sent: c.sent + w.bytes,
        ..c
    }
}
