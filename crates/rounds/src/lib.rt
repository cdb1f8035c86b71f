// What `gatebook` does between a read and a write, over plain bytes.
#![tactic(auto)]

ghost use Rattle.std.specs.Prelude.{◌≡◌, true, ◌++◌, ◌+◌, ◌*◌, ◌≤◌, ◌<◌, min, length, take};
ghost use Rattle.decimal.specs.Written.{line_bytes};
ghost use Rattle.turns.specs.Turns.{store_in, first_step, columns_from};
ghost use Rattle.rounds.specs.Due.{room_for, flow, step_at, progress_of, Found, Answered, Walked, Begun, Took};

use commands::SHAPE_BYTES;
use decimal::LINE_BYTES;
use turns::{Outcome, columns_of, operand_width, start, turn};

// How the program stands: whether it goes on, whether the shape is answered, and its columns; and of the bytes and the lines at hand, how many are taken and
// how many are written.
#[derive(Clone, Copy)]
pub struct Progress {
    pub on: bool,
    pub started: bool,
    pub columns: usize,
    pub taken: usize,
    pub written: usize,
}

// The line of a turn goes behind the lines that are written. How the program stands then, with the bytes up to `end` taken.
fn append_line(
    lines: &mut [u8],
    written: usize,
    line: &[u8; LINE_BYTES],
    t: Outcome,
    columns: usize,
    end: usize,
) -> Progress
    requires { (written + line_bytes ≤ length lines.old) × (t.length ≤ line_bytes) × (t.length ≤ length line.now) }
    ensures { (take (written + t.length) lines.new ≡ take written lines.old ++ take t.length line.now) × (result ≡ progress_of t columns end written) }
{
    let behind = written + t.length;
    lines[written..behind].copy_from_slice(&line[..t.length]);
    Progress {
        on: t.on,
        started: true,
        columns,
        taken: end,
        written: behind,
    }
}

// Where the command at an index ends: behind its operands, or with the input. It answers the index itself where the input ends there, or where the command is
// not whole and more can come.
fn command_end(bytes: &[u8], at: usize, columns: usize, last: bool) -> usize
    requires { at ≤ length bytes.now }
    ensures { Found last columns bytes.now at result }
{
    let n = bytes.len();
    if at == n {
        return at;
    }
    let width = operand_width(bytes[at], columns);
    if width < n - at {
        return at + 1 + width;
    }
    if last { n } else { at }
}

// The turn of the command from p.taken to `end`.
fn answer_command(
    mem: &mut [u8],
    scans: &mut [u8],
    bytes: &[u8],
    end: usize,
    lines: &mut [u8],
    p: Progress,
) -> Progress
    requires { (p.taken < end) × (end ≤ length bytes.now) × (p.written + line_bytes ≤ length lines.old) }
    ensures { Answered (step_at p.columns (store_in mem.old scans.old) bytes.now p.taken end) p.columns end (store_in mem.new scans.new) lines.old lines.new p result }
{
    let mut line = [0u8; LINE_BYTES];
    let operands = &bytes[p.taken + 1..end];
    let t = turn(mem, scans, p.columns, bytes[p.taken], operands, &mut line);
    append_line(lines, p.written, &line, t, p.columns, end)
}

// The turn of the shape, in the first `end` bytes.
fn answer_shape(
    mem: &mut [u8],
    scans: &mut [u8],
    bytes: &[u8],
    end: usize,
    lines: &mut [u8],
    p: Progress,
) -> Progress
    requires { (end ≤ length bytes.now) × (p.written + line_bytes ≤ length lines.old) }
    ensures { Answered (first_step (store_in mem.old scans.old) (take end bytes.now)) (columns_from (take end bytes.now)) end (store_in mem.new scans.new) lines.old lines.new p result }
{
    let shape = &bytes[..end];
    let mut line = [0u8; LINE_BYTES];
    let t = start(mem, scans, shape, &mut line);
    append_line(lines, p.written, &line, t, columns_of(shape), end)
}

// The commands, one after another, as many as there are.
fn answer_commands(
    mem: &mut [u8],
    scans: &mut [u8],
    bytes: &[u8],
    last: bool,
    lines: &mut [u8],
    first: Progress,
) -> Progress
    requires { (first.started ≡ true) × (first.taken ≤ length bytes.now) × (first.written + line_bytes * length bytes.now ≤ length lines.old + line_bytes * first.taken) }
    ensures { Walked last first result (store_in mem.old scans.old) (store_in mem.new scans.new) bytes.now lines.old lines.new }
{
    let mut p = first;
    while p.on {
        let at = p.taken;
        let end = command_end(bytes, at, p.columns, last);
        if end == at {
            return Progress { on: !last, ..p };
        }
        p = answer_command(mem, scans, bytes, end, lines, p);
    }
    p
}

// The shape, if it is not yet answered and its bytes are there.
fn answer_first(
    mem: &mut [u8],
    scans: &mut [u8],
    bytes: &[u8],
    last: bool,
    lines: &mut [u8],
    p: Progress,
) -> Progress
    requires { (p.taken ≡ 0) × (p.written ≡ 0) × (room_for (length bytes.now) ≤ length lines.old) }
    ensures { Begun last (flow p) result (store_in mem.old scans.old) (store_in mem.new scans.new) bytes.now lines.new }
{
    if p.started || !p.on {
        return p;
    }
    if bytes.len() < SHAPE_BYTES && !last {
        return p;
    }
    let end = SHAPE_BYTES.min(bytes.len());
    answer_shape(mem, scans, bytes, end, lines, p)
}

// All that `gatebook` does between a read and a write. The bytes at hand are answered as far as they go, whole commands and, if they are the last, the one that
// is cut: the lines are at the front of `lines`. Of p only the first three fields count. Where `lines` could not hold a line for every byte and one more,
// nothing is done.
pub fn answer(
    mem: &mut [u8],
    scans: &mut [u8],
    bytes: &[u8],
    last: bool,
    lines: &mut [u8],
    p: Progress,
) -> Progress
    ensures { Took last (flow p) result (store_in mem.old scans.old) (store_in mem.new scans.new) bytes.now lines.new }
{
    let nothing = Progress {
        taken: 0,
        written: 0,
        ..p
    };
    if lines.len() / LINE_BYTES <= bytes.len() {
        return nothing;
    }
    let q = answer_first(mem, scans, bytes, last, lines, nothing);
    if !q.started {
        return q;
    }
    answer_commands(mem, scans, bytes, last, lines, q)
}
