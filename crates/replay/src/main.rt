// Runs packed streams of commands through gatebook's library and writes their lines. Each stream's store is made anew in the memory that the stream before it
// left. The pack is read from standard input; reference/src/pack.rs describes it, and the second program writes it and the lines that are expected.
#![tactic(auto)]

ghost use Rattle.std.specs.Prelude.{◌≡◌, ◌+◌, ◌<◌, ◌≤◌, length, take};
ghost use Rattle.turns.specs.Gatebook.{memory_bytes, list_bytes};
ghost use Rattle.replay.specs.Pack.{pack_bytes, head_bytes};

use decimal::LINE_BYTES;
use std::io::{Read, Write};
use turns::{LIST_BYTES, MEMORY_BYTES, columns_of, operand_width, start, turn};

// What the lent bytes begin with, other than zeros.
const DIRT: u8 = 0xa5;

// The most bytes of a pack, and the bytes before those that a record holds.
const PACK: usize = 262144;

const HEAD: usize = 9;

// The kinds of records; any other is that of commands whose lines are folded.
const TITLE: u8 = 0;

const SHAPE: u8 = 1;

const COMMANDS: u8 = 2;

// Where the 32-bit FNV-1a hash begins, and what it multiplies by.
const HASH: u32 = 0x811c9dc5;

const PRIME: u32 = 0x01000193;

// How far a stream is: whether it goes on, the columns of its shape, and the number and the hash of the lines that are folded.
#[derive(Clone, Copy)]
struct Course {
    on: bool,
    columns: usize,
    lines: u32,
    hash: u32,
}

// A stream of which no shape is answered.
const ENDED: Course = Course {
    on: false,
    columns: 0,
    lines: 0,
    hash: HASH,
};

// Where the next command stands, and how far the stream is before it.
#[derive(Clone, Copy)]
struct Step {
    at: usize,
    course: Course,
}

// The two-byte number at an index.
fn two(bytes: &[u8], at: usize) -> u16
    requires { at + 2 ≤ length bytes.now }
{
    u16::from_le_bytes([bytes[at], bytes[at + 1]])
}

// The two-byte number at an index rises by one. An index from which no two bytes are left stands for none.
fn raise(bytes: &mut [u8], at: usize) {
    if at < bytes.len() && bytes.len() - at > 1 {
        let next = two(bytes, at).wrapping_add(1);
        bytes[at..at + 2].copy_from_slice(&next.to_le_bytes());
    }
}

// The hash with one more byte.
fn mix(hash: u32, byte: u8) -> u32 {
    (hash ^ u32::from(byte)).wrapping_mul(PRIME)
}

// The hash with the bytes of a line.
fn hashed(line: &[u8], hash: u32) -> u32 {
    line.iter().fold(hash, |h, byte| mix(h, *byte))
}

// A line is written, or folded into the number and the hash. `on` is whether the stream goes on after it. Whether a write fails is asked nowhere: the lines that come are
// compared with those that are expected.
fn put_line<W: Write>(writer: &mut W, line: &[u8], on: bool, folded: bool, c: Course) -> Course {
    if !folded {
        let _ = writer.write_all(line);
        return Course { on, ..c };
    }
    Course {
        on,
        lines: c.lines.wrapping_add(1),
        hash: hashed(line, c.hash),
        ..c
    }
}

// A command byte with its operands, and its line. Nothing is asked here of what the line says: the lines are compared.
fn answer<W: Write>(
    writer: &mut W,
    mem: &mut [u8],
    scans: &mut [u8],
    byte: u8,
    operands: &[u8],
    folded: bool,
    c: Course,
) -> Course {
    let mut line = [0u8; LINE_BYTES];
    let t = turn(mem, scans, c.columns, byte, operands, &mut line);
    put_line(writer, &line[..t.length.min(LINE_BYTES)], t.on, folded, c)
}

// One command: the byte at `at`, and its operands, as many as there are.
fn run_command<W: Write>(
    writer: &mut W,
    mem: &mut [u8],
    scans: &mut [u8],
    bytes: &[u8],
    at: usize,
    folded: bool,
    c: Course,
) -> Step
    requires { at < length bytes.now }
    ensures { (at < result.at) × (result.at ≤ length bytes.now) }
{
    let byte = bytes[at];
    let from = at + 1;
    let end = from + operand_width(byte, c.columns).min(bytes.len() - from);
    let course = answer(writer, mem, scans, byte, &bytes[from..end], folded, c);
    Step { at: end, course }
}

// The commands of a record, once.
fn run_once<W: Write>(
    writer: &mut W,
    mem: &mut [u8],
    scans: &mut [u8],
    bytes: &[u8],
    folded: bool,
    c: Course,
) -> Course {
    let mut course = c;
    let mut at = 0;
    while course.on && at < bytes.len() {
        let s = run_command(writer, mem, scans, bytes, at, folded, course);
        at = s.at;
        course = s.course;
    }
    course
}

// A record's head: its kind, the bytes that it holds, how often its commands are run, and the indices of the two numbers that rise each time.
#[derive(Clone, Copy)]
struct Head {
    kind: u8,
    size: usize,
    times: u16,
    first: usize,
    second: usize,
}

fn head_at(pack: &[u8], at: usize) -> Head
    requires { at + head_bytes ≤ length pack.now }
{
    Head {
        kind: pack[at],
        size: usize::from(two(pack, at + 1)),
        times: two(pack, at + 3),
        first: usize::from(two(pack, at + 5)),
        second: usize::from(two(pack, at + 7)),
    }
}

// The commands of a record, once, and the two numbers rise.
fn run_and_raise<W: Write>(
    writer: &mut W,
    mem: &mut [u8],
    scans: &mut [u8],
    bytes: &mut [u8],
    head: Head,
    folded: bool,
    c: Course,
) -> Course {
    let course = run_once(writer, mem, scans, bytes, folded, c);
    raise(bytes, head.first);
    raise(bytes, head.second);
    course
}

// The commands of a record as often as it says. Once the stream has ended none of them is run.
fn run_times<W: Write>(
    writer: &mut W,
    mem: &mut [u8],
    scans: &mut [u8],
    bytes: &mut [u8],
    head: Head,
    folded: bool,
    c: Course,
) -> Course {
    let mut course = c;
    for _ in 0..head.times {
        course = run_and_raise(writer, mem, scans, bytes, head, folded, course);
    }
    course
}

// A stream begins with its title.
fn put_title<W: Write>(writer: &mut W, title: &[u8]) -> Course {
    let _ = writer.write_all(title);
    let _ = writer.write_all(b"\n");
    ENDED
}

// The shape's line, and the store.
fn begin<W: Write>(writer: &mut W, mem: &mut [u8], scans: &mut [u8], shape: &[u8]) -> Course {
    let mut line = [0u8; LINE_BYTES];
    let t = start(mem, scans, shape, &mut line);
    let _ = writer.write_all(&line[..t.length.min(LINE_BYTES)]);
    Course {
        on: t.on,
        columns: columns_of(shape),
        ..ENDED
    }
}

// The line for those that are folded.
fn put_digest<W: Write>(writer: &mut W, c: Course) {
    let _ = writeln!(writer, "{} lines {:08x}", c.lines, c.hash);
}

fn run_folded<W: Write>(
    writer: &mut W,
    mem: &mut [u8],
    scans: &mut [u8],
    bytes: &mut [u8],
    head: Head,
    c: Course,
) -> Course {
    if !c.on {
        return c;
    }
    let before = Course {
        lines: 0,
        hash: HASH,
        ..c
    };
    let after = run_times(writer, mem, scans, bytes, head, true, before);
    put_digest(writer, after);
    after
}

// One record.
fn run_record<W: Write>(
    writer: &mut W,
    mem: &mut [u8],
    scans: &mut [u8],
    bytes: &mut [u8],
    head: Head,
    c: Course,
) -> Course {
    match head.kind {
        TITLE => put_title(writer, bytes),
        SHAPE => begin(writer, mem, scans, bytes),
        COMMANDS => run_times(writer, mem, scans, bytes, head, false, c),
        _ => run_folded(writer, mem, scans, bytes, head, c),
    }
}

// The record at an index of the pack.
fn take_record<W: Write>(
    writer: &mut W,
    mem: &mut [u8],
    scans: &mut [u8],
    pack: &mut [u8],
    at: usize,
    c: Course,
) -> Step
    requires { at + head_bytes ≤ length pack.old }
    ensures { (at < result.at) × (result.at ≤ length pack.old) }
{
    let head = head_at(pack, at);
    let from = at + HEAD;
    let end = from + head.size.min(pack.len() - from);
    let course = run_record(writer, mem, scans, &mut pack[from..end], head, c);
    Step { at: end, course }
}

// All records, as long as there is a whole head.
fn run_all<W: Write>(writer: &mut W, mem: &mut [u8], scans: &mut [u8], pack: &mut [u8]) {
    let mut course = ENDED;
    let mut at = 0;
    while pack.len() - at >= HEAD {
        let s = take_record(writer, mem, scans, pack, at, course);
        at = s.at;
        course = s.course;
    }
}

// What is lent, of which only the length matters.
fn lent_memory() -> [u8; MEMORY_BYTES]
    ensures { memory_bytes ≡ length result }
{
    [DIRT; MEMORY_BYTES]
}

fn lent_list() -> [u8; LIST_BYTES]
    ensures { list_bytes ≡ length result }
{
    [DIRT; LIST_BYTES]
}

fn pack_buffer() -> [u8; PACK]
    ensures { pack_bytes ≡ length result }
{
    [0; PACK]
}

// Reads until the buffer is full, the input ends or a read fails. It answers how many bytes came.
fn read_full<R: Read>(reader: &mut R, buffer: &mut [u8]) -> usize
    ensures { (result ≤ length buffer.new) × (result ≡ length (take result buffer.new)) }
{
    let mut done = 0;
    while done < buffer.len() {
        let n = reader.read(&mut buffer[done..]).unwrap_or(0);
        if n == 0 {
            break;
        }
        done += n;
    }
    done
}

fn main(rt: HostRuntime) {
    let mut reader = rt.stdin();
    let mut writer = rt.stdout();
    let mut mem = lent_memory();
    let mut scans = lent_list();
    let mut pack = pack_buffer();
    let n = read_full(&mut reader, &mut pack);
    run_all(&mut writer, &mut mem, &mut scans, &mut pack[..n]);
}
