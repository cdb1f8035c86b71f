// The program `gatebook`: it reads the shape and commands from standard input and writes a line for each to standard output. It reads what there is, has it
// answered, and writes the lines before it reads again, so that neither the input nor the output has to fit a buffer.
#![tactic(auto)]

mod buffers;
mod course;

ghost use Rattle.std.specs.Prelude.{◌≡◌, ◌≤◌, length};
ghost use Rattle.turns.specs.Turns.{store_in};
ghost use Rattle.commands.specs.Commands.{command_bytes};
ghost use Rattle.rounds.specs.Due.{room_for};
ghost use Rattle.gatebook.specs.Course.{lines_bytes, input_bytes, most_bytes, Ended};

use course::{Course, goes_on, opening, receive, round, send};
use decimal::LINE_BYTES;
use std::io::{Read, Write};
use turns::{lent_list, lent_memory};

// Rounds until the program ends.
fn run<R: Read, W: Write>(
    reader: &mut R,
    writer: &mut W,
    mem: &mut [u8],
    scans: &mut [u8],
    input: &mut [u8],
    lines: &mut [u8],
) -> Course
    requires { (command_bytes ≤ length input.old) × (room_for (length input.old) ≤ length lines.old) × (length lines.old ≤ most_bytes) }
    ensures { Ended (store_in mem.old scans.old) result (store_in mem.new scans.new) input.new }
{
    let mut c = opening();
    while goes_on(c) {
        let r = receive(reader, input, c);
        let a = round(mem, scans, input, lines, r);
        c = send(writer, lines, a);
    }
    c
}

// The lines of as many commands as the input buffer can hold fit the buffer of lines.
const LINES_BYTES: usize = 65536;

const INPUT_BYTES: usize = LINES_BYTES / LINE_BYTES - 1;

fn input_buffer() -> [u8; INPUT_BYTES]
    ensures { input_bytes ≡ length result }
{
    [0; INPUT_BYTES]
}

fn line_buffer() -> [u8; LINES_BYTES]
    ensures { lines_bytes ≡ length result }
{
    [0; LINES_BYTES]
}

fn main(rt: HostRuntime) {
    let mut reader = rt.stdin();
    let mut writer = rt.stdout();
    let mut mem = lent_memory();
    let mut scans = lent_list();
    let mut input = input_buffer();
    let mut lines = line_buffer();
    run(
        &mut reader,
        &mut writer,
        &mut mem,
        &mut scans,
        &mut input,
        &mut lines,
    );
}
