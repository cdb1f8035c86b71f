// What `gatebook` does between reading and writing: the answer to the shape, and the answer to one command, as lines in a buffer that is lent.
#![tactic(auto)]

ghost use Rattle.std.specs.Prelude.{◌≡◌, Ok, ◌≤◌, length};
ghost use Rattle.terms.specs.Measures.{most_columns, most_scans};
ghost use Rattle.terms.specs.declared.Form.{Form};
ghost use Rattle.words.specs.Words.{words};
ghost use Rattle.layout.specs.Sizes.{bytes_needed};
ghost use Rattle.requests.specs.Packed.{entries_of};
ghost use Rattle.requests.specs.Requested.{given_by};
ghost use Rattle.commands.specs.Commands.{operands_bytes, Small, chosen};
ghost use Rattle.output.specs.Steps.{step};
ghost use Rattle.turns.specs.Gatebook.{largest};
ghost use Rattle.promise.specs.Promise.{lent_machine};
ghost use Rattle.turns.specs.Turns.{store_in, making_answer, made_store, first_answer, first_store, first_step, columns_from, capped as capped_at, operand_width, Does, Turned};

use commands::{Format, SHAPE_BYTES, choose, decode, decode_shape, width};
use decimal::LINE_BYTES;
use lines::{render_line, render_shape};
use output::{goes_on, lends};
use requests::packed::ENTRY_BYTES;
use requests::{Called, alone, call, make_store};
use terms::limits::{MOST_COLUMNS, MOST_SCANS};
use terms::{Answer, Refusal, Shape};

// Memory for the largest shape that memory is lent for, and a scan list with an entry for each scan that can be open.
pub const MEMORY_BYTES: usize = 29680;

pub const LIST_BYTES: usize = ENTRY_BYTES * MOST_SCANS;

#[tactic(auto, unfolding(layout::specs::Sizes::bytes_needed, layout::specs::Regions::need))]
pub fn lent_memory() -> [u8; MEMORY_BYTES]
    ensures { length result ≡ bytes_needed Form.Newest largest }
{
    [0; MEMORY_BYTES]
}

#[tactic(auto, unfolding(words::specs::Words::words, requests::specs::Packed::entries_of))]
pub fn lent_list() -> [u8; LIST_BYTES]
    ensures { length (entries_of (words result)) ≡ most_scans }
{
    [0; LIST_BYTES]
}

// A line and what comes after it: the line's length, and whether the program goes on.
#[derive(Clone, Copy)]
pub struct Outcome {
    pub length: usize,
    pub on: bool,
}

// A store of the shape, where memory is lent for it.
#[tactic(auto, unfolding(crate::specs::Turns::making_answer, crate::specs::Turns::made_store, promise::specs::Promise::Makes))]
fn make_lent(mem: &mut [u8], scans: &mut [u8], shape: Shape) -> Answer
    ensures { (result ≡ making_answer (store_in mem.old scans.old) shape) × (store_in mem.new scans.new ≡ made_store (store_in mem.old scans.old) shape) }
{
    if !lends(shape) {
        return Err(Refusal::Shape);
    }
    make_store(mem, scans, shape)
}

// What the shape is answered.
#[tactic(auto, unfolding(crate::specs::Turns::first_answer, crate::specs::Turns::first_store))]
fn answer_to_shape(mem: &mut [u8], scans: &mut [u8], bytes: &[u8]) -> Answer
    ensures { (result ≡ first_answer (store_in mem.old scans.old) bytes.now) × (store_in mem.new scans.new ≡ first_store (store_in mem.old scans.old) bytes.now) }
{
    if bytes.len() < SHAPE_BYTES {
        return Err(Refusal::Cut);
    }
    make_lent(mem, scans, decode_shape(bytes))
}

// The first turn: the bytes of the shape, as many as there are, and its line.
pub fn start(mem: &mut [u8], scans: &mut [u8], bytes: &[u8], out: &mut [u8; LINE_BYTES]) -> Outcome
    ensures { Turned (first_step (store_in mem.old scans.old) bytes.now) out.old out.new result (store_in mem.new scans.new) }
{
    let answer = answer_to_shape(mem, scans, bytes);
    let length = render_shape(out, answer);
    Outcome {
        length,
        on: goes_on(answer),
    }
}

// The columns of the shape, by which the commands are read.
#[tactic(auto, unfolding(crate::specs::Turns::columns_from))]
pub fn columns_of(bytes: &[u8]) -> usize
    ensures { result ≡ columns_from bytes.now }
{
    if bytes.len() < SHAPE_BYTES {
        return 0;
    }
    decode_shape(bytes).columns as usize
}

// A number of columns above the most counts as the most.
#[tactic(auto, unfolding(crate::specs::Turns::capped))]
fn capped(columns: usize) -> usize
    ensures { (result ≡ capped_at columns) × (result ≤ most_columns) }
{
    columns.min(MOST_COLUMNS)
}

// How many bytes of operands are to be read behind a command byte.
#[tactic(auto, unfolding(crate::specs::Turns::operand_width))]
pub fn operand_width(byte: u8, columns: usize) -> usize
    ensures { (result ≡ operand_width (capped_at columns) (chosen byte)) × (result ≤ operands_bytes) }
{
    match choose(byte) {
        Ok(format) => width(format, capped(columns)),
        Err(_) => 0,
    }
}

// What a command of a known format gives.
fn answer_to_known(
    mem: &mut [u8],
    scans: &mut [u8],
    columns: usize,
    format: Format,
    operands: &[u8],
) -> Called
    requires { Small columns format }
    ensures { Does (store_in mem.old scans.old) columns (Ok format) operands.now (given_by result) (store_in mem.new scans.new) }
{
    if operands.len() < width(format, columns) {
        return alone(Err(Refusal::Cut));
    }
    call(mem, scans, decode(format, columns, operands))
}

// What a command gives.
fn answer_to_command(
    mem: &mut [u8],
    scans: &mut [u8],
    columns: usize,
    byte: u8,
    operands: &[u8],
) -> Called
    ensures { Does (store_in mem.old scans.old) (capped_at columns) (chosen byte) operands.now (given_by result) (store_in mem.new scans.new) }
{
    match choose(byte) {
        Ok(format) => answer_to_known(mem, scans, capped(columns), format, operands),
        Err(why) => alone(Err(why)),
    }
}

// One turn: a command byte with its operands, as many as there are, and its line.
pub fn turn(
    mem: &mut [u8],
    scans: &mut [u8],
    columns: usize,
    byte: u8,
    operands: &[u8],
    out: &mut [u8; LINE_BYTES],
) -> Outcome
    ensures { Turned (step lent_machine (capped_at columns) (store_in mem.old scans.old) byte operands.now) out.old out.new result (store_in mem.new scans.new) }
{
    let called = answer_to_command(mem, scans, columns, byte, operands);
    let length = render_line(out, byte, called.answer, called.stamps, called.lent);
    Outcome {
        length,
        on: goes_on(called.answer),
    }
}
