// What the bytes that `gatebook` reads mean: the shape, the widths of a command's operands, and the call with its numbers.
#![tactic(auto)]

ghost use Rattle.std.specs.Prelude.{◌≡◌, Ok, cond, ◌+◌, ◌*◌, ◌≤◌, ◌<◌, length, take};
ghost use Rattle.terms.specs.Measures.{most_columns};
ghost use Rattle.commands.specs.Commands.{most_operands, operand_bytes, operands_bytes, value_bytes, Narrow, Small, widths_of, chosen, total as total_of, width as width_of, operand, operands as operands_of, values as values_of, call_from, shape_bytes, shape_from};
ghost use Rattle.commands.specs.Decoded.{call_in, ZerosPast};

use terms::limits::MOST_COLUMNS;
use terms::{Refusal, Shape};
use words::{get, of_word};

// The calls that only read.
#[derive(Clone, Copy)]
pub enum Read {
    Latest,
    ReadAt,
    OwnRead,
    ScanRead,
    Sum,
    PageCell,
    Lineage,
    KeeperAt,
}

// Those that change the memory and leave the scan list.
#[derive(Clone, Copy)]
pub enum Write {
    Begin,
    Insert,
    Update,
    Delete,
    Commit,
    Abort,
    Merge,
    Release,
    BeginAs,
}

// All calls: these, the two that change the list, and the one that writes into a slice.
#[derive(Clone, Copy)]
pub enum Kind {
    Read(Read),
    Write(Write),
    OpenScan,
    Close,
    Crossings,
}

// The most operands of a command, and the bytes of a value.
pub const MOST_OPERANDS: usize = 5;

const VALUE_BYTES: usize = 4;

pub const SHAPE_BYTES: usize = 6;

// A command's call, the widths of its operands in bytes, 0 for one that the call has not, and whether every column's value follows.
#[derive(Clone, Copy)]
pub struct Format {
    pub kind: Kind,
    pub widths: [usize; MOST_OPERANDS],
    pub values: bool,
}

// What a command byte stands for, or the refusal of one that is no command.
pub type Chosen = Result<Format, Refusal>;

fn known(kind: Kind, widths: [usize; MOST_OPERANDS], values: bool) -> Chosen
    ensures { result ≡ Ok (record { kind = kind; widths = widths; values = values }) }
{
    Ok(Format {
        kind,
        widths,
        values,
    })
}

// The call of a command byte, and the widths of its operands.
#[tactic(auto, unfolding(crate::specs::Commands::chosen, crate::specs::Commands::commands))]
pub fn choose(byte: u8) -> Chosen
    ensures { result ≡ chosen byte }
{
    match byte {
        0x01 => known(Kind::Write(Write::Begin), [0, 0, 0, 0, 0], false),
        0x02 => known(Kind::Write(Write::Insert), [2, 0, 0, 0, 0], true),
        0x03 => known(Kind::Write(Write::Update), [2, 2, 2, 0, 0], true),
        0x04 => known(Kind::Write(Write::Delete), [2, 2, 0, 0, 0], false),
        0x05 => known(Kind::Write(Write::Commit), [2, 4, 0, 0, 0], false),
        0x06 => known(Kind::Write(Write::Abort), [2, 0, 0, 0, 0], false),
        0x07 => known(Kind::Read(Read::Latest), [2, 1, 0, 0, 0], false),
        0x08 => known(Kind::Read(Read::ReadAt), [4, 2, 1, 0, 0], false),
        0x09 => known(Kind::Read(Read::OwnRead), [2, 2, 1, 0, 0], false),
        0x0a => known(Kind::OpenScan, [4, 0, 0, 0, 0], false),
        0x0b => known(Kind::Read(Read::ScanRead), [2, 2, 1, 0, 0], false),
        0x0c => known(Kind::Read(Read::Sum), [2, 1, 0, 0, 0], false),
        0x0d => known(Kind::Close, [2, 0, 0, 0, 0], false),
        0x0e => known(Kind::Write(Write::Merge), [1, 1, 2, 0, 0], false),
        0x0f => known(Kind::Write(Write::Release), [0, 0, 0, 0, 0], false),
        0x10 => known(Kind::Read(Read::PageCell), [1, 2, 0, 0, 0], false),
        0x11 => known(Kind::Read(Read::Lineage), [1, 1, 0, 0, 0], false),
        0x12 => known(Kind::Crossings, [2, 1, 4, 4, 4], false),
        0x13 => known(Kind::Write(Write::BeginAs), [2, 0, 0, 0, 0], false),
        0x14 => known(Kind::Read(Read::KeeperAt), [4, 2, 1, 0, 0], false),
        _ => Err(Refusal::Command),
    }
}

// How many values a command has, by whether every column's value follows its numbers.
fn value_count(values: bool, columns: usize) -> usize
    ensures { (result ≡ cond values columns 0) × (result ≤ columns) }
{
    if values { columns } else { 0 }
}

// The bytes of a command's operands before its values.
fn total(format: Format) -> usize
    requires { Narrow (widths_of format) }
    ensures { (result ≡ total_of (widths_of format)) × (result ≤ most_operands * operand_bytes) }
{
    let mut total = 0;
    for width in format.widths {
        total += width;
    }
    total
}

// The bytes of a command behind its command byte.
pub fn width(format: Format, columns: usize) -> usize
    requires { Small columns format }
    ensures { (result ≡ width_of columns format) × (result ≤ operands_bytes) }
{
    total(format) + VALUE_BYTES * value_count(format.values, columns)
}

// The number in the n bytes from `at`, the lowest byte first: the highest is taken up first.
fn number(bytes: &[u8], at: usize, n: usize) -> u32
    requires { (at + n ≤ length bytes.now) × (n ≤ operand_bytes) }
    ensures { result ≡ operand at n bytes.now }
{
    let mut total = 0;
    for i in (0..n).rev() {
        total = total * 256 + u32::from(bytes[at + i]);
    }
    total
}

// The operands in the bytes, one behind the other.
fn operands(format: Format, bytes: &[u8]) -> [u32; MOST_OPERANDS]
    requires { Narrow (widths_of format) × (total_of (widths_of format) ≤ length bytes.now) }
    ensures { result ≡ operands_of 0 (widths_of format) bytes.now }
{
    let mut out = [0; MOST_OPERANDS];
    let mut at = 0;
    for i in 0..MOST_OPERANDS {
        out[i] = number(bytes, at, format.widths[i]);
        at += format.widths[i];
    }
    out
}

// The first n values of the bytes. The rest of the array holds 0.
fn values(bytes: &[u8], n: usize) -> [i32; MOST_COLUMNS]
    requires { (n * value_bytes ≤ length bytes.now) × (n ≤ most_columns) }
    ensures { (take n result ≡ values_of n bytes.now) × ZerosPast n result }
{
    let mut out = [0i32; MOST_COLUMNS];
    for i in 0..n {
        out[i] = of_word(get(bytes, i));
    }
    out
}

// A call as the bytes give it: its operands in the order of the command, 0 for one that it has not, and the first `count` of `values`.
#[derive(Clone, Copy)]
pub struct Request {
    pub kind: Kind,
    pub operands: [u32; MOST_OPERANDS],
    pub count: usize,
    pub values: [i32; MOST_COLUMNS],
}

// The call of a command, from the bytes behind its command byte.
pub fn decode(format: Format, columns: usize, bytes: &[u8]) -> Request
    requires { Small columns format × (width_of columns format ≤ length bytes.now) }
    ensures { (call_in result ≡ call_from columns format bytes.now) × ZerosPast result.count result.values }
{
    let count = value_count(format.values, columns);
    let values_at = total(format);
    Request {
        kind: format.kind,
        operands: operands(format, bytes),
        count,
        values: values(&bytes[values_at..], count),
    }
}

// The shape, from its bytes.
pub fn decode_shape(bytes: &[u8]) -> Shape
    requires { shape_bytes ≤ length bytes.now }
    ensures { result ≡ shape_from bytes.now }
{
    Shape {
        columns: number(bytes, 0, 1),
        ranges: number(bytes, 1, 1),
        capacity: number(bytes, 2, 2),
        spares: number(bytes, 4, 2),
    }
}
