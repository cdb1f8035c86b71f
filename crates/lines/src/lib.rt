// The lines that `gatebook` prints, as bytes in a buffer that is lent: a command's byte and its answer, or the answer to the shape.
#![tactic(auto)]

ghost use Rattle.std.specs.Prelude.{◌+◌, ◌*◌, ◌≤◌, length, take};
ghost use Rattle.decimal.specs.Written.{line_bytes, natural_field, Written};
ghost use Rattle.lines.specs.Lines.{fields, after_ok, outcome, line, shape_line};
ghost use Rattle.lines.specs.Written.{fields_bytes, outcome_bytes, Rendered};

use decimal::{LINE_BYTES, digit, put, put_integer, put_natural};
use terms::limits::LENT_STAMPS;
use terms::{Answer, Fields, number};

// Stamps, a field for each.
fn put_stamps(out: &mut [u8; LINE_BYTES], at: usize, stamps: &[u32]) -> usize
    requires { at + length stamps.now * natural_field ≤ line_bytes }
    ensures { Written out.old out.new at (fields stamps.now) result × (result ≤ at + length stamps.now * natural_field) }
{
    let mut next = at;
    for stamp in stamps {
        next = put_natural(out, next, *stamp);
    }
    next
}

// The fields of an answer, of which a list's stamps stand in the slice that the call was lent.
fn put_fields(out: &mut [u8; LINE_BYTES], at: usize, told: Fields, stamps: &[u32]) -> usize
    requires { at + fields_bytes (length stamps.now) ≤ line_bytes }
    ensures { Written out.old out.new at (after_ok told stamps.now) result × (result ≤ at + fields_bytes (length stamps.now)) }
{
    match told {
        Fields::Done => at,
        Fields::Number(n) => put_natural(out, at, n),
        Fields::Value(v) => put_integer(out, at, v as i64),
        Fields::None => put(out, at, b" none"),
        Fields::Sum(n, sum) => {
            let next = put_natural(out, at, n);
            put_integer(out, next, sum)
        }
        Fields::Lineage(n, used) => {
            let next = put_natural(out, at, n);
            put_natural(out, next, used)
        }
        Fields::Version(v, stamp) => {
            let next = put_integer(out, at, v as i64);
            put_natural(out, next, stamp)
        }
        Fields::Listed(n) => {
            let next = put_natural(out, at, n);
            let listed = (n as usize).min(stamps.len());
            put_stamps(out, next, &stamps[..listed])
        }
    }
}

// What a line says of an answer, behind the command's byte or the word shape.
fn put_outcome(out: &mut [u8; LINE_BYTES], at: usize, answer: Answer, stamps: &[u32]) -> usize
    requires { at + outcome_bytes (length stamps.now) ≤ line_bytes }
    ensures { Written out.old out.new at (outcome answer stamps.now) result × (result ≤ at + outcome_bytes (length stamps.now)) }
{
    match answer {
        Ok(told) => {
            let next = put(out, at, b" ok");
            put_fields(out, next, told, stamps)
        }
        Err(why) => {
            let next = put(out, at, b" no");
            put_natural(out, next, number(why))
        }
    }
}

// The line of a command: its byte, what it answered, and what it left in the places of the stamps that it was lent, the first `lent` of them. It answers the number of
// bytes, as `render_shape` does.
pub fn render_line(
    out: &mut [u8; LINE_BYTES],
    byte: u8,
    answer: Answer,
    stamps: [u32; LENT_STAMPS],
    lent: usize,
) -> usize
    ensures { Rendered out.old out.new (line byte answer (take lent stamps)) result }
{
    let first = digit(byte as u64 / 16);
    let second = digit(byte as u64 % 16);
    let start = put(out, 0, &[first, second]);
    let places = lent.min(stamps.len());
    let end = put_outcome(out, start, answer, &stamps[..places]);
    put(out, end, b"\n")
}

// The first line: what the shape is answered.
pub fn render_shape(out: &mut [u8; LINE_BYTES], answer: Answer) -> usize
    ensures { Rendered out.old out.new (shape_line answer) result }
{
    let start = put(out, 0, b"shape");
    let end = put_outcome(out, start, answer, &[]);
    put(out, end, b"\n")
}
