// The bytes that a program moves between its buffers, and the one read and the one write that it makes, of any reader and any writer.
ghost use Rattle.std.specs.Prelude.{◌≡◌, ◌+◌, ◌≤◌, length, take};
ghost use Rattle.std.proofs.Math.Seq.{slice};

use std::io::{Read, Write};

// The n bytes from `from` on move to the front.
pub fn move_down(buffer: &mut [u8], from: usize, n: usize)
    requires { from + n ≤ length buffer.old }
    ensures { take n buffer.new ≡ slice from (from + n) buffer.old }
{
    buffer.copy_within(from..from + n, 0);
}

// One read behind the first `to` bytes of the buffer. It answers how many bytes came, 0 at the end of the input and where the read fails.
pub fn read_behind<R: Read>(reader: &mut R, buffer: &mut [u8], to: usize) -> usize
    requires { to ≤ length buffer.old }
    ensures { (to + result ≤ length buffer.old) × (take to buffer.new ≡ take to buffer.old) }
{
    reader.read(&mut buffer[to..]).unwrap_or(0)
}

// What was handed to the writer, and whether all of it was written. A caller counts these bytes, so that no other number of them can be handed on.
#[derive(Clone, Copy)]
pub struct Written {
    pub bytes: usize,
    pub done: bool,
}

// Lines are written. Where there is nothing to write, the writer is not called.
pub fn write_lines<W: Write>(writer: &mut W, lines: &[u8]) -> Written
    ensures { result.bytes ≡ length lines.now }
{
    Written {
        bytes: lines.len(),
        done: writer.write_all(lines).is_ok(),
    }
}
