// Bytes and numbers in decimal, written into the buffer of a line that is lent.
#![tactic(auto)]

ghost use Rattle.std.specs.Prelude.{◌≡◌, ◌+◌, ◌≤◌, ◌<◌, length, drop};
ghost use Rattle.decimal.specs.Decimal.{decimal, signed, field, digit as digit_of};
ghost use Rattle.decimal.specs.Written.{line_bytes, most_digits, signed_bytes, natural_field, integer_field, Written};

// The buffer of a line.
pub const LINE_BYTES: usize = 193;

// The digits of the greatest number of 64 bits.
const MOST_DIGITS: usize = 20;

const LAST_DIGIT: usize = MOST_DIGITS - 1;

// The character of a digit below 16.
pub fn digit(d: u64) -> u8
    requires { d < 16 }
    ensures { result ≡ digit_of d }
{
    if d < 10 {
        b'0' + d as u8
    } else {
        b'A' + (d - 10) as u8
    }
}

// The bytes of s from `at` on. It answers the index behind them, as each function below does that writes into the buffer.
pub fn put(out: &mut [u8; LINE_BYTES], at: usize, s: &[u8]) -> usize
    requires { at + length s.now ≤ line_bytes }
    ensures { Written out.old out.new at s.now result }
{
    let end = at + s.len();
    out[at..end].copy_from_slice(s);
    end
}

// A number in decimal: the characters of `digits` from `from` on. They are found from the last to the first, so that they stand at the end of the array.
#[derive(Clone, Copy)]
struct Decimal {
    digits: [u8; MOST_DIGITS],
    from: usize,
}

fn in_decimal(n: u64) -> Decimal
    ensures { (drop result.from result.digits ≡ decimal n) × (result.from ≤ most_digits) × (length result.digits ≡ most_digits) }
{
    let mut digits = [0u8; MOST_DIGITS];
    let mut from = LAST_DIGIT;
    digits[from] = digit(n % 10);
    let mut rest = n / 10;
    while rest > 0 {
        from -= 1;
        digits[from] = digit(rest % 10);
        rest /= 10;
    }
    Decimal { digits, from }
}

fn put_decimal(out: &mut [u8; LINE_BYTES], at: usize, n: u64) -> usize
    requires { at + length (decimal n) ≤ line_bytes }
    ensures { Written out.old out.new at (decimal n) result }
{
    let d = in_decimal(n);
    put(out, at, &d.digits[d.from..])
}

// The sign, if there is one, and the magnitude.
fn put_signed(out: &mut [u8; LINE_BYTES], at: usize, z: i64) -> usize
    requires { at + signed_bytes ≤ line_bytes }
    ensures { Written out.old out.new at (signed z) result × (result ≤ at + signed_bytes) }
{
    let next = if z < 0 { put(out, at, b"-") } else { at };
    put_decimal(out, next, z.unsigned_abs())
}

// One more field: a space, and a number.
pub fn put_natural(out: &mut [u8; LINE_BYTES], at: usize, n: u32) -> usize
    requires { at + natural_field ≤ line_bytes }
    ensures { Written out.old out.new at (field (decimal n)) result × (result ≤ at + natural_field) }
{
    let next = put(out, at, b" ");
    put_decimal(out, next, n as u64)
}

pub fn put_integer(out: &mut [u8; LINE_BYTES], at: usize, z: i64) -> usize
    requires { at + integer_field ≤ line_bytes }
    ensures { Written out.old out.new at (field (signed z)) result × (result ≤ at + integer_field) }
{
    let next = put(out, at, b" ");
    put_signed(out, next, z)
}
