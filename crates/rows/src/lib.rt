// What the test programs share: the walk over the lines of standard input, and the numbers that the lines write.
#![tactic(auto)]

ghost use Rattle.std.specs.Prelude.{◌≡◌, ◌≤◌, ◌<◌, IfSome, decimal, length, map, take};
ghost use Rattle.std.specs.Io.BufRead.{drop_through};
ghost use Rattle.std.specs.Io.KnownBytes.{Consumes};
ghost use Rattle.rows.specs.Lines.{kept, content, field_byte, CalledAtLines, Says};
ghost use Rattle.rows.specs.Numbers.{number, signed, offset_in, float_text, hex_value, float_of};

use moment::{Clock, Offset};
use std::io::{Read, Write};
use std::num::f64_from_bits_with_nan;

// Calls `row` with each line of the input, until that ends or can't be read. A line has its newline, and what its room doesn't hold is
// dropped: its last bytes, and its newline too. What stands after the last newline is no line. No clause says that it reads to the end:
// of a read that fails streams::read says no more than that, and no program tells it from the end.
pub fn each_line<R: Read, F: FnMut(&mut [u8])>(input: &mut R, room: &mut [u8], mut row: F)
    requires { F.IsAlwaysCallable row }
    ensures { CalledAtLines F.FnMut row (R.remaining input.old) (R.remaining input.new) (length room.old) }
{
    let mut block = [0u8; 65536];
    let mut have = 0;
    // The turns end, as Rattle asks of every loop: after more bytes than any input has.
    for _ in 0..u64::MAX {
        let n = next(input, &mut block);
        if n == 0 {
            return;
        }
        for b in &block[..n] {
            have = kept(room, have, *b);
            if *b == b'\n' {
                row(&mut room[..have]);
                have = 0;
            }
        }
    }
}

// How many bytes come into a block: none also where the input can't be read.
fn next<R: Read>(input: &mut R, block: &mut [u8]) -> usize
    ensures within { result ≤ length block.new }
    ensures bytes { Consumes (R.remaining input.old) (R.remaining input.new) (take result block.new) }
{
    streams::read(input, block).unwrap_or(0)
}

// Keeps one byte more of a line, if it has room for it: how many are kept. The room and that number stay two: a struct that held the lent
// room would be no plainer, since each contract would have to say that it still holds the same.
fn kept(room: &mut [u8], have: usize, b: u8) -> usize
    requires { have ≤ length room.old }
    ensures within { result ≤ length room.new }
    ensures bytes { take result room.new ≡ kept (length room.old) (take have room.old) b }
{
    if have == room.len() {
        return have;
    }
    room[have] = b;
    have + 1
}

// A line without its newline.
pub fn content(line: &[u8]) -> &[u8]
    ensures { result.now ≡ content line.now }
{
    line.strip_suffix(b"\n").unwrap_or(line)
}

// Tabs and the newline become the zero bytes that end a field.
pub fn end_fields(line: &mut [u8])
    ensures { line.new ≡ map field_byte line.old }
{
    for b in line.iter_mut() {
        *b = field_byte(*b);
    }
}

fn field_byte(b: u8) -> u8
    ensures { result ≡ field_byte b }
{
    match b {
        b'\t' | b'\n' => 0,
        _ => b,
    }
}

// Writes a text. What can't be written is left out: the stored answers show that.
pub fn say<W: Write>(out: &mut W, text: &[u8])
    ensures { Says (W.contents out.old) (W.contents out.new) text.now }
{
    let _ = streams::write_all(out, text);
}

// Writes a number's decimal digits, by the same rule.
pub fn decimal<W: Write>(out: &mut W, n: u64)
    ensures { Says (W.contents out.old) (W.contents out.new) (decimal n) }
{
    let _ = streams::print_decimal(out, n);
}

// ---- the first line: the clock, and after a tab the offset

// The last millisecond that the clock may say, and the most seconds of an offset.
const CLOCK_LIMIT: u64 = 253402300799999;

const OFFSET_LIMIT: u64 = 86399;

// What the digits at the front of a line say.
pub fn clock(line: &[u8]) -> Clock
    ensures { result.ms ≡ number 253402300799999 line.now }
{
    Clock {
        ms: number(line, CLOCK_LIMIT),
    }
}

// What stands after the tab, which is a zero byte here, with a minus before the digits if it is west.
pub fn offset(line: &[u8]) -> Offset
    ensures { result.seconds ≡ offset_in line.now }
{
    offset_of(after_zero(line))
}

fn offset_of(s: &[u8]) -> Offset
    ensures { result.seconds ≡ signed 86399 s.now }
{
    if let Some(digits) = text::byte(s, b'-') {
        return Offset {
            seconds: -(number(digits, OFFSET_LIMIT) as i64),
        };
    }
    Offset {
        seconds: number(s, OFFSET_LIMIT) as i64,
    }
}

// What follows the first zero byte, or nothing.
fn after_zero(line: &[u8]) -> &[u8]
    ensures { result.now ≡ drop_through 0 line.now }
{
    let (_, rest) = text::cut(line, 0);
    match rest {
        Some(rest) => rest,
        None => b"",
    }
}

// The number that the digits at the front write, as far as it is within a limit. Not crate lines' reader, which is part of what is tested and
// refuses where this stops.
fn number(s: &[u8], limit: u64) -> u64
    requires { limit ≤ 253402300799999 }
    ensures value { result ≡ number limit s.now }
    ensures within { result ≤ limit }
{
    let mut n = 0;
    for b in s {
        if !text::is_digit(*b) {
            return n;
        }
        let more = n * 10 + (*b - b'0') as u64;
        if limit < more {
            return n;
        }
        n = more;
    }
    n
}

// ---- an f64, as the 16 hexadecimal digits of its bits

// A NaN is written `nan`.
pub fn float<W: Write>(out: &mut W, x: f64)
    ensures { Says (W.contents out.old) (W.contents out.new) (float_text x) }
{
    if x.is_nan() {
        say(out, b"nan");
    } else {
        let _ = streams::print_hex(out, x.to_bits(), 16);
    }
}

// Small letters alone.
pub fn hex_digit(b: u8) -> Option<u8>
    ensures value { result ≡ hex_value b }
    ensures within { IfSome result (λ d. d < 16) }
{
    match b {
        b'0'..=b'9' => Some(b - b'0'),
        b'a'..=b'f' => Some(b - b'a' + 10),
        _ => None,
    }
}

// The f64 whose bits the digits write, the last sixteen where there are more. Any other byte counts as a zero.
pub fn float_of(s: &[u8]) -> f64
    ensures { result ≡ float_of s.now }
{
    let mut bits: u64 = 0;
    for b in s {
        bits = bits % (1 << 60) * 16 + u64::from(hex_digit(*b).unwrap_or(0));
    }
    f64_from_bits_with_nan(bits)
}
