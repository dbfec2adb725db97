// A list of calls with modifiers through crates reading, modifiers and moment, held against what the Rust gives.
//
// The first line of standard input is the clock, a tab and the offset; each line after it is `julianday`, a time value and modifiers, with
// tabs between. A line of standard output has the answer: an f64 as 16 hex digits, `null` for refusal 1, or `refused N`. The milliseconds
// to which the modifiers lead follow from it.
//
// Calls and answers are stored as crates/shifts/stdin and stdout. `oracle shifts` in oracle/ makes the calls; the answers are the Rust's.
#![tactic(auto)]

use modifiers::buffer;
use moment::{Clock, Offset};
use rules::{Given, Refusal};
use std::io::Stdout;

fn main(rt: HostRuntime) {
    let mut stdout = rt.stdout();
    let mut first = None;
    rows::each_line(&mut rt.stdin(), &mut [0; 8192], |line| {
        rows::end_fields(line);
        match first {
            None => first = Some((rows::clock(line), rows::offset(line))),
            Some((clock, offset)) => row(&mut stdout, line, clock, offset),
        }
    });
}

// An answer, with its newline: one text and so one write.
fn row(stdout: &mut Stdout, line: &[u8], clock: Clock, offset: Offset) {
    match julianday(line, clock, offset) {
        Ok(x) => float(stdout, x),
        Err(Refusal::Shape) => rows::say(stdout, b"refused 2\n"),
        Err(Refusal::Bytes) => rows::say(stdout, b"refused 3\n"),
        Err(Refusal::Decimal) => rows::say(stdout, b"refused 5\n"),
        Err(_) => rows::say(stdout, b"null\n"),
    }
}

// No answer is a NaN.
fn float(stdout: &mut Stdout, x: f64) {
    if !x.is_nan() {
        let mut text = [b'\n'; 17];
        digits::put_hex(&mut text, 0, x);
        rows::say(stdout, &text);
    }
}

// A call: its name, its time value and its modifiers, each ended by a zero byte. Refusals 2 and 3 come first.
fn julianday(line: &[u8], clock: Clock, offset: Offset) -> Result<f64, Refusal> {
    let (_, rest) = text::cut(line, 0);
    let (value, rest) = text::cut(rest.ok_or(Refusal::Shape)?, 0);
    let modifiers = rest.ok_or(Refusal::Shape)?;
    if 255 < value.len() {
        return Err(Refusal::Shape);
    }
    buffer::allowed(modifiers)?;
    if !text::is_ascii(value) {
        return Err(Refusal::Bytes);
    }
    let p = reading::time_value(Given::Bytes, value, clock)?;
    let p = modifiers::modified(offset, modifiers, p)?.ranged()?;
    Ok(real::julian_real(p.ms))
}
