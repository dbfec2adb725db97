// A list of time values through crate reading, held against what the Rust gives.
//
// The first line of standard input is the clock, a tab and the offset; each line after it is a time value. A line of standard output has
// what `julianday` gives for it, a tab, and what `unixepoch` gives: an f64 as 16 hex digits, an integer, `null` for refusal 1, or
// `refused N`. The milliseconds that a time value reads to follow from either.
//
// Values and answers are stored as crates/values/stdin and stdout. `oracle values` in oracle/ makes both: the answers are the Rust's.
#![tactic(auto)]

use calendar::Instant;
use moment::Clock;
use rules::Refusal;
use std::io::Stdout;

fn main(rt: HostRuntime) {
    let mut stdout = rt.stdout();
    let mut clock = None;
    rows::each_line(&mut rt.stdin(), &mut [0; 512], |line| {
        let line = rows::content(line);
        match clock {
            None => clock = Some(rows::clock(line)),
            Some(clock) => row(&mut stdout, line, clock),
        }
    });
}

// A time value's two answers. A refusal's are one text and so one write, where words of one column in crate rows would take three.
fn row(stdout: &mut Stdout, s: &[u8], clock: Clock) {
    match instant(s, clock) {
        Ok((at, subsec)) => answers(stdout, at, subsec),
        Err(Refusal::Shape) => return rows::say(stdout, b"refused 2\trefused 2\n"),
        Err(Refusal::Bytes) => return rows::say(stdout, b"refused 3\trefused 3\n"),
        Err(Refusal::Decimal) => rows::say(stdout, b"refused 5\trefused 5"),
        Err(_) => rows::say(stdout, b"null\tnull"),
    }
    rows::say(stdout, b"\n");
}

// The instant that a time value stands for, and whether it asked for `subsec`.
fn instant(s: &[u8], clock: Clock) -> Result<(Instant, bool), Refusal> {
    if 255 < s.len() {
        return Err(Refusal::Shape);
    }
    if !text::is_ascii(s) {
        return Err(Refusal::Bytes);
    }
    let p = reading::text_value(s, clock)?.ranged()?;
    Ok((Instant { ms: p.ms }, p.subsec))
}

fn answers(stdout: &mut Stdout, at: Instant, subsec: bool) {
    rows::float(stdout, real::julian_real(at.ms));
    rows::say(stdout, b"\t");
    if subsec {
        rows::float(stdout, real::unix_real(at.ms));
    } else {
        seconds(stdout, real::unix_seconds(at.ms));
    }
}

// The sign is a write of its own, as it was.
fn seconds(stdout: &mut Stdout, n: i64) {
    if n < 0 {
        rows::say(stdout, b"-");
    }
    rows::decimal(stdout, n.unsigned_abs());
}
