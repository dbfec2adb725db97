// Any call of the seven functions that a list names, held against what the Rust gives.
//
// A line of standard input is one call, its fields with tabs between:
//
//     clock     digits, a number of 64 bits
//     offset    the same, with a minus allowed before the digits and a sign bit among the 64
//     room      digits: how many bytes of a buffer of 16,384 are lent
//     function  its name
//     format    bytes; for strftime alone
//     value     a time value; for timediff two
//     modifiers bytes, as the buffer of modifiers lies in memory; not for timediff
//
// A time value is `absent`, `null`, `i` and an integer, `r` and the 16 hex digits of an f64's bits, or `b` and bytes. After the first four
// `;` and bytes may follow: the slice that stands beside the value, which must not be looked at. Bytes are written as they are, but for
// those below 32, above 126 and the backslash, which are a backslash and two hex digits.
//
// A line of standard output is the answer: `text N`, a tab and the text, written as bytes are; `integer N`; `real` and 16 hex digits;
// `refused N`; or `no room N`. Then a tab and `kept` if every other byte of the whole buffer, beyond the room too, is what it was, else
// `touched`. A line of another form is answered `bad line`.
//
// Calls and answers are stored as crates/test_limits/stdin and stdout. `oracle limits` in oracle/ makes both: the answers are the Rust's.
#![tactic(auto)]

use rules::{Answer, Unanswered};
use std::io::Stdout;

mod fields;
mod output;

use fields::{Call, Which};

fn main(rt: HostRuntime) {
    let mut stdout = rt.stdout();
    let mut bytes = [0u8; 32768];
    let mut buffer = [0u8; 16384];
    output::fill(&mut buffer);
    rows::each_line(&mut rt.stdin(), &mut [0; 32768], |line| {
        if row(&mut stdout, line, &mut bytes, &mut buffer).is_none() {
            rows::say(&mut stdout, b"bad line\n");
        }
    });
}

// A line and its answer. None, with nothing written, if it names no call: one with no newline may have lost bytes.
fn row(stdout: &mut Stdout, line: &[u8], bytes: &mut [u8], buffer: &mut [u8]) -> Option<()> {
    let call = fields::parse(line.strip_suffix(b"\n")?, bytes)?;
    let answer = called(&call, buffer.get_mut(..call.room)?);
    output::report(stdout, answer, buffer);
    Some(())
}

// A match, as a table of functions would hold function pointers.
fn called(c: &Call, out: &mut [u8]) -> Result<Answer, Unanswered> {
    match c.which {
        Which::Date => datetime::date(c.set, c.first, c.value, c.last, out),
        Which::Time => datetime::time(c.set, c.first, c.value, c.last, out),
        Which::Datetime => datetime::datetime(c.set, c.first, c.value, c.last, out),
        Which::Julianday => datetime::julianday(c.set, c.first, c.value, c.last),
        Which::Unixepoch => datetime::unixepoch(c.set, c.first, c.value, c.last),
        Which::Strftime => datetime::strftime(c.set, c.format, c.first, c.value, c.last, out),
        Which::Timediff => datetime::timediff(c.set, c.first, c.value, c.second, c.last, out),
    }
}
