// A list of pairs of instants, A and B, through demand 3: timediff's text, put back as B's only modifier, reaches A.
//
// The first line of standard input is the clock, a tab and the offset; each line after it is A, a tab and B. A line of standard output has
// timediff's text; to the millisecond, what B with that text for its only modifier gives; and what A alone gives; with tabs between. A pair
// that timediff refuses has `refused`.
//
// Pairs and answers are stored as crates/test_pairs/stdin and stdout. `oracle pairs list` in oracle/ makes the pairs, and the answers are the
// Rust's. Each A and B is an existing day of years 0 to 9999, written in full and with no zone, as demand 3 has it: so the last two columns
// are equal on every line.
#![tactic(auto)]

use rules::{Answer, Given, Setting, Unanswered};
use std::io::Stdout;

fn main(rt: HostRuntime) {
    let mut stdout = rt.stdout();
    let mut set = None;
    rows::each_line(&mut rt.stdin(), &mut [0; 8192], |line| {
        rows::end_fields(line);
        match set {
            None => set = Some(setting(line)),
            Some(set) => row(&mut stdout, line, set),
        }
    });
}

fn setting(line: &[u8]) -> Setting {
    Setting {
        clock: rows::clock(line).ms,
        offset: rows::offset(line).seconds,
    }
}

// A and B, each ended by a zero byte.
fn row(stdout: &mut Stdout, line: &[u8], set: Setting) {
    if let (a, Some(rest)) = text::cut(line, 0) {
        if let (b, Some(_)) = text::cut(rest, 0) {
            return pair(stdout, set, a, b);
        }
    }
    rows::say(stdout, b"refused\n");
}

// The span has room for timediff's text and its zero byte; the answers to the millisecond have 23 bytes.
fn pair(stdout: &mut Stdout, set: Setting, a: &[u8], b: &[u8]) {
    let format = b"%Y-%m-%d %H:%M:%f";
    let mut span = [0u8; 32];
    let mut out = [0u8; 32];
    let back = reaches::put_back_as(set, format, a, b, &mut span, &mut out);
    rows::say(stdout, text::cut(&span, 0).0);
    rows::say(stdout, b"\t");
    column(stdout, &out, back);
    rows::say(stdout, b"\t");
    let alone = datetime::strftime(set, format, Given::Bytes, a, b"", &mut out);
    column(stdout, &out, alone);
    rows::say(stdout, b"\n");
}

// An answer: a text stands at the front of the buffer.
fn column(stdout: &mut Stdout, out: &[u8], answer: Result<Answer, Unanswered>) {
    match answer {
        Ok(Answer::Text(n)) => rows::say(stdout, out.get(..n).unwrap_or(b"")),
        _ => rows::say(stdout, b"refused"),
    }
}
