// What is written, and the pattern by which every byte of the buffer is known again.
ghost use Rattle.std.specs.Prelude.{◌≤◌, length};

use rules::{Answer, Refusal, Unanswered};
use std::io::Stdout;

// ---- the pattern

// What the byte at a place of the buffer is before a call: the remainder by 251, a prime, so that no writer's step is a multiple of it.
fn pattern(i: usize) -> u8 {
    (i % 251) as u8
}

// Lays the pattern from its first byte on.
pub fn fill(buffer: &mut [u8]) {
    for (i, b) in buffer.iter_mut().enumerate() {
        *b = pattern(i);
    }
}

// Whether every byte from a place on is the pattern's, which goes by the place in the whole buffer: a rest would need that beside it.
fn is_kept(buffer: &[u8], from: usize) -> bool {
    for i in from..buffer.len() {
        if buffer[i] != pattern(i) {
            return false;
        }
    }
    true
}

// Says whether every byte from a place on was kept, and lays the pattern again where it was not.
fn settle(stdout: &mut Stdout, buffer: &mut [u8], from: usize)
    requires { from ≤ length buffer.old }
{
    if is_kept(buffer, from) {
        fill(&mut buffer[..from]);
        rows::say(stdout, b"\tkept\n");
    } else {
        fill(buffer);
        rows::say(stdout, b"\ttouched\n");
    }
}

// ---- the answer

// The answer, and whether all other bytes of the buffer were kept; they then hold the pattern again.
pub fn report(stdout: &mut Stdout, answer: Result<Answer, Unanswered>, buffer: &mut [u8]) {
    match answer {
        Ok(Answer::Text(n)) => return text(stdout, buffer, n),
        Ok(Answer::Integer(n)) => integer(stdout, n),
        Ok(Answer::Real(x)) => {
            rows::say(stdout, b"real ");
            rows::float(stdout, x);
        }
        Err(Unanswered::Refused(refusal)) => rows::say(stdout, refused(refusal)),
        Err(Unanswered::NoRoom(n)) => counted(stdout, b"no room ", n),
    }
    settle(stdout, buffer, 0);
}

// A word, and a number of bytes.
fn counted(stdout: &mut Stdout, word: &[u8], n: usize) {
    rows::say(stdout, word);
    rows::decimal(stdout, n as u64);
}

// A number with its sign, written by the port's own writer: at most 20 bytes.
fn integer(stdout: &mut Stdout, n: i64) {
    rows::say(stdout, b"integer ");
    let mut written = [0u8; 20];
    if digits::integer_length(n) <= written.len() {
        let end = digits::put_integer(&mut written, 0, n);
        rows::say(stdout, &written[..end]);
    }
}

// The number in the table of document 01. A refusal's words are one text, so that each is one write.
fn refused(refusal: Refusal) -> &'static [u8] {
    match refusal {
        Refusal::Null => b"refused 1",
        Refusal::Shape => b"refused 2",
        Refusal::Bytes => b"refused 3",
        Refusal::Setting => b"refused 4",
        Refusal::Decimal => b"refused 5",
        Refusal::Early => b"refused 6",
    }
}

// No text is longer than the buffer.
fn text(stdout: &mut Stdout, buffer: &mut [u8], n: usize) {
    counted(stdout, b"text ", n);
    rows::say(stdout, b"\t");
    if n <= buffer.len() {
        escaped(stdout, &buffer[..n]);
        settle(stdout, buffer, n);
    } else {
        rows::say(stdout, b"\tlonger than the buffer\n");
    }
}

// Bytes below 32, above 126 and the backslash are a backslash and two hex digits.
fn is_plain(b: u8) -> bool {
    b != b'\\' && 32 <= b && b <= 126
}

fn escaped(stdout: &mut Stdout, s: &[u8]) {
    let mut rest = s;
    while let Some(n) = rest.iter().position(|b| !is_plain(*b)) {
        rows::say(stdout, &rest[..n]);
        rows::say(stdout, b"\\");
        let _ = streams::print_hex(stdout, u64::from(rest[n]), 2);
        rest = &rest[n + 1..];
    }
    rows::say(stdout, rest);
}
