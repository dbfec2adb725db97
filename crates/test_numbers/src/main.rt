// A list of numbers through crates decimal and real, held against Rust's own parse and format.
//
// A line of standard input is a kind, a tab and a value; a line of standard output is its answer:
//
//     decimal  a text                 its f64 as 16 hex digits; `nan`; `over` past the limits; `not` for no decimal
//     three    an f64, 16 hex digits  the number with three decimals
//     nine     an f64, 16 hex digits  the number with nine decimals
//
// Rows and answers are stored as crates/test_numbers/stdin and stdout. oracle/numbers makes both, and its README.md says how.
#![tactic(auto)]

ghost use Rattle.std.specs.Prelude.{◌<◌};

use std::io::Stdout;

fn main(rt: HostRuntime) {
    let mut stdout = rt.stdout();
    rows::each_line(
        &mut rt.stdin(),
        &mut [0; 512],
        |line| row(&mut stdout, rows::content(line)),
    );
}

fn row(stdout: &mut Stdout, line: &[u8]) {
    if let (kind, Some(value)) = text::cut(line, b'\t') {
        match kind.first() {
            Some(b'd') => decimal_row(stdout, value),
            Some(b't') => three(stdout, rows::float_of(value)),
            Some(b'n') => nine(stdout, rows::float_of(value)),
            _ => rows::say(stdout, b"?"),
        }
    }
    rows::say(stdout, b"\n");
}

fn decimal_row(stdout: &mut Stdout, text: &[u8]) {
    match decimal::decimal(text) {
        Ok(Some(x)) => rows::float(stdout, x),
        Ok(None) => rows::say(stdout, b"not"),
        Err(_) => rows::say(stdout, b"over"),
    }
}

fn three(stdout: &mut Stdout, x: f64) {
    if !real::below(x, 9007199254740992.0) {
        return rows::say(stdout, b"?");
    }
    if x.is_sign_negative() {
        rows::say(stdout, b"-");
    }
    fixed(stdout, real::thousandths(x), 1000);
}

fn nine(stdout: &mut Stdout, x: f64) {
    if 1000000.0 <= x && x < 8388608.0 {
        fixed(stdout, real::billionths(x), 1000000000);
    } else {
        rows::say(stdout, b"?");
    }
}

// n / unit as a decimal, with all the places that unit has zeros.
fn fixed(stdout: &mut Stdout, n: u64, unit: u64)
    requires { 0 < unit }
{
    rows::decimal(stdout, n / unit);
    rows::say(stdout, b".");
    let mut place = unit / 10;
    while place > 0 {
        rows::decimal(stdout, n / place % 10);
        place /= 10;
    }
}
