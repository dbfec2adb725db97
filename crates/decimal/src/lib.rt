// A text to the number that it writes: the grammar of Rust's f64 reading, the limits of document 01, the nearest f64.
//
// `decimal` and `sign` are all that other crates use. Of `-12.50e1` the sign is a minus, the digits are D = 1250, two of them stand after the
// point and the exponent is 1: the last digit's power of ten is 1 - 2 = -1, and the number is the f64 nearest to -1250 / 10.
//
//     1.5   -0   .5   5.   1e22   0e99999   inf   -Infinity   NaN      are numbers
//     .   e5   1e   1e+   +-1   1_000   0x10   infi                    are none
//     1e23   1e-23   12345678901234567890   1.0000000000000000000      are over the limits: power 23, power -23, 20 digits
//
// A reader takes a slice and hands back what it read and the rest of the slice.
// The number that digits write is held up to 2^64 - 1, and as that from there on: as D it has more than 19 digits, and as an exponent no
// digits after the point, of which a slice has fewer than 2^63, bring it back to 22.
#![tactic(auto)]

ghost use Rattle.std.specs.Prelude.{if◌then◌else◌, ◌≡◌, ◌+◌, ◌*◌};
ghost use Rattle.std.specs.Float.Ieee.{neg};
ghost use Rattle.rules.specs.Basics.{read_some, read_ok, read_tried};
ghost use Rattle.rules.specs.Decimal as rule;
ghost use Rattle.decimal.specs.Held.{held, held_exponent, scaled, Taken};

use rules::Refusal;

mod nearest;

// The limits of document 01: 10^19 is the first D of more than 19 digits, and 22 the highest power of the last digit, or the lowest below zero.
const OVER: u64 = 10000000000000000000;

const POWER: u64 = 22;

// "Decimals follow the grammar of Rust's f64 reading: optional sign; digits with an optional point, at least one digit; optional exponent;
// or inf, infinity, nan."
// None where the text is no decimal, and refusal 5 where it is over the limits.
#[tactic(auto, unfolding(rules::specs::Decimal::decimal))]
pub fn decimal(s: &[u8]) -> Result<Option<f64>, Refusal>
    ensures { read_tried (λ x. x) result ≡ rule.decimal s.now }
{
    let (minus, rest) = sign(s);
    match named(rest, minus) {
        Some(x) => Ok(Some(x)),
        None => digits_form(rest, minus),
    }
}

// "optional sign": whether it is a minus, and what follows.
#[tactic(auto, unfolding(rules::specs::Decimal::sign))]
pub fn sign(s: &[u8]) -> (bool, &[u8])
    ensures { (result.0, result.1.now) ≡ rule.sign s.now }
{
    match s {
        [b'-', rest @ ..] => (true, rest),
        [b'+', rest @ ..] => (false, rest),
        _ => (false, s),
    }
}

fn with_sign(minus: bool, x: f64) -> f64
    ensures { result ≡ (if minus then neg x else x) }
{
    if minus { -x } else { x }
}

// "inf, infinity, nan", in either case.
#[tactic(auto, using(crate::proofs::Names::infinite, crate::proofs::Names::no_number), unfolding(rules::specs::Decimal::named_form))]
fn named(s: &[u8], minus: bool) -> Option<f64>
    ensures { read_some (λ x. x) result ≡ rule.named_form minus s.now }
{
    if text::is_word(s, b"inf") || text::is_word(s, b"infinity") {
        Some(with_sign(minus, f64::INFINITY))
    } else if text::is_word(s, b"nan") {
        Some(f64::NAN)
    } else {
        None
    }
}

// "digits with an optional point, at least one digit; optional exponent"
fn digits_form(s: &[u8], minus: bool) -> Result<Option<f64>, Refusal>
    ensures { read_tried (λ x. x) result ≡ rule.digits_form minus s.now }
{
    let ones = run(s, 0);
    let all = point(ones.rest, ones.value);
    if ones.count == 0 && all.count == 0 {
        return Ok(None);
    }
    match exponent(all.rest) {
        Some(e) => Ok(Some(scaled(minus, all.value, all.count as u64, e)?)),
        None => Ok(None),
    }
}

// Digits of which so many stand after the point, with an exponent.
#[tactic(auto, using(crate::proofs::Limits::held_down))]
fn scaled(minus: bool, d: u64, tenths: u64, exponent: (bool, u64)) -> Result<f64, Refusal>
    ensures { read_ok (λ x. x) result ≡ scaled minus d tenths exponent }
{
    match exponent {
        (false, e) => nearest_to(minus, d, e, tenths),
        (true, e) => nearest_to(minus, d, 0, tenths.saturating_add(e)),
    }
}

// Digits: the number that they write, after those before them; how many they are; what follows them.
#[derive(Clone, Copy)]
struct Digits<'a> {
    value: u64,
    count: usize,
    rest: &'a [u8],
}

// A held number with one digit more. Below 10^18 it fits, which is sooner seen than that a product does.
fn more(value: u64, d: u8) -> u64
    ensures { result ≡ held (value * 10 + d) }
{
    if value < 1000000000000000000 {
        value * 10 + u64::from(d)
    } else {
        value.saturating_mul(10).saturating_add(u64::from(d))
    }
}

// The digits at the front, after digits whose number is `from`.
fn run(s: &[u8], from: u64) -> Digits<'_>
    ensures { Taken (rule.run s.now) from result }
{
    let mut value = from;
    let mut rest = s;
    while let Some((d, after)) = real::digit(rest) {
        value = more(value, d);
        rest = after;
    }
    Digits {
        value,
        count: s.len() - rest.len(),
        rest,
    }
}

// The digits after a point, where there is one.
#[tactic(auto, unfolding(rules::specs::Decimal::point, rules::specs::Decimal::value))]
fn point(s: &[u8], from: u64) -> Digits<'_>
    ensures { Taken (rule.point s.now) from result }
{
    match s {
        [b'.', rest @ ..] => run(rest, from),
        _ => Digits {
            value: from,
            count: 0,
            rest: s,
        },
    }
}

// "optional exponent", and nothing after it: whether it is negative, and its magnitude, which goes up to 2^64 - 1 and so fits no i64.
#[tactic(auto, unfolding(rules::specs::Decimal::exponent))]
fn exponent(s: &[u8]) -> Option<(bool, u64)>
    ensures { read_some (λ x. x) result ≡ held_exponent (rule.exponent s.now) }
{
    let (minus, digits) = match s {
        [] => return Some((false, 0)),
        [b'e' | b'E', rest @ ..] => sign(rest),
        _ => return None,
    };
    let d = run(digits, 0);
    (d.count != 0 && d.rest.is_empty()).then_some((minus, d.value))
}

// "Limits: D, the digits written without leading zeros, has at most 19; the last digit's power of ten is -22 to 22. D = 0 always fits."
// The power is up - down.
fn nearest_to(minus: bool, d: u64, up: u64, down: u64) -> Result<f64, Refusal>
    ensures { read_ok (λ x. x) result ≡ rule.nearest_to minus d up down }
{
    if d == 0 {
        return Ok(with_sign(minus, 0.0));
    }
    if d >= OVER || up.abs_diff(down) > POWER {
        return Err(Refusal::Decimal);
    }
    let x = if down <= up {
        nearest::above(d, (up - down) as u32)
    } else {
        nearest::below(d, (down - up) as u32)
    };
    Ok(with_sign(minus, x))
}
