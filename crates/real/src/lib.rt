// Numbers as f64: every product, sum, cut and test on an f64 that document 01 names, exact to the last bit, and total unless a
// function says what it asks.
//
// A contract is an equation with a definition of crate rules, so it says which operations are made and in what order. How far
// those lead stands as laws in proofs/: Seconds, Epoch, Units.
// Milliseconds are held as crate rules says: a u64 that is 2^63 above the count from noon of -4713-11-24.
#![tactic(auto, using(crate::proofs::Literals::literals))]

ghost use Rattle.std.specs.Prelude.{◌≡◌, ◌^◌, ◌<◌, ◌≤◌, true, length, [], ◌∷◌, IfSome, IfNone};
ghost use Rattle.std.specs.Float.{binary64};
ghost use Rattle.std.specs.Float.Ieee.{of_int, minus};
ghost use Rattle.std.specs.Float.Ieee.Nearest.{closest};
ghost use Rattle.rules.specs.Floats as floats;
ghost use Rattle.rules.specs.Floats.{number, decimals};
ghost use Rattle.rules.specs.Calendar.{instant, last};
ghost use Rattle.rules.specs.Moments.{seconds_ms};
ghost use Rattle.rules.specs.Reading.{is_julian, julian_ms, fraction_of};
ghost use Rattle.rules.specs.Modifiers as modifiers;
ghost use Rattle.rules.specs.Modifiers.{from_epoch, nearest_ms, is_auto, is_unix, unit_ms, fraction_ms};
ghost use Rattle.rules.specs.Writing.{unix_seconds, unix_real, julian_real};
ghost use Rattle.rules.specs.Decimal.{run};
ghost use Rattle.real.specs.PartsOf.{PartsOf};

use std::num::{
    nearest_i64_to_f64, nearest_u64_to_f64, saturating_f64_to_i64, saturating_f64_to_u64,
};

// ---- cuts, and whole numbers as f64

// x toward zero, brought to the nearest end of the range, and 0 for a NaN: Rust's `x as i64`.
pub fn cut(x: f64) -> i64
    ensures { result ≡ floats.cut x }
{
    saturating_f64_to_i64(x)
}

// The same without a sign: 0 for what is negative, Rust's `x as u64`.
pub fn whole(x: f64) -> u64
    ensures { result ≡ floats.whole x }
{
    saturating_f64_to_u64(x)
}

// An integer to the nearest f64, ties to even.
pub fn of_integer(n: i64) -> f64
    ensures { result ≡ of_int binary64 n }
{
    nearest_i64_to_f64(n)
}

// ---- seconds and days as milliseconds

// "Seconds become milliseconds by times 1000, plus 0.5, cut."
pub fn seconds_ms(s: f64) -> u64
    ensures { result ≡ seconds_ms s }
{
    whole(s * 1000.0 + 0.5)
}

// "A number n with 0 <= n < 5373484.5 is also a Julian day."
pub fn is_julian(n: f64) -> bool
    ensures { result ≡ is_julian n }
{
    n >= 0.0 && n < 5373484.5
}

// "n times 86400000, plus 0.5, cut": milliseconds from noon of -4713-11-24.
pub fn julian_ms(n: f64) -> u64
    ensures { result ≡ julian_ms n }
{
    whole(n * 86400000.0 + 0.5)
}

// ---- seconds from 1970

// "r = 1000 s + 210866760000000": milliseconds from noon of -4713-11-24, not yet whole.
pub fn from_epoch(s: f64) -> f64
    ensures { result ≡ from_epoch s }
{
    s * 1000.0 + 210866760000000.0
}

// "0 <= r < 464269060800000, so NaN is refused."
pub fn is_unix(r: f64) -> bool
    ensures { result ≡ is_unix r }
{
    r >= 0.0 && r < 464269060800000.0
}

// "`auto` takes -210866760000 to 253402300799."
pub fn is_auto(s: f64) -> bool
    ensures { result ≡ is_auto s }
{
    s >= -210866760000.0 && s <= 253402300799.0
}

// r as whole milliseconds: plus 0.5, cut.
pub fn nearest_ms(r: f64) -> u64
    ensures { result ≡ nearest_ms r }
{
    whole(r + 0.5)
}

// ---- `N unit`

// "magnitude strictly below": no NaN is.
pub fn below(n: f64, limit: f64) -> bool
    ensures { result ≡ floats.below n limit }
{
    n > -limit && n < limit
}

// "plus 0.5 (minus, if negative) in f64, is cut"
pub fn rounded(x: f64) -> i64
    ensures { result ≡ modifiers.rounded x }
{
    if x < 0.0 { cut(x - 0.5) } else { cut(x + 0.5) }
}

// n units of so many milliseconds: "the product in f64", rounded.
pub fn unit_ms(unit: f64, n: f64) -> i64
    ensures { result ≡ unit_ms unit n }
{
    rounded(n * unit)
}

// What the fraction of n months or years comes to, where a whole one counts as so many days.
pub fn fraction_ms(days: f64, n: f64) -> i64
    ensures { result ≡ fraction_ms days n }
{
    rounded((n - of_integer(cut(n))) * days * 86400000.0)
}

// ---- held milliseconds as seconds and days

// "The Unix epoch is 210866760000000", as it is held.
const UNIX_EPOCH: u64 = 9223582903614775808;

// Noon of -4713-11-24, as it is held.
const START: u64 = 9223372036854775808;

// Held milliseconds with their sign. Below 0 the difference is taken to -1, since its size need not fit.
fn signed(ms: u64) -> i64
    ensures { result ≡ minus ms 9223372036854775808 }
{
    if ms >= START {
        (ms - START) as i64
    } else {
        -1 - (START - 1 - ms) as i64
    }
}

// Whole seconds from 1970, "rounded by floor, so -500 ms is second -1". The epoch is a whole second, so it may be taken off after the
// division, where it always fits.
pub fn unix_seconds(ms: u64) -> i64
    ensures { result ≡ unix_seconds ms }
{
    signed(ms).div_euclid(1000) - 210866760000
}

// Seconds from 1970 with their fraction. There are two branches, since the difference fits no i64.
#[tactic(auto, using(crate::proofs::Literals::literals, crate::proofs::Sign::negated), unfolding(rules::specs::Writing::unix_real))]
pub fn unix_real(ms: u64) -> f64
    ensures { result ≡ unix_real ms }
{
    if ms >= UNIX_EPOCH {
        nearest_u64_to_f64(ms - UNIX_EPOCH) / 1000.0
    } else {
        -nearest_u64_to_f64(UNIX_EPOCH - ms) / 1000.0
    }
}

// Days from noon of -4713-11-24, for milliseconds from 0 to the last. The two bounds are clauses here and in crate digits, which stand below
// the calendar and its type for such a time, `Instant`; and %J begins later than at 0.
#[tactic(auto, using(crate::proofs::Literals::literals), unfolding(rules::specs::Writing::julian_real))]
pub fn julian_real(ms: u64) -> f64
    requires not_before { instant 0 ≤ ms }
    requires not_after { ms ≤ last }
    ensures { result ≡ julian_real ms }
{
    (ms - START) as f64 / 86400000.0
}

// ---- the fraction of a second

// The digit at the front, from 0 to 9, and what follows it.
#[tactic(auto, unfolding(rules::specs::Decimal::run))]
pub fn digit(s: &[u8]) -> Option<(u8, &[u8])>
    ensures digit { IfSome result (λ r. run s.now ≡ (r.0 ∷ (run r.1.now).0, (run r.1.now).1)) }
    ensures small { IfSome result (λ r. r.0 ≤ 9) }
    ensures shorter { IfSome result (λ r. length r.1.now < length s.now) }
    ensures other { IfNone result (run s.now ≡ ([], s.now)) }
{
    match s {
        [b @ b'0'..=b'9', after @ ..] => Some((*b - b'0', after)),
        _ => None,
    }
}

// The digits at the front as a fraction, and what follows them: "each digit is one multiplication by ten and one addition, in f64; the
// scale is multiplied by ten likewise; one division; above 0.999 becomes 0.999". Where there is no digit the value is 0.
#[tactic(auto, using(crate::proofs::Literals::literals), unfolding(rules::specs::Reading::digit_sum, rules::specs::Reading::scale, rules::specs::Reading::fraction_of))]
pub fn fraction(s: &[u8]) -> (f64, &[u8])
    ensures value { result.0 ≡ fraction_of (run s.now).0 }
    ensures rest { result.1.now ≡ (run s.now).1 }
{
    let mut sum = 0.0;
    let mut scale = 1.0;
    let mut rest = s;
    while let Some((d, after)) = digit(rest) {
        sum = sum * 10.0 + f64::from(d);
        scale *= 10.0;
        rest = after;
    }
    let value = sum / scale;
    (if value > 0.999 { 0.999 } else { value }, rest)
}

// ---- fixed point: ties to even, on the exact value

// n / p to the nearest whole number, ties to even.
fn nearest(n: u64, p: u64) -> u64
    requires n_in { n < 2 ^ 63 }
    requires p_above { 0 < p }
    requires p_in { p ≤ 2 ^ 63 }
    ensures { result ≡ closest n p }
{
    let q = n / p;
    let r = n % p * 2;
    if r < p {
        q
    } else if r > p {
        q + 1
    } else {
        q + q % 2
    }
}

// In an f64's bit pattern, the weights of the sign, 2^63, and of the exponent's field, 2^52. The digits are below.
const SIGN: u64 = 9223372036854775808;

const FIELD: u64 = 4503599627370496;

// A magnitude, digits / 2^shift.
#[derive(Clone, Copy)]
struct Parts {
    digits: u64,
    shift: u64,
}

// The magnitude of x, for one below 2^53. A leading digit stands above the others, unless the field is 0.
fn parts_of(x: f64) -> Parts
    requires { floats.below x (number 9007199254740992) ≡ true }
    ensures { PartsOf x result.digits result.shift }
{
    let bits = x.to_bits() % SIGN;
    let exponent = bits / FIELD;
    let digits = bits % FIELD;
    if exponent > 0 {
        Parts {
            digits: FIELD + digits,
            shift: 1075 - exponent,
        }
    } else {
        Parts {
            digits,
            shift: 1074,
        }
    }
}

// |x| in thousandths, for a magnitude below 2^53. A shift of 64 or more leaves less than 2^-11, and that is less than half of one.
pub fn thousandths(x: f64) -> u64
    requires { floats.below x (number 9007199254740992) ≡ true }
    ensures { result ≡ decimals 3 x }
{
    let p = parts_of(x);
    if p.shift < 64 {
        nearest(p.digits * 1000, 1 << p.shift)
    } else {
        0
    }
}

// x in units of 10^-9, for an x from a million up to 2^23: its last binary place is 2^-33 or more, so the fraction's product fits.
pub fn billionths(x: f64) -> u64
    requires { floats.within (number 1000000) x (number 8388608) ≡ true }
    ensures { result ≡ decimals 9 x }
{
    let p = parts_of(x);
    let one = 1 << p.shift;
    p.digits / one * 1000000000 + nearest(p.digits % one * 1000000000, one)
}
