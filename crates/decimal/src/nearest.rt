// D times a power of ten to the nearest f64, ties to even, for D from 1 to 2^64 - 1 and powers from -22 to 22.
//
// A whole number below 2^53 is an f64 exactly, and so is a power of ten up to 10^22, since 5^22 is below 2^53. So where D is below 2^53, one
// division or one product in f64 is the exact value rounded once.
// Otherwise the 64 highest bits of the exact value are worked out over whole numbers, with whether anything is left below them (`sticky`),
// and rounded to the 53 that an f64 keeps. The twos of 10^k = 5^k * 2^k only move the exponent.
//
// `0 < d` and `k ≤ 22` are clauses and no types: d and k are two numbers of one computation, and nothing outside this crate sees them.
ghost use Rattle.std.specs.Prelude.{◌≡◌, ◌+◌, ◌*◌, ◌^◌, ◌≤◌, ◌<◌, false};
ghost use Rattle.std.specs.Float.Ieee.{of_bits, round};
ghost use Rattle.std.specs.Float.{binary64};
ghost use Rattle.std.specs.Float.Ieee.Exact.{HasValue};
ghost use Rattle.real.proofs.Pack.{near11};
ghost use Rattle.real.proofs.Pack.{up11 as Pack·up11};
ghost use Rattle.decimal.specs.Steps.{Room, Led, Divided, Narrowed};

const EXACT: u64 = 9007199254740992; // 2^53

const HIGHEST: u64 = 9223372036854775808; // 2^63: the highest bit of a word

const FIELD: u64 = 4503599627370496; // 2^52: the weight of the exponent's field in an f64's bit pattern

// 10^0 to 10^22, each exactly.
const TENS: [f64; 23] = [
    1e0, 1e1, 1e2, 1e3, 1e4, 1e5, 1e6, 1e7, 1e8, 1e9, 1e10, 1e11, 1e12, 1e13, 1e14, 1e15, 1e16,
    1e17, 1e18, 1e19, 1e20, 1e21, 1e22,
];

// d / 10^k.
pub fn below(d: u64, k: u32) -> f64
    requires { (0 < d) × (k ≤ 22) }
    ensures { result ≡ round binary64 false d (10 ^ k) }
{
    if d < EXACT {
        d as f64 / ten_to(k)
    } else {
        divided(d, k)
    }
}

// d * 10^k.
pub fn above(d: u64, k: u32) -> f64
    requires { (0 < d) × (k ≤ 22) }
    ensures { result ≡ round binary64 false (d * 10 ^ k) 1 }
{
    if d < EXACT {
        d as f64 * ten_to(k)
    } else {
        multiplied(d, k)
    }
}

// 10^k, exactly.
fn ten_to(k: u32) -> f64
    requires { k ≤ 22 }
    ensures { HasValue result false (10 ^ k) 1 }
{
    TENS[k as usize]
}

// The 64 highest bits of a number, by how many places they were moved, and whether anything is left below them.
#[derive(Clone, Copy)]
struct Top {
    m: u64,
    t: u32,
    sticky: bool,
}

// d / 10^k, for any d. The value is q.m * 2^-(q.t + s + k) and a rest.
fn divided(d: u64, k: u32) -> f64
    requires { (0 < d) × (k ≤ 22) }
    ensures { result ≡ round binary64 false d (10 ^ k) }
{
    let (n, s) = lead(d);
    let q = quotient(n, 5u64.pow(k));
    pack(q.m, q.sticky, 1085 - (q.t + s + k))
}

// d * 10^k, for any d. The value is q.m * 2^(q.t + k - s) and a rest.
fn multiplied(d: u64, k: u32) -> f64
    requires { (0 < d) × (k ≤ 22) }
    ensures { result ≡ round binary64 false (d * 10 ^ k) 1 }
{
    let (n, s) = lead(d);
    let q = narrow(u128::from(n) * u128::from(5u64.pow(k)));
    pack(q.m, q.sticky, 1085 + q.t + k - s)
}

// m * 2^(e - 1085) to its 53 highest bits: the last of them counts 2^(e - 1074), as in a pattern whose exponent's field is e + 1.
// The highest bit adds one to the field, and so does a carry out of the 53.
fn pack(m: u64, sticky: bool, e: u32) -> f64
    requires { (2 ^ 63 ≤ m) × (e ≤ 2000) }
    ensures { result ≡ of_bits binary64 (e * 2 ^ 52 + near11 m sticky) }
{
    let up = up11(m, sticky);
    f64::from_bits(u64::from(e) * FIELD + (m / 2048 + up))
}

// What rounding adds to m / 2048, "ties to even": a tie is half of 2048 with nothing below it.
fn up11(m: u64, sticky: bool) -> u64
    ensures { result ≡ Pack·up11 m sticky }
{
    let rest = m % 2048;
    if rest > 1024 {
        1
    } else if rest < 1024 {
        0
    } else if sticky {
        1
    } else {
        m / 2048 % 2
    }
}

// d moved up until its highest bit is the 63rd, and by how many places that is.
fn lead(d: u64) -> (u64, u32)
    requires { 0 < d }
    ensures { Led d result.0 result.1 }
{
    let s = zeros(d);
    (d << s, s)
}

// By how many places n can be moved up.
fn zeros(n: u64) -> u32
    requires { 0 < n }
    ensures { Room n result }
{
    n.leading_zeros()
}

// n / by to 64 bits: long division, up to 12 bits at a time, so that r, which is below 2^52, can be moved up as far.
fn quotient(n: u64, by: u64) -> Top
    requires { (2 ^ 63 ≤ n) × (0 < by) × (by ≤ 2 ^ 52) }
    ensures { Divided n by result.m result.t result.sticky }
{
    let mut m = n / by;
    let mut r = n % by;
    let mut t = 0;
    while m < HIGHEST {
        let j = zeros(m).min(12);
        let up = r << j;
        m = (m << j) + up / by;
        r = up % by;
        t += j;
    }
    Top {
        m,
        t,
        sticky: r > 0,
    }
}

// A number of 64 bits or more to the 64 highest.
fn narrow(n: u128) -> Top
    requires { 2 ^ 63 ≤ n }
    ensures { Narrowed n result.m result.t result.sticky }
{
    let t = n.ilog2() - 63;
    let m = n >> t;
    Top {
        m: m as u64,
        t,
        sticky: m << t != n,
    }
}
