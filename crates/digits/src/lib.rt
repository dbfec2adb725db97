// The writers of numbers: each lays its digits into the lent buffer, in place.
//
// One contract for every writer of the project. `put_x(buf, at, ..)` asks that the buffer has room for its text from `at` on, no more; it
// lays the text there, leaves every other byte as it was, and returns the place after the text. The texts are those of rules. How long
// a text will be is told by a `.._length` beside its writer, where the length isn't plain.
//
// The buffer and the place are two arguments, and a writer returns the next place: a struct that held both would need, in each contract,
// one more clause, that it still holds the same reference; the rest of the buffer, a `&mut [u8]` in and one out, one more on what its
// lender then holds.
//
// Years are held as rules holds them: 2024 as 42024.
#![tactic(auto)]

ghost use Rattle.std.specs.Prelude.{◌≡◌, [], ◌∷◌, ◌+◌, ◌≤◌, ◌<◌, ◌^◌, true, not, T, length};
ghost use Rattle.std.specs.Float.{binary64};
ghost use Rattle.std.specs.Float.Ieee.{is_nan, to_bits};
ghost use Rattle.rules.specs.Calendar.{instant, last};
ghost use Rattle.rules.specs.Floats.{decimals};
ghost use Rattle.rules.specs.Program.{hex};
ghost use Rattle.rules.specs.Writing as text;
ghost use Rattle.real.specs.InMinute.{in_minute};
ghost use Rattle.digits.specs.Writers.{Room, Laid, Trimmed, hex_digit, unix_decimals};

// One byte.
pub fn put_byte(buf: &mut [u8], at: usize, b: u8) -> usize
    requires { Room buf.old at (b ∷ []) }
    ensures { Laid buf.old at (b ∷ []) buf.new result }
{
    buf[at] = b;
    at + 1
}

// Some bytes.
pub fn put_bytes(buf: &mut [u8], at: usize, s: &[u8]) -> usize
    requires { Room buf.old at s.now }
    ensures { Laid buf.old at s.now buf.new result }
{
    let after = at + s.len();
    buf[at..after].copy_from_slice(s);
    after
}

// A number in N digits, with zeros before it where it has fewer.
pub fn put_digits<const N: usize>(buf: &mut [u8], at: usize, v: u32) -> usize
    requires some_digits { 0 < N }
    requires few_digits { v < 10 ^ N }
    requires room { Room buf.old at (text.wide N v) }
    ensures { Laid buf.old at (text.wide N v) buf.new result }
{
    put_places(buf, at, N, v as u64)
}

// A byte and two digits, as `-05` or `:07`.
pub fn put_next(buf: &mut [u8], at: usize, b: u8, v: u32) -> usize
    requires few_digits { v < 100 }
    requires room { Room buf.old at (b ∷ text.wide 2 v) }
    ensures { Laid buf.old at (b ∷ text.wide 2 v) buf.new result }
{
    let digits = put_byte(buf, at, b);
    put_digits::<2>(buf, digits, v)
}

// A number in n decimal places: the last is laid first, and the first is what is left then.
fn put_places(buf: &mut [u8], at: usize, n: usize, v: u64) -> usize
    requires some_places { 0 < n }
    requires few_places { v < 10 ^ n }
    requires room { Room buf.old at (text.places n v) }
    ensures { Laid buf.old at (text.places n v) buf.new result }
{
    let mut rest = v;
    for i in (1..n).rev() {
        buf[at + i] = b'0' + (rest % 10) as u8;
        rest /= 10;
    }
    buf[at] = b'0' + rest as u8;
    at + n
}

// How many digits a number has: 0 has one.
fn width(v: u64) -> usize
    ensures { (result ≡ text.width 19 v) × (result ≤ 20) }
{
    v.max(1).ilog10() as usize + 1
}

// How many bytes `put_number` takes.
pub fn number_length(least: usize, v: u64) -> usize
    ensures { (result ≡ length (text.wide least v)) × (result ≤ least + 20) }
{
    width(v).max(least)
}

// A number in `least` digits, or in as many as it has.
pub fn put_number(buf: &mut [u8], at: usize, least: usize, v: u64) -> usize
    requires { Room buf.old at (text.wide least v) }
    ensures { Laid buf.old at (text.wide least v) buf.new result }
{
    put_places(buf, at, number_length(least, v), v)
}

// A minus, and a number in `least` digits or in as many as it has.
fn put_minus(buf: &mut [u8], at: usize, least: usize, v: u64) -> usize
    requires { Room buf.old at (45 ∷ text.wide least v) }
    ensures { Laid buf.old at (45 ∷ text.wide least v) buf.new result }
{
    let digits = put_byte(buf, at, b'-');
    put_number(buf, digits, least, v)
}

// A number with its sign, which is a minus or nothing.
pub fn put_integer(buf: &mut [u8], at: usize, n: i64) -> usize
    requires { Room buf.old at (text.integer_text n) }
    ensures { Laid buf.old at (text.integer_text n) buf.new result }
{
    if n < 0 {
        return put_minus(buf, at, 1, n.unsigned_abs());
    }
    put_number(buf, at, 1, n.unsigned_abs())
}

// How many bytes `put_integer` takes.
pub fn integer_length(n: i64) -> usize
    ensures { result ≡ length (text.integer_text n) }
{
    if n < 0 {
        return 1 + number_length(1, n.unsigned_abs());
    }
    number_length(1, n.unsigned_abs())
}

// An f64 as the 16 hexadecimal digits of its bits, "highest first".
pub fn put_hex(buf: &mut [u8], at: usize, x: f64) -> usize
    requires not_nan { T (not (is_nan x)) }
    requires room { Room buf.old at (hex 16 (to_bits binary64 x)) }
    ensures { Laid buf.old at (hex 16 (to_bits binary64 x)) buf.new result }
{
    put_hex_digits(buf, at, 16, x.to_bits())
}

// The n lowest hexadecimal digits of a number, small letters: the last is laid first. (A loop of its own: one for both bases would compare
// each decimal digit with 10.)
pub fn put_hex_digits(buf: &mut [u8], at: usize, n: usize, v: u64) -> usize
    requires { Room buf.old at (hex n v) }
    ensures { Laid buf.old at (hex n v) buf.new result }
{
    let mut rest = v;
    for i in (0..n).rev() {
        buf[at + i] = hex_digit(rest % 16);
        rest /= 16;
    }
    at + n
}

// One of 0 to 9 and a to f.
fn hex_digit(d: u64) -> u8
    requires { d < 16 }
    ensures { result ≡ hex_digit d }
{
    if d < 10 {
        b'0' + d as u8
    } else {
        b'a' + (d - 10) as u8
    }
}

// A number below 100 in two places, with a space for a leading zero.
pub fn put_spaced(buf: &mut [u8], at: usize, v: u32) -> usize
    requires few_digits { v < 100 }
    requires room { Room buf.old at (text.spaced v) }
    ensures { Laid buf.old at (text.spaced v) buf.new result }
{
    if v < 10 {
        let digits = put_byte(buf, at, b' ');
        return put_digits::<1>(buf, digits, v);
    }
    put_digits::<2>(buf, at, v)
}

// The year 0, as it is held.
const YEAR_0: u32 = 40000;

// A year up to 9999 in four digits; before the year 0, a minus and at least k.
pub fn put_year(buf: &mut [u8], at: usize, k: usize, year: u32) -> usize
    requires year_in { year ≤ 49999 }
    requires room { Room buf.old at (text.signed_year k year) }
    ensures { Laid buf.old at (text.signed_year k year) buf.new result }
{
    if year >= YEAR_0 {
        return put_digits::<4>(buf, at, year - YEAR_0);
    }
    put_minus(buf, at, k, (YEAR_0 - year) as u64)
}

// How many bytes `put_year` takes.
pub fn year_length(k: usize, year: u32) -> usize
    requires few_places { k ≤ 20 }
    requires year_in { year ≤ 49999 }
    ensures { result ≡ length (text.signed_year k year) }
{
    if year >= YEAR_0 {
        return 4;
    }
    1 + number_length(k, (YEAR_0 - year) as u64)
}

// The last two digits of a year: before the year 0, a minus and at least one, but 00 for a whole century.
pub fn put_short_year(buf: &mut [u8], at: usize, year: u32) -> usize
    requires { Room buf.old at (text.year_short year) }
    ensures { Laid buf.old at (text.year_short year) buf.new result }
{
    if year >= YEAR_0 {
        return put_digits::<2>(buf, at, (year - YEAR_0) % 100);
    }
    let back = (YEAR_0 - year) % 100;
    if back == 0 {
        return put_digits::<2>(buf, at, 0);
    }
    put_minus(buf, at, 1, back as u64)
}

// How many bytes `put_short_year` takes.
pub fn short_year_length(year: u32) -> usize
    ensures { result ≡ length (text.year_short year) }
{
    if year >= YEAR_0 {
        return 2;
    }
    let back = (YEAR_0 - year) % 100;
    if back == 0 {
        return 2;
    }
    1 + number_length(1, back as u64)
}

// A point, and the three lowest decimal places of a number of thousandths.
pub fn put_point(buf: &mut [u8], at: usize, t: u64) -> usize
    requires { Room buf.old at (46 ∷ text.places 3 t) }
    ensures { Laid buf.old at (46 ∷ text.places 3 t) buf.new result }
{
    let digits = put_byte(buf, at, b'.');
    put_digits::<3>(buf, digits, (t % 1000) as u32)
}

// The seconds of a time of day, cut to whole ones, in two digits.
pub fn put_second(buf: &mut [u8], at: usize, second: f64) -> usize
    requires second_in { in_minute second ≡ true }
    requires room { Room buf.old at (text.second_text second) }
    ensures { Laid buf.old at (text.second_text second) buf.new result }
{
    put_digits::<2>(buf, at, real::whole(second) as u32)
}

// The seconds of a time of day: "three decimals of the f64, ties to even".
pub fn put_second_decimals(buf: &mut [u8], at: usize, second: f64) -> usize
    requires second_in { in_minute second ≡ true }
    requires room { Room buf.old at (text.three_decimals 2 second) }
    ensures { Laid buf.old at (text.three_decimals 2 second) buf.new result }
{
    let t = real::thousandths(second);
    let point = put_digits::<2>(buf, at, (t / 1000) as u32);
    put_point(buf, point, t)
}

// The Unix epoch, as it is held.
const UNIX_EPOCH: u64 = 9223582903614775808;

// The seconds since the Unix epoch, as an f64, in thousandths and without their sign. The bounds are clauses, as in crate real.
fn unix_thousandths(ms: u64) -> u64
    requires not_before { instant 0 ≤ ms }
    requires not_after { ms ≤ last }
    ensures { result ≡ decimals 3 (text.unix_real ms) }
{
    real::thousandths(real::unix_real(ms))
}

// The seconds since the Unix epoch, as an f64, with three decimals.
pub fn put_unix_decimals(buf: &mut [u8], at: usize, ms: u64) -> usize
    requires not_before { instant 0 ≤ ms }
    requires not_after { ms ≤ last }
    requires room { Room buf.old at (unix_decimals ms) }
    ensures { Laid buf.old at (unix_decimals ms) buf.new result }
{
    let t = unix_thousandths(ms);
    if ms < UNIX_EPOCH {
        let point = put_minus(buf, at, 1, t / 1000);
        return put_point(buf, point, t);
    }
    let point = put_number(buf, at, 1, t / 1000);
    put_point(buf, point, t)
}

// How many bytes `put_unix_decimals` takes.
pub fn unix_decimals_length(ms: u64) -> usize
    requires not_before { instant 0 ≤ ms }
    requires not_after { ms ≤ last }
    ensures { result ≡ length (unix_decimals ms) }
{
    let t = unix_thousandths(ms);
    let whole = number_length(1, t / 1000);
    if ms < UNIX_EPOCH {
        return whole + 5;
    }
    whole + 4
}

// The nine decimal places of a number of billionths, "trailing zeros .. dropped": how many are left, and what they show.
fn trimmed(n: u64) -> (usize, u64)
    requires { n < 10 ^ 9 }
    ensures { Trimmed n result }
{
    let mut value = n;
    for count in (1..10).rev() {
        if value % 10 != 0 {
            return (count, value);
        }
        value /= 10;
    }
    (0, 0)
}

// The Julian day, as an f64, in units of 10^-9.
fn julian_billionths(ms: u64) -> u64
    requires not_before { instant 86400000000000 ≤ ms }
    requires not_after { ms ≤ last }
    ensures { result ≡ decimals 9 (text.julian_real ms) }
{
    real::billionths(real::julian_real(ms))
}

// The Julian day: "nine decimals of the f64, ties to even, trailing zeros and point dropped". From 86400000000000 ms on.
pub fn put_julian(buf: &mut [u8], at: usize, ms: u64) -> usize
    requires not_before { instant 86400000000000 ≤ ms }
    requires not_after { ms ≤ last }
    requires room { Room buf.old at (text.julian_text ms) }
    ensures { Laid buf.old at (text.julian_text ms) buf.new result }
{
    let n = julian_billionths(ms);
    let (count, fraction) = trimmed(n % 1000000000);
    let point = put_number(buf, at, 1, n / 1000000000);
    if count == 0 {
        return point;
    }
    let digits = put_byte(buf, point, b'.');
    put_places(buf, digits, count, fraction)
}

// How many bytes `put_julian` takes.
pub fn julian_length(ms: u64) -> usize
    requires not_before { instant 86400000000000 ≤ ms }
    requires not_after { ms ≤ last }
    ensures { result ≡ length (text.julian_text ms) }
{
    let n = julian_billionths(ms);
    let whole = number_length(1, n / 1000000000);
    let (count, _) = trimmed(n % 1000000000);
    if count == 0 {
        return whole;
    }
    whole + 1 + count
}
