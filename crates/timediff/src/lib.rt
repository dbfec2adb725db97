// timediff: how far, and which way, B is moved to reach A, in numbers and as a text. Whole months come first, then the milliseconds that
// are left.
//
// A and B are instants, from the millisecond 0 to the last. A calendar month is one number, year * 12 + month - 1:
// November -4713, which holds the millisecond 0, is 423454 and December 9999 is 599999.
//
// B, moved by the months from its calendar month to A's, may lie past A: then the shift is backed off, one month at a time. Two back-offs
// suffice. They are needed where B's day runs over the end of a short month: from 2023-01-31 forward to 2023-03-01 two months lead to 03-31,
// one leads to 02-31, which is 03-03, and both pass; so no month is left, and 29 days. Backward one back-off suffices.
//
// A shifted B never leaves the months between B's and A's, so it lies on -4713-11-01 at the earliest. That is below the millisecond 0.
#![tactic(auto)]

ghost use Rattle.std.specs.Prelude.{◌≡◌, ◌+◌, ◌*◌, ◌/◌, ◌%◌, ◌≤◌, ◌<◌, length};
ghost use Rattle.rules.specs.Calendar.{day_length, midnight};
ghost use Rattle.rules.specs.Writing.{wide, month_of};
ghost use Rattle.calendar.specs.Ranges.{Countable};
ghost use Rattle.digits.specs.Writers.{Room, Laid};
ghost use Rattle.timediff.specs.Spans.{moved, past, between, shift_of, Toward, Tells, span_text, Writable, sign_byte, months_part, rest_part};

use calendar::Instant;
use digits::{put_byte, put_digits, put_next, put_number, put_point};
use rules::Ymd;

// What timediff writes: the sign, the months and, in milliseconds, the rest, which is less than 31 days. Which way is a `bool` here and in
// the functions below, as in the definitions that they are proved by: `gap`, `past` and `moved` of specs/Spans take it as a flag, and the
// promise of specs/Promise names it `plus`.
#[derive(Clone, Copy)]
pub struct Span {
    pub plus: bool,
    pub months: u32,
    pub rest: u64,
}

// Where the back-off stops: the months of the shift, and the millisecond to which they move B, which may lie below 0 and so be no Instant.
#[derive(Clone, Copy)]
struct Shift {
    months: u32,
    at: u64,
}

// The calendar month of a date.
fn month_of(date: Ymd) -> u32
    requires { Countable date.year date.month date.day }
    ensures { (result ≡ month_of date) × (result ≤ 599999) }
{
    date.year * 12 + (date.month - 1)
}

// A calendar month moved forward, or backward, by n.
fn moved(plus: bool, month: u32, n: u32) -> u32
    requires { (n ≤ month) × (month ≤ 599999) }
    ensures { result ≡ moved plus month n }
{
    if plus { month + n } else { month - n }
}

// A day of a calendar month, which may run over its end, and a time of that day.
fn in_month(month: u32, day: u32, time: u32) -> u64
    requires countable { Countable (month / 12) (month % 12 + 1) day }
    requires time_bound { time < 86400000 }
    ensures { result ≡ midnight (month / 12) (month % 12 + 1) day + time }
{
    let date = Ymd {
        year: month / 12,
        month: month % 12 + 1,
        day,
    };
    calendar::midnight(date) + u64::from(time)
}

// Whether a millisecond lies past A.
fn is_past(plus: bool, a: u64, at: u64) -> bool
    ensures { result ≡ past plus a at }
{
    if plus { a < at } else { at < a }
}

// "The shift starts at the months from B's calendar month to A's .., is backed off one month at a time and stops at the first that does
// not pass." It is a `loop`, since it hands back where it stops: the months and the millisecond at once.
fn back_off(plus: bool, a: Instant, b: Instant) -> Shift
    requires { Toward plus a.ms b.ms }
    ensures { (result ≡ shift_of plus a.ms b.ms) × Toward plus a.ms result.at × (between plus a.ms b.ms ≤ result.months + 2) }
{
    let date = b.civil();
    let time = calendar::time_of_day(b.ms);
    let from = month_of(date);
    let to = month_of(a.civil());
    let mut months = from.abs_diff(to);
    loop {
        let at = in_month(moved(plus, from, months), date.day, time);
        if !is_past(plus, a.ms, at) {
            break Shift { months, at };
        }
        months -= 1;
    }
}

// How far it is from B to A. "The sign is plus if A is not before B."
pub fn difference(a: Instant, b: Instant) -> Span
    ensures { Tells a.ms b.ms result }
{
    let plus = b.ms <= a.ms;
    let shift = back_off(plus, a, b);
    Span {
        plus,
        months: shift.months,
        rest: a.ms.abs_diff(shift.at),
    }
}

// ---- the text

fn sign(plus: bool) -> u8
    ensures { result ≡ sign_byte plus }
{
    if plus { b'+' } else { b'-' }
}

// The buffer and the place are two arguments, as in crate digits, whose head says why.

// "four or more year digits"
fn put_years(buf: &mut [u8], at: usize, years: u32) -> usize
    requires { Room buf.old at (wide 4 years) }
    ensures { Laid buf.old at (wide 4 years) buf.new result }
{
    if years < 10000 {
        return put_digits::<4>(buf, at, years);
    }
    put_number(buf, at, 4, u64::from(years))
}

// The sign, the years and the months: `+0001-02`.
fn put_months(buf: &mut [u8], at: usize, plus: bool, months: u32) -> usize
    requires { Room buf.old at (months_part plus months) }
    ensures { Laid buf.old at (months_part plus months) buf.new result }
{
    let before_years = put_byte(buf, at, sign(plus));
    let before_months = put_years(buf, before_years, months / 12);
    put_next(buf, before_months, b'-', months % 12)
}

// The days and the time: `-03 04:05:06.789`.
fn put_rest(buf: &mut [u8], at: usize, rest: u32) -> usize
    requires rest_in { rest < 31 * day_length }
    requires room { Room buf.old at (rest_part rest) }
    ensures { Laid buf.old at (rest_part rest) buf.new result }
{
    let before_hour = put_next(buf, at, b'-', rest / 86400000);
    let before_minute = put_next(buf, before_hour, b' ', rest / 3600000 % 24);
    let before_second = put_next(buf, before_minute, b':', rest / 60000 % 60);
    let point = put_next(buf, before_second, b':', rest / 1000 % 60);
    put_point(buf, point, u64::from(rest))
}

// The text of a span. Its rest, less than 31 days, fits 32 bits.
pub fn put_span(buf: &mut [u8], at: usize, s: Span) -> usize
    requires writable { Writable s }
    requires room { Room buf.old at (span_text s) }
    ensures { Laid buf.old at (span_text s) buf.new result }
{
    let days = put_months(buf, at, s.plus, s.months);
    put_rest(buf, days, s.rest as u32)
}

// How many bytes `put_span` takes: "24 bytes, 25 with a five-digit year".
#[tactic(auto, using(crate::proofs::Text::span_24, crate::proofs::Text::span_25))]
pub fn span_length(s: Span) -> usize
    requires { Writable s }
    ensures { (result ≡ length (span_text s)) × (result ≤ 25) }
{
    if s.months < 120000 { 24 } else { 25 }
}
