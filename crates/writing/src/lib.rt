// Dates, times and the letters of strftime, written into the lent buffer, in place.
//
// Every writer has the contract of crate digits: it asks for room for its text from `at` on, lays the text there, leaves every other byte
// as it was, and returns the place after the text. The texts are those of rules, of a record that is `Full`: in range, its fields
// standing, as they were read or filled. So an hour 24 and a day past its month's end may be met with. (A clause and not a type: a type
// around the record would stand in each text and at each field, `held p.moment`, `p.moment.year`, to save that clause.)
//
// A format is gone through three times at the most, so that a refusal changes no byte and no answer is written twice:
// - `check` finds the first refusal, or a bound of the text's length, the sum of its letters' bounds;
// - `format_length` finds the exact length, where the bound has no room;
// - `put_format` writes the text.
#![tactic(auto)]

ghost use Rattle.std.specs.Prelude.{◌≡◌, ◌≤◌, ◌<◌, ◌^◌, ◌++◌, [], length, MatchOption};
ghost use Rattle.rules.specs.Basics.{ascii};
ghost use Rattle.rules.specs.Calendar as rule;
ghost use Rattle.rules.specs.Writing as text;
ghost use Rattle.moment.specs.Held.{held};
ghost use Rattle.moment.specs.Ranges.{Full};
ghost use Rattle.digits.specs.Writers.{Room, Laid};
ghost use Rattle.writing.specs.Texts.{date_of, whole_time, decimal_time, half};
ghost use Rattle.writing.specs.Formats.{text_of, IsText, most, most_of, PutIs, CheckIs, FrontIs};

use calendar::Instant;
use digits::{
    put_byte, put_bytes, put_digits, put_next, put_second, put_second_decimals, put_short_year,
    put_spaced, put_year, short_year_length, year_length,
};
use moment::Moment;
use rules::{Refusal, Ymd};

// ---- dates and times

// A date. Before the year 0 it has a minus and at least k digits of the year.
fn put_ymd(buf: &mut [u8], at: usize, k: usize, p: Moment) -> usize
    requires full { Full (held p) }
    requires room { Room buf.old at (date_of k (held p)) }
    ensures { Laid buf.old at (date_of k (held p)) buf.new result }
{
    let before_month = put_year(buf, at, k, p.year);
    let before_day = put_next(buf, before_month, b'-', p.month);
    put_next(buf, before_day, b'-', p.day)
}

// `HH:MM`.
fn put_clock(buf: &mut [u8], at: usize, p: Moment) -> usize
    requires full { Full (held p) }
    requires room { Room buf.old at (text.hour_minute (held p)) }
    ensures { Laid buf.old at (text.hour_minute (held p)) buf.new result }
{
    let before_minute = put_digits::<2>(buf, at, p.hour);
    put_next(buf, before_minute, b':', p.minute)
}

// `HH:MM:`, before the seconds.
fn put_to_second(buf: &mut [u8], at: usize, p: Moment) -> usize
    requires full { Full (held p) }
    requires room { Room buf.old at (text.hour_minute (held p) ++ ascii ":") }
    ensures { Laid buf.old at (text.hour_minute (held p) ++ ascii ":") buf.new result }
{
    let colon = put_clock(buf, at, p);
    put_byte(buf, colon, b':')
}

// `HH:MM:SS`.
fn put_whole_time(buf: &mut [u8], at: usize, p: Moment) -> usize
    requires full { Full (held p) }
    requires room { Room buf.old at (whole_time (held p)) }
    ensures { Laid buf.old at (whole_time (held p)) buf.new result }
{
    let second = put_to_second(buf, at, p);
    put_second(buf, second, p.second)
}

// `HH:MM:SS.SSS`.
fn put_decimal_time(buf: &mut [u8], at: usize, p: Moment) -> usize
    requires full { Full (held p) }
    requires room { Room buf.old at (decimal_time (held p)) }
    ensures { Laid buf.old at (decimal_time (held p)) buf.new result }
{
    let second = put_to_second(buf, at, p);
    put_second_decimals(buf, second, p.second)
}

// The text of `date`.
pub fn put_date(buf: &mut [u8], at: usize, p: Moment) -> usize
    requires full { Full (held p) }
    requires room { Room buf.old at (text.date_text (held p)) }
    ensures { Laid buf.old at (text.date_text (held p)) buf.new result }
{
    put_ymd(buf, at, 4, p)
}

// How many bytes `put_date` takes.
pub fn date_length(p: Moment) -> usize
    requires { Full (held p) }
    ensures { (result ≡ length (text.date_text (held p))) × (result ≤ 11) }
{
    year_length(4, p.year) + 6
}

// The text of `time`: "Seconds with subsec: three decimals of the f64, ties to even."
pub fn put_time(buf: &mut [u8], at: usize, p: Moment) -> usize
    requires full { Full (held p) }
    requires room { Room buf.old at (text.time_text (held p)) }
    ensures { Laid buf.old at (text.time_text (held p)) buf.new result }
{
    if p.subsec {
        put_decimal_time(buf, at, p)
    } else {
        put_whole_time(buf, at, p)
    }
}

// How many bytes `put_time` takes.
pub fn time_length(p: Moment) -> usize
    requires { Full (held p) }
    ensures { (result ≡ length (text.time_text (held p))) × (result ≤ 12) }
{
    if p.subsec { 12 } else { 8 }
}

// ---- what single letters ask

// The hour on a dial of twelve: 1 to 12.
fn dial(hour: u32) -> u32
    ensures { (result ≡ text.dial hour) × (result ≤ 12) }
{
    match hour % 12 {
        0 => 12,
        h => h,
    }
}

// Before noon and after it: `AM` and `PM`, or `am` and `pm`.
fn put_half(buf: &mut [u8], at: usize, hour: u32, am: &[u8], pm: &[u8]) -> usize
    requires { Room buf.old at (half am.now pm.now hour) }
    ensures { Laid buf.old at (half am.now pm.now hour) buf.new result }
{
    put_bytes(buf, at, if hour < 12 { am } else { pm })
}

// The days of the year that are before the record's.
fn day_of_year(p: Moment) -> u32
    requires { Full (held p) }
    ensures { (result ≡ rule.day_of_year p.year p.month p.day) × (result ≤ 365) }
{
    calendar::day_of_year(Ymd {
        year: p.year,
        month: p.month,
        day: p.day,
    })
}

// The week of the year, for weeks that begin on the day of the week since which `since` days have passed: 0 to 53.
fn week(p: Moment, since: u32) -> u32
    requires full { Full (held p) }
    requires in_week { since ≤ 6 }
    ensures { (result ≡ text.week (held p) since) × (result ≤ 53) }
{
    (day_of_year(p) + 7 - since) / 7
}

// The seconds since the Unix epoch. Inlined, since a call is lent the record (`put_format`'s copy).
#[inline(always)]
fn put_unix(buf: &mut [u8], at: usize, p: Moment) -> usize
    requires full { Full (held p) }
    requires room { Room buf.old at (text.unix_text (held p)) }
    ensures { Laid buf.old at (text.unix_text (held p)) buf.new result }
{
    if p.subsec {
        digits::put_unix_decimals(buf, at, p.ms)
    } else {
        digits::put_integer(buf, at, real::unix_seconds(p.ms))
    }
}

// How many bytes `put_unix` takes.
fn unix_length(p: Moment) -> usize
    requires { Full (held p) }
    ensures { result ≡ length (text.unix_text (held p)) }
{
    if p.subsec {
        digits::unix_decimals_length(p.ms)
    } else {
        digits::integer_length(real::unix_seconds(p.ms))
    }
}

// ---- a letter

// 86400000000000 ms, as they are held: `%J` is written from there on.
const EARLY: u64 = 9223458436854775808;

// The Julian day. 6: "`%J` is met with under 86400000000000 ms". Inlined, since a call hands its Result back through memory.
#[inline(always)]
#[tactic(auto, using(crate::proofs::Texts::julian_early, crate::proofs::Texts::julian_late))]
fn put_julian_day(buf: &mut [u8], at: usize, instant: Instant) -> Result<usize, Refusal>
    requires { Room buf.old at (text_of (text.julian_letter instant.ms)) }
    ensures { PutIs (text.julian_letter instant.ms) buf.old at buf.new result }
{
    if instant.ms < EARLY {
        return Err(Refusal::Early);
    }
    Ok(digits::put_julian(buf, at, instant.ms))
}

// "Twenty-six letters and the percent sign are read after a `%` .. Another letter .. gives 1." A match, as a table would hold function
// pointers.
#[inline(always)]
fn put_letter(buf: &mut [u8], at: usize, p: Moment, c: u8) -> Result<usize, Refusal>
    requires full { Full (held p) }
    requires room { Room buf.old at (text_of (text.letter c (held p))) }
    ensures { PutIs (text.letter c (held p)) buf.old at buf.new result }
{
    let instant = Instant { ms: p.ms };
    match c {
        b'd' => Ok(put_digits::<2>(buf, at, p.day)),
        b'e' => Ok(put_spaced(buf, at, p.day)),
        b'F' => Ok(put_ymd(buf, at, 3, p)),
        b'f' => Ok(put_second_decimals(buf, at, p.second)),
        b'g' => Ok(put_short_year(buf, at, instant.thursday().year)),
        b'G' => Ok(put_year(buf, at, 3, instant.thursday().year)),
        b'H' => Ok(put_digits::<2>(buf, at, p.hour)),
        b'I' => Ok(put_digits::<2>(buf, at, dial(p.hour))),
        b'j' => Ok(put_digits::<3>(buf, at, day_of_year(p) + 1)),
        b'J' => put_julian_day(buf, at, instant),
        b'k' => Ok(put_spaced(buf, at, p.hour)),
        b'l' => Ok(put_spaced(buf, at, dial(p.hour))),
        b'm' => Ok(put_digits::<2>(buf, at, p.month)),
        b'M' => Ok(put_digits::<2>(buf, at, p.minute)),
        b'p' => Ok(put_half(buf, at, p.hour, b"AM", b"PM")),
        b'P' => Ok(put_half(buf, at, p.hour, b"am", b"pm")),
        b'R' => Ok(put_clock(buf, at, p)),
        b's' => Ok(put_unix(buf, at, p)),
        b'S' => Ok(put_second(buf, at, p.second)),
        b'T' => Ok(put_whole_time(buf, at, p)),
        b'u' => Ok(put_digits::<1>(buf, at, instant.since_monday() + 1)),
        b'U' => Ok(put_digits::<2>(buf, at, week(p, instant.since_sunday()))),
        b'V' => Ok(put_digits::<2>(buf, at, instant.iso_week())),
        b'w' => Ok(put_digits::<1>(buf, at, instant.since_sunday())),
        b'W' => Ok(put_digits::<2>(buf, at, week(p, instant.since_monday()))),
        b'Y' => Ok(put_year(buf, at, 3, p.year)),
        b'%' => Ok(put_byte(buf, at, b'%')),
        _ => Err(Refusal::Null),
    }
}

// The same for a letter that is not refused, and it stays a function: inlined into a loop over a format, `put_letter` has what any letter
// may ask worked out before the first, and each is cheaper then. So a format of few letters is put by this, and a long one's rest is not.
#[inline(never)]
fn put_letter_alone(buf: &mut [u8], at: usize, p: Moment, c: u8) -> usize
    requires full { Full (held p) }
    requires is_text { IsText (text.letter c (held p)) }
    requires room { Room buf.old at (text_of (text.letter c (held p))) }
    ensures { Laid buf.old at (text_of (text.letter c (held p))) buf.new result }
{
    match put_letter(buf, at, p, c) {
        Ok(after) => after,
        Err(_) => unreachable!(),
    }
}

// The bytes that a letter writes at the most: as many as it always writes, but for F g G J s Y. None for what is no letter.
//
// No arm has two letters in a row: the two would be one range, whose tests have no names in a proof.
fn letter_most(c: u8) -> Option<usize>
    ensures { MatchOption result (most c ≡ 0) (λ n. (n ≡ most c) × (0 < n) × (n ≤ 17)) }
{
    match c {
        b'u' | b'w' | b'%' => Some(1),
        b'd' | b'H' | b'm' | b'M' => Some(2),
        b'I' | b'S' | b'U' | b'W' => Some(2),
        b'e' | b'k' | b'V' => Some(2),
        b'l' | b'p' | b'P' => Some(2),
        b'g' | b'j' => Some(3),
        b'G' | b'R' | b'Y' => Some(5),
        b'f' => Some(6),
        b'T' => Some(8),
        b'F' => Some(11),
        b'J' | b's' => Some(17),
        _ => None,
    }
}

// How many bytes `put_julian_day` takes; 0 where it is refused, as a refusal has no text (`text_of`).
#[tactic(auto, using(crate::proofs::Texts::julian_early, crate::proofs::Texts::julian_late))]
fn julian_day_length(instant: Instant) -> usize
    ensures { result ≡ length (text_of (text.julian_letter instant.ms)) }
{
    if instant.ms < EARLY {
        return 0;
    }
    digits::julian_length(instant.ms)
}

// How many bytes `put_letter` takes; 0 where it is refused, as above.
fn letter_length(p: Moment, c: u8) -> usize
    requires { Full (held p) }
    ensures { (result ≡ length (text_of (text.letter c (held p)))) × (result ≤ 17) }
{
    let instant = Instant { ms: p.ms };
    match c {
        b'F' => year_length(3, p.year) + 6,
        b'g' => short_year_length(instant.thursday().year),
        b'G' => year_length(3, instant.thursday().year),
        b'J' => julian_day_length(instant),
        b's' => unix_length(p),
        b'Y' => year_length(3, p.year),
        _ => letter_most(c).unwrap_or(0),
    }
}

// ---- a format

// What stands at the front of a format.
enum Part {
    // a byte that stands for itself
    Byte(u8),
    // a `%` and this letter
    Letter(u8),
    // a `%` that ends the format
    Last,
}

// The front of a format, and what follows it.
#[inline]
fn next_part(format: &[u8]) -> Option<(Part, &[u8])>
    ensures { MatchOption result (format.now ≡ []) (λ r. FrontIs r.0 r.1.now format.now) }
{
    match format {
        [b, rest @ ..] if *b != b'%' => Some((Part::Byte(*b), rest)),
        [_, c, rest @ ..] => Some((Part::Letter(*c), rest)),
        [_, rest @ ..] => Some((Part::Last, rest)),
        [] => None,
    }
}

// What `put_letter` will answer: its refusal, or the letter's bound.
fn check_letter(p: Moment, c: u8) -> Result<usize, Refusal>
    requires { Full (held p) }
    ensures { CheckIs (text.letter c (held p)) (most c) result }
{
    let most = letter_most(c).ok_or(Refusal::Null)?;
    if c == b'J' && p.ms < EARLY {
        return Err(Refusal::Early);
    }
    Ok(most)
}

// "format left to right (with 6)": the first refusal, or the sum of the letters' bounds, one for any other byte. A last `%` gives 1. No
// format is so long that 18 times its length would not fit.
//
// The bytes are counted beforehand, and a letter's two taken off again: so one that stands for itself is passed with no sum.
pub fn check(p: Moment, format: &[u8]) -> Result<usize, Refusal>
    requires full { Full (held p) }
    requires short { length format.now < 2 ^ 58 }
    ensures { CheckIs (text.formatted (held p) format.now) (most_of format.now) result }
{
    let mut left = format;
    let mut most = format.len();
    while let Some((part, rest)) = next_part(left) {
        match part {
            Part::Byte(_) => {}
            Part::Letter(c) => most = most - 2 + check_letter(p, c)?,
            Part::Last => return Err(Refusal::Null),
        }
        left = rest;
    }
    Ok(most)
}

// How many bytes `put_format` takes, for a format that `check` let through.
pub fn format_length(p: Moment, format: &[u8]) -> usize
    requires full { Full (held p) }
    requires short { length format.now < 2 ^ 58 }
    requires is_text { IsText (text.formatted (held p) format.now) }
    ensures { result ≡ length (text_of (text.formatted (held p) format.now)) }
{
    let mut left = format;
    let mut n = 0;
    while let Some((part, rest)) = next_part(left) {
        n += match part {
            Part::Byte(_) => 1,
            Part::Letter(c) => letter_length(p, c),
            Part::Last => unreachable!(),
        };
        left = rest;
    }
    n
}

// So many letters are put by calls. To work out what any letter may ask, as the loop for those past them does, takes about as long as ten
// calls do.
const FEW: u32 = 10;

// What a format that `check` let through writes: a `%` and a letter stand for what the letter writes, any other byte for itself. So no
// letter is refused here.
pub fn put_format(buf: &mut [u8], at: usize, p: Moment, format: &[u8]) -> Result<usize, Refusal>
    requires full { Full (held p) }
    requires is_text { IsText (text.formatted (held p) format.now) }
    requires room { Room buf.old at (text_of (text.formatted (held p) format.now)) }
    ensures { PutIs (text.formatted (held p) format.now) buf.old at buf.new result }
{
    let mut left = format;
    let mut next = at;
    let mut letters = 0;
    while let Some((part, rest)) = next_part(left) {
        match part {
            Part::Byte(b) => next = put_byte(buf, next, b),
            Part::Letter(c) => {
                if letters == FEW {
                    break;
                }
                letters += 1;
                next = put_letter_alone(buf, next, p, c);
            }
            Part::Last => unreachable!(),
        }
        left = rest;
    }
    // A copy: the record's address goes into the calls above, so its fields would be read again for each letter.
    let copy = p;
    while let Some((part, rest)) = next_part(left) {
        next = match part {
            Part::Byte(b) => put_byte(buf, next, b),
            Part::Letter(c) => put_letter(buf, next, copy, c)?,
            Part::Last => unreachable!(),
        };
        left = rest;
    }
    Ok(next)
}
