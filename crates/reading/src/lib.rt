// A time value to a record.
//
// A reader takes a slice and says what the rules' reader of the same name says of its bytes: it hands back what it read, and the rest where
// more may follow. Zones are held as crate rules says: minutes east of UTC plus 1440.
// `length s.now ≤ 255` is a clause and no type: the rest of a short slice is a slice, so a type of short ones would be made anew at each reader.
#![tactic(auto)]

ghost use Rattle.std.specs.Prelude.{◌≡◌, true, ◌||◌, ◌≤◌, length, IfSome};
ghost use Rattle.rules.specs.Basics as rule;
ghost use Rattle.rules.specs.Basics.{◌or◌, read_some};
ghost use Rattle.rules.specs.Calls.{value_of, bytes_of};
ghost use Rattle.rules.specs.Reading as reading;
ghost use Rattle.real.specs.InMinute.{in_minute};
ghost use Rattle.reading.specs.Readers.{hour_minute, InZones, year_month_day, Limits, held_year, subsec_value, is_empty};
ghost use Rattle.moment.specs.Held.{held};
ghost use Rattle.moment.specs.Ranges.{TimeRead, After, read_of, Lands};
ghost use Rattle.moment.specs.Sums.{Fresh};

use moment::{Clock, Moment, NO_ZONE};
use rules::{Given, Refusal, Time, Ymd};
use text::{Gap, Space};

// ---- HH:MM

// An hour up to `most` and a minute, 0 to 59. The first test is for all five bytes, so that none has one of its own.
#[tactic(auto, using(text::proofs::Reading::byte_after, crate::proofs::Zones::five_bytes), unfolding(crate::specs::Readers::hour_minute))]
fn hour_minute(s: &[u8], most: u32) -> Option<(u32, u32, &[u8])>
    ensures value { read_some (λ r. (r.0, r.1, r.2.now)) result ≡ hour_minute most s.now }
    ensures up_to { IfSome result (λ r. (r.0 ≤ most) × (r.1 ≤ 59)) }
    ensures shorter { IfSome result (λ r. length r.2.now ≤ length s.now) }
{
    if s.len() < 5 {
        return None;
    }
    let (hour, colon) = text::digits::<2>(s, 0, most)?;
    let after = text::byte(colon, b':')?;
    let (minute, rest) = text::digits::<2>(after, 0, 59)?;
    Some((hour, minute, rest))
}

// ---- a zone

// "only whitespace after"
fn only_space(s: &[u8]) -> bool
    ensures { result ≡ is_empty (rule.skip reading.space s.now) }
{
    text::skip::<Space>(s).is_empty()
}

// HH:MM, "hour 0 to 14, minute 0 to 59; only whitespace after": in minutes.
#[tactic(auto, unfolding(rules::specs::Reading::hours_minutes, crate::specs::Readers::hour_minute))]
fn hours_minutes(s: &[u8]) -> Option<u32>
    ensures value { read_some (λ n. n) result ≡ reading.hours_minutes s.now }
    ensures few { IfSome result (λ n. n ≤ 899) }
{
    let (hours, minutes, rest) = hour_minute(s, 14)?;
    only_space(rest).then_some(hours * 60 + minutes)
}

// "Zone: whitespace, then nothing, `Z`, `z`, or sign and HH:MM": as it is held, and whether it says that the time is UTC.
#[tactic(auto, unfolding(rules::specs::Reading::zone_in))]
pub fn zone(s: &[u8]) -> Option<(u32, bool)>
    ensures value { read_some (λ z. z) result ≡ reading.zone_in (rule.skip reading.space s.now) }
    ensures in_zones { IfSome result (λ z. InZones z.0) }
{
    match text::skip::<Space>(s) {
        [] => Some((NO_ZONE, false)),
        [b'Z' | b'z', rest @ ..] => only_space(rest).then_some((NO_ZONE, true)),
        [b'+', rest @ ..] => {
            let n = hours_minutes(rest)?;
            Some((NO_ZONE + n, n == 0))
        }
        [b'-', rest @ ..] => {
            let n = hours_minutes(rest)?;
            Some((NO_ZONE - n, n == 0))
        }
        _ => None,
    }
}

// ---- seconds

// "Fraction: a point and at least one digit." Without one of the two there is none.
#[tactic(auto, using(real::proofs::Literals::literals), unfolding(rules::specs::Reading::fraction, rules::specs::Decimal::run))]
fn fraction(s: &[u8]) -> (f64, &[u8])
    ensures value { result.0 ≡ (reading.fraction s.now).0 }
    ensures rest { result.1.now ≡ (reading.fraction s.now).1 }
{
    match s {
        [b'.', b'0'..=b'9', ..] => real::fraction(&s[1..]),
        _ => (0.0, s),
    }
}

// [:SS[.F]]
#[tactic(auto, using(real::proofs::Literals::literals), unfolding(rules::specs::Reading::seconds, rules::specs::Reading::seconds_in))]
pub fn seconds(s: &[u8]) -> Option<(f64, &[u8])>
    ensures value { read_some (λ r. (r.0, r.1.now)) result ≡ reading.seconds s.now }
    ensures in_minute { IfSome result (λ r. length s.now ≤ 255 → in_minute r.0 ≡ true) }
{
    let Some(after) = text::byte(s, b':') else {
        return Some((0.0, s));
    };
    let (n, point) = text::digits::<2>(after, 0, 59)?;
    let (f, rest) = fraction(point);
    Some((n as f64 + f, rest))
}

// ---- a time of day

// HH:MM[:SS[.F]][zone], "hour 0 to 24, minute and second 0 to 59, always full digits", to the end of the text.
#[tactic(auto, unfolding(rules::specs::Reading::time, crate::specs::Readers::hour_minute))]
pub fn time(s: &[u8]) -> Option<Time>
    ensures value { read_some (λ t. t) result ≡ reading.time s.now }
    ensures time_read { IfSome result (λ t. length s.now ≤ 255 → TimeRead t) }
{
    let (hour, minute, after) = hour_minute(s, 24)?;
    let (second, rest) = seconds(after)?;
    let (zone, utc) = zone(rest)?;
    Some(Time {
        hour,
        minute,
        second,
        zone,
        utc,
    })
}

// ---- a date

// YYYY-MM-DD: year 0 to 9999, month and day from `low` up to `months` and `days`. The first test is for all ten bytes.
#[tactic(auto, using(text::proofs::Reading::byte_after, crate::proofs::Dates::ten_bytes), unfolding(crate::specs::Readers::year_month_day))]
pub fn year_month_day(s: &[u8], low: u32, months: u32, days: u32) -> Option<(u32, u32, u32, &[u8])>
    ensures value { read_some (λ r. (r.0, r.1, r.2, r.3.now)) result ≡ year_month_day low months days s.now }
    ensures limits { IfSome result (λ r. Limits low months days r.0 r.1 r.2) }
    ensures shorter { IfSome result (λ r. length r.3.now ≤ length s.now) }
{
    if s.len() < 10 {
        return None;
    }
    let (year, dash) = text::digits::<4>(s, 0, 9999)?;
    let after = text::byte(dash, b'-')?;
    let (month, second) = text::digits::<2>(after, low, months)?;
    let last = text::byte(second, b'-')?;
    let (day, rest) = text::digits::<2>(last, low, days)?;
    Some((year, month, day, rest))
}

// A year as it is held: 40000 more.
fn held_year(y: u32, minus: bool) -> u32
    requires { y ≤ 9999 }
    ensures { result ≡ held_year minus y }
{
    if minus { 40000 - y } else { 40000 + y }
}

// "a time alone (date 2000-01-01)"
#[tactic(auto, unfolding(rules::specs::Reading::time_form))]
pub fn time_alone(s: &[u8]) -> Option<Moment>
    requires { length s.now ≤ 255 }
    ensures value { read_some held result ≡ reading.time_form s.now }
    ensures after { IfSome result (λ p. After 0 (held p)) }
    ensures fresh { IfSome result (λ p. Fresh (held p)) }
{
    Some(Moment::timed(time(s)?))
}

// After a date: "optional time", or the end.
#[tactic(auto, using(crate::proofs::Dates::time_follows))]
fn time_after(s: &[u8]) -> Option<Moment>
    requires { length s.now ≤ 255 }
    ensures value { read_some held result ≡ reading.time_after s.now }
    ensures after { IfSome result (λ p. After 0 (held p)) }
    ensures fresh { IfSome result (λ p. Fresh (held p)) }
{
    if s.is_empty() {
        return Some(Moment::blank());
    }
    time_alone(s)
}

// YYYY-MM-DD with optional time; `minus` says whether a minus stands before it. "Between date and time any run of whitespace and `T`, also
// none." A zone is taken off at once.
#[tactic(auto, unfolding(rules::specs::Reading::date_from, crate::specs::Readers::year_month_day))]
fn date_from(s: &[u8], minus: bool) -> Option<Moment>
    requires { length s.now ≤ 255 }
    ensures value { read_some held result ≡ reading.date_from (held_year minus) s.now }
    ensures after { IfSome result (λ p. After 0 (held p)) }
{
    let (y, month, day, rest) = year_month_day(s, 1, 12, 31)?;
    let p = time_after(text::skip::<Gap>(rest))?;
    let year = held_year(y, minus);
    Some(p.on_date(Ymd { year, month, day }).past_end().settled())
}

// "`[-]YYYY-MM-DD` with optional time"
pub fn date(s: &[u8]) -> Option<Moment>
    requires { length s.now ≤ 255 }
    ensures value { read_some held result ≡ reading.date_form s.now }
    ensures after { IfSome result (λ p. After 0 (held p)) }
{
    let (minus, unsigned) = match text::byte(s, b'-') {
        Some(rest) => (true, rest),
        None => (false, s),
    };
    date_from(unsigned, minus)
}

// ---- a time value

fn is_subsec(s: &[u8]) -> bool
    ensures { result ≡ (rule.word (rule.ascii "subsec") s.now || rule.word (rule.ascii "subsecond") s.now) }
{
    text::is_word(s, b"subsec") || text::is_word(s, b"subsecond")
}

// What is neither date, time, `now` nor number: `subsec` or `subsecond`.
fn subsec_value(s: &[u8], clock: Clock) -> Result<Moment, Refusal>
    ensures value { read_of result ≡ subsec_value clock.ms s.now }
    ensures lands { Lands (After 0) result }
{
    if is_subsec(s) {
        return Ok(Moment::blank().with_subsec().now(clock));
    }
    Err(Refusal::Null)
}

// What is neither date, time nor `now`: a decimal, which "is trimmed of it on both sides".
#[tactic(auto, unfolding(rules::specs::Reading::number_form))]
fn number_value(s: &[u8], clock: Clock) -> Result<Moment, Refusal>
    ensures value { read_of result ≡ (reading.number_form s.now or subsec_value clock.ms s.now) }
    ensures lands { Lands (After 0) result }
{
    match decimal::decimal(text::trim::<Space>(s))? {
        Some(x) => Ok(Moment::raw_number(x)),
        None => subsec_value(s, clock),
    }
}

// "Tried in order: `[-]YYYY-MM-DD` with optional time; a time alone (date 2000-01-01); `now`; a decimal; `subsec` or `subsecond`. Words in either case."
#[tactic(auto, unfolding(rules::specs::Reading::text_value))]
pub fn text_value(s: &[u8], clock: Clock) -> Result<Moment, Refusal>
    requires { length s.now ≤ 255 }
    ensures value { read_of result ≡ reading.text_value clock.ms s.now }
    ensures lands { Lands (After 0) result }
{
    if let Some(p) = date(s) {
        return Ok(p);
    }
    if let Some(p) = time_alone(s) {
        return Ok(p);
    }
    if text::is_word(s, b"now") {
        return Ok(Moment::blank().now(clock));
    }
    number_value(s, clock)
}

// "A time value is absent (read as `now`; ..), null, bytes, a 64-bit signed integer or an f64." The bytes stand in s.
#[tactic(auto, unfolding(rules::specs::Reading::time_value))]
pub fn time_value(given: Given, s: &[u8], clock: Clock) -> Result<Moment, Refusal>
    requires { length (bytes_of (value_of given s.now)) ≤ 255 }
    ensures value { read_of result ≡ reading.time_value clock.ms (value_of given s.now) }
    ensures lands { Lands (After 0) result }
{
    match given {
        Given::Absent => Ok(Moment::blank().now(clock)),
        Given::Null => Err(Refusal::Null),
        Given::Bytes => text_value(s, clock),
        Given::Integer(n) => Ok(Moment::raw_number(real::of_integer(n))),
        Given::Real(x) => Ok(Moment::raw_number(x)),
    }
}
