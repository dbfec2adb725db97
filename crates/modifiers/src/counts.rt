// Modifiers that begin with a sign or a digit: a date, a time, or a number of units to move by. "No sign means plus."
ghost use Rattle.std.specs.Prelude.{◌≡◌, ◌*◌, ◌≤◌, ◌<◌, true, length, unsigned_abs, IfOk, IfSome};
ghost use Rattle.rules.specs.Basics.{refuse, ◌or◌, read_some, read_tried};
ghost use Rattle.rules.specs.Floats.{below, cut};
ghost use Rattle.rules.specs.Modifiers as rule;
ghost use Rattle.rules.specs.declared.Refusal.{Refusal};
ghost use Rattle.real.specs.StepMost.{step_most};
ghost use Rattle.moment.specs.Held.{held};
ghost use Rattle.moment.specs.Ranges.{Movable};
ghost use Rattle.modifiers.specs.Stepped.{Stepped};
ghost use Rattle.modifiers.specs.Words.{unit_after, scale_of, step_by};

use crate::words::Unit;
use crate::{number, words};
use moment::Moment;
use rules::Refusal;
use text::Wide;

// A day in milliseconds.
const DAY: u64 = 86400000;

// "Tried in order: date form, time form, `N unit`; a date form whose time does not read gives 1."
pub fn arithmetic(s: &[u8], p: Moment) -> Result<Moment, Refusal>
    requires { (length s.now ≤ 255) × Movable (held p) }
    ensures { Stepped p result (rule.arithmetic s.now (held p) or refuse Refusal.Null) }
{
    let (minus, unsigned) = decimal::sign(s);
    if let Some((y, m, d, after)) = reading::year_month_day(unsigned, 0, 11, 30) {
        if let Some(ms) = clock_after(after)? {
            let months = moment::signed(minus, (y * 12 + m) as u64);
            return Ok(p.by_date(months, moment::signed(minus, d as u64 * DAY + ms)));
        }
    }
    time_step(s, unsigned, minus, p)
}

// The milliseconds of the time after a date: nothing, or a space, any whitespace and a time. "A zone in the time is read and ignored." None
// where there is no date form.
#[tactic(auto, using(text::proofs::Runs::skip_le), unfolding(rules::specs::Modifiers::time_of))]
fn clock_after(s: &[u8]) -> Result<Option<u64>, Refusal>
    requires { length s.now ≤ 255 }
    ensures value { read_tried (λ ms. ms) result ≡ rule.time_of s.now }
    ensures in_clock { IfOk result (λ clock. IfSome clock (λ ms. ms < 90000000)) }
{
    match s {
        [] => Ok(Some(0)),
        [b' ', rest @ ..] => {
            let Some(t) = reading::time(text::skip::<Wide>(rest)) else {
                return Err(Refusal::Null);
            };
            Ok(Some(moment::time_ms(t)))
        }
        _ => Ok(None),
    }
}

// "`[sign]HH:MM[:SS[.F]]`", after the sign; else `N unit`.
fn time_step(s: &[u8], unsigned: &[u8], minus: bool, p: Moment) -> Result<Moment, Refusal>
    requires { (length unsigned.now ≤ 255) × Movable (held p) }
    ensures { Stepped p result ((rule.time_step minus unsigned.now (held p) or rule.unit_step s.now (held p)) or refuse Refusal.Null) }
{
    match reading::time(unsigned) {
        Some(t) => Ok(p.by_time(moment::signed(minus, moment::time_ms(t)))),
        None => unit_step(s, p),
    }
}

// "The number is read before its unit; later words are ignored."
fn unit_step(s: &[u8], p: Moment) -> Result<Moment, Refusal>
    requires { Movable (held p) }
    ensures { Stepped p result (rule.unit_step s.now (held p) or refuse Refusal.Null) }
{
    let (word, rest) = text::split_word(s);
    let n = number(word)?;
    match unit_after(rest) {
        Some(unit) => by_unit(unit, n, p),
        None => Err(Refusal::Null),
    }
}

// The unit that the next word names.
fn unit_after(s: &[u8]) -> Option<Unit>
    ensures { read_some (λ u. u) result ≡ unit_after s.now }
{
    words::unit_of(text::split_word(text::skip::<Wide>(s)).0)
}

// How a unit moves, and below which magnitude: by so many milliseconds, or by so many months, of whose fraction a whole unit counts as so
// many days.
#[derive(Clone, Copy)]
enum Scale {
    Length(f64, f64),
    Months(f64, u32, f64),
}

// "magnitude strictly below 5373485 days, 1.2897e11 hours, 7.7379e12 minutes, 4.6427e14 seconds, 176546 months, 14713 years"
#[tactic(auto, using(real::proofs::Literals::literals))]
fn scale_of(unit: Unit) -> Scale
    ensures { result ≡ scale_of unit }
{
    match unit {
        Unit::Day => Scale::Length(5373485.0, 86400000.0),
        Unit::Hour => Scale::Length(128970000000.0, 3600000.0),
        Unit::Minute => Scale::Length(7737900000000.0, 60000.0),
        Unit::Second => Scale::Length(464270000000000.0, 1000.0),
        Unit::Month => Scale::Months(176546.0, 1, 30.0),
        Unit::Year => Scale::Months(14713.0, 12, 365.0),
    }
}

fn by_unit(unit: Unit, n: f64, p: Moment) -> Result<Moment, Refusal>
    requires { Movable (held p) }
    ensures { Stepped p result (step_by unit n (held p)) }
{
    match scale_of(unit) {
        Scale::Length(limit, ms) => by_length(limit, ms, n, p),
        Scale::Months(limit, k, days) => by_months(limit, k, days, n, p),
    }
}

// A unit of so many milliseconds.
fn by_length(limit: f64, unit: f64, n: f64, p: Moment) -> Result<Moment, Refusal>
    requires { (below n limit ≡ true → unsigned_abs (rule.unit_ms unit n) ≤ step_most) × Movable (held p) }
    ensures { Stepped p result (rule.by_length limit unit n (held p)) }
{
    if !real::below(n, limit) {
        return Err(Refusal::Null);
    }
    Ok(p.by_length(real::unit_ms(unit, n)))
}

// A unit of k months, of whose fraction a whole one counts as so many days.
fn by_months(limit: f64, k: u32, days: f64, n: f64, p: Moment) -> Result<Moment, Refusal>
    requires { (below n limit ≡ true → (unsigned_abs (cut n) * k ≤ 176545) × (unsigned_abs (rule.fraction_ms days n) ≤ step_most)) × Movable (held p) }
    ensures { Stepped p result (rule.by_months limit k days n (held p)) }
{
    if !real::below(n, limit) {
        return Err(Refusal::Null);
    }
    Ok(p.by_months(n, k, days))
}
