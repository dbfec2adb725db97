// The record that a call goes through, "civil fields whose seconds are a 64-bit float, beside milliseconds and flags", and its steps:
// "each step takes the whole record and hands the next one back".
//
// Years, milliseconds and zones are held as crate rules says: 2024 as 42024, the millisecond 0 as 2^63, no zone as 1440.
// A contract says that what comes back is what the rules' step of the same name gives (`held` is the record as the rules have it), and how
// far the milliseconds have gone after so many modifiers (`After`).
#![tactic(auto)]

ghost use Rattle.std.specs.Prelude.{◌≡◌, true, ◌^◌, ◌≤◌, ◌<◌};
ghost use Rattle.rules.specs.Moments as rule;
ghost use Rattle.rules.specs.Modifiers.{signed};
ghost use Rattle.calendar.specs.Ranges.{MonthDay};
ghost use Rattle.real.specs.InMinute.{in_minute};
ghost use Rattle.moment.specs.Fields.{TimeIn};

pub use fields::NO_ZONE;
use rules::Time;
pub use settings::{Clock, Offset};

mod fields;
mod modify;
mod settings;

#[derive(Clone, Copy)]
pub struct Moment {
    // milliseconds from noon of -4713-11-24
    pub ms: u64,
    pub year: u32,
    pub month: u32,
    pub day: u32,
    pub hour: u32,
    pub minute: u32,
    // or a number as it was given
    pub second: f64,
    // minutes east of UTC
    pub zone: u32,
    // the days by which the day lies past its month's end
    pub over: u32,
    // the milliseconds, the date, the time of day stand. No Option in their place: the rules' record, which `held` gives field by field,
    // keeps the values of fields that no longer stand.
    pub counted: bool,
    pub dated: bool,
    pub timed: bool,
    // likewise: the seconds are a number as it was given
    pub raw: bool,
    // a field sum failed
    pub failed: bool,
    // `subsec` was asked for
    pub subsec: bool,
    // it is known to be UTC, and to be local time
    pub utc: bool,
    pub local: bool,
    // whatever the record has gone through; a day may lie past its month's end
    pub ghost date_in: { MonthDay month day },
    pub ghost time_in: { TimeIn hour minute timed second zone },
    pub ghost over_in: { over ≤ 3 },
}

// A time of day in milliseconds. Its zone is not looked at.
#[tactic(auto, using(real::proofs::Seconds::minute_ms))]
pub fn time_ms(t: Time) -> u64
    requires { (t.hour ≤ 24) × (t.minute ≤ 59) × (in_minute t.second ≡ true) }
    ensures { (result ≡ rule.time_ms t.hour t.minute t.second) × (result < 90000000) }
{
    t.hour as u64 * 3600000 + t.minute as u64 * 60000 + real::seconds_ms(t.second)
}

// A count with its sign: back after a minus, else forward.
pub fn signed(minus: bool, size: u64) -> i64
    requires { size < 2 ^ 63 }
    ensures { result ≡ signed minus size }
{
    if minus { -(size as i64) } else { size as i64 }
}
