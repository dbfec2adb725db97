// The record's fields: what is read into them, the milliseconds that they sum to, and the fields that milliseconds fill.
ghost use Rattle.std.specs.Prelude.{◌≡◌, true, ◌<◌};
ghost use Rattle.rules.specs.Moments as rule;
ghost use Rattle.rules.specs.Reading as reading;
ghost use Rattle.calendar.specs.Ranges.{MonthDay, Countable};
ghost use Rattle.moment.specs.Held.{held};
ghost use Rattle.moment.specs.Ranges.{sum_takes, TimeIn, TimeRead, ReadYear, After, Filled};
ghost use Rattle.moment.specs.Sums.{date_meant, time_meant, civil_instant, summed_to};

use crate::{Clock, Moment, time_ms};
use calendar::Instant;
use rules::{Time, Ymd};

// The millisecond 0, and the Unix epoch.
pub(crate) const ZERO: u64 = 9223372036854775808;

const UNIX_EPOCH: u64 = 9223582903614775808;

// "Fields to milliseconds takes years -4713 to 9999."
const FIRST_YEAR: u32 = 35287;

const LAST_YEAR: u32 = 49999;

// The date that stands in for one that is not known: 2000-01-01.
const UNKNOWN_DATE: Ymd = Ymd {
    year: 42000,
    month: 1,
    day: 1,
};

// No zone as it is held, which is 0 minutes east of UTC. No Option: the rules' record holds it so (`no_zone`), and `held` gives the field as it
// stands.
pub const NO_ZONE: u32 = 1440;

// The instant of a date and a time of day in a zone. No zone, held as 1440 minutes, is 86400000 ms. It takes numbers and stays a function:
// counting around it is then inlined, and records stay in registers (docs/SPEED.md).
#[inline(never)]
fn instant(year: u32, month: u32, day: u32, hour: u32, minute: u32, second: f64, zone: u32) -> u64
    requires countable { Countable year month day }
    requires time_in { TimeIn hour minute true second zone }
    ensures { result ≡ civil_instant year month day hour minute second zone }
{
    let date = Ymd { year, month, day };
    let time = Time {
        hour,
        minute,
        second,
        zone,
        utc: false,
    };
    let local = calendar::midnight(date) + time_ms(time);
    local + 86400000 - zone as u64 * 60000
}

// Whether fields are summed: not where the seconds are a number as it was given.
fn summable(year: u32, raw: bool) -> bool
    ensures { result ≡ sum_takes year raw }
{
    FIRST_YEAR <= year && year <= LAST_YEAR && !raw
}

impl Moment {
    // Nothing is known: 2000-01-01 00:00 stands in for what is asked.
    #[tactic(auto, using(real::proofs::Literals::nil))]
    fn unknown(failed: bool) -> Moment
        ensures { held result ≡ rule.unknown failed }
    {
        Moment {
            ms: ZERO,
            year: UNKNOWN_DATE.year,
            month: UNKNOWN_DATE.month,
            day: UNKNOWN_DATE.day,
            hour: 0,
            minute: 0,
            second: 0.0,
            zone: NO_ZONE,
            over: 0,
            counted: false,
            dated: false,
            timed: false,
            raw: false,
            failed,
            subsec: false,
            utc: false,
            local: false,
        }
    }

    pub fn blank() -> Moment
        ensures { (held result ≡ rule.blank) × After 0 (held result) }
    {
        Moment::unknown(false)
    }

    // "A failed field sum leaves the Rust's error record."
    fn failure() -> Moment
        ensures { held result ≡ rule.failure }
    {
        Moment::unknown(true)
    }

    // ---- setters: what one does not name stays

    // The fields no longer stand: the Rust's clear_ymd_hms_tz.
    pub fn clear(mut self) -> Moment
        ensures { Filled self result (rule.clear (held self)) }
    {
        self.dated = false;
        self.timed = false;
        self.zone = NO_ZONE;
        self
    }

    pub(crate) fn known_utc(mut self) -> Moment
        ensures { Filled self result (rule.set_utc (held self)) }
    {
        self.utc = true;
        self.local = false;
        self
    }

    pub fn with_subsec(mut self) -> Moment
        ensures { Filled self result (rule.set_subsec (held self) true) }
    {
        self.subsec = true;
        self
    }

    pub fn on_date(mut self, date: Ymd) -> Moment
        requires { ReadYear date.year × MonthDay date.month date.day }
        ensures { Filled self result (rule.on_date (held self) date) }
    {
        self.year = date.year;
        self.month = date.month;
        self.day = date.day;
        self.dated = true;
        self
    }

    // ---- milliseconds from fields: the Rust's compute_jd

    // The date that is summed: 2000-01-01 where none stands.
    fn date_meant(self) -> Ymd
        ensures { result ≡ date_meant (held self) }
    {
        if self.dated {
            return Ymd {
                year: self.year,
                month: self.month,
                day: self.day,
            };
        }
        UNKNOWN_DATE
    }

    // And the time of day, with its zone: midnight and none where none stands.
    #[tactic(auto, using(real::proofs::Literals::nil))]
    fn time_meant(self) -> Time
        ensures { result ≡ time_meant (held self) }
    {
        if self.timed {
            return Time {
                hour: self.hour,
                minute: self.minute,
                second: self.second,
                zone: self.zone,
                utc: false,
            };
        }
        Time {
            hour: 0,
            minute: 0,
            second: 0.0,
            zone: NO_ZONE,
            utc: false,
        }
    }

    // The milliseconds of the fields. Where a zone was taken off, they no longer stand.
    fn summed(mut self, ms: u64, zone: u32) -> Moment
        ensures { held result ≡ summed_to (held self) ms zone }
    {
        self.ms = ms;
        self.counted = true;
        if zone == NO_ZONE {
            return self;
        }
        self.clear().known_utc()
    }

    // The milliseconds, where they do not stand. Where the fields are not summed, the error record is left.
    pub fn count_ms(self) -> Moment
        ensures { Filled self result (rule.count_ms (held self)) }
    {
        if self.counted {
            return self;
        }
        let d = self.date_meant();
        if !summable(d.year, self.raw) {
            return Moment::failure();
        }
        let t = self.time_meant();
        let ms = instant(d.year, d.month, d.day, t.hour, t.minute, t.second, t.zone);
        self.summed(ms, t.zone)
    }

    // The zone of a date and time that were read is taken off at once; without one the record stays.
    pub fn settled(self) -> Moment
        ensures { Filled self result (reading.settled (held self)) }
    {
        if self.zone == NO_ZONE {
            return self;
        }
        self.count_ms()
    }

    // ---- fields from milliseconds: the Rust's compute_ymd and compute_hms

    // "Milliseconds to fields takes 0 to the last"; out of it the error record is left.
    #[tactic(auto, unfolding(rules::specs::Moments::fill_date))]
    pub fn fill_date(self) -> Moment
        ensures { Filled self result (rule.fill_date (held self)) }
    {
        if self.dated {
            return self;
        }
        if !self.counted {
            return self.on_date(UNKNOWN_DATE);
        }
        let Some(at) = Instant::new(self.ms) else {
            return Moment::failure();
        };
        self.on_date(at.civil())
    }

    // The time of day t milliseconds after midnight.
    fn on_time(mut self, t: u32) -> Moment
        requires { t < 86400000 }
        ensures { held result ≡ rule.on_time (held self) t }
    {
        self.hour = t / 3600000;
        self.minute = t / 60000 % 60;
        self.second = (t % 60000) as f64 / 1000.0;
        self.raw = false;
        self.timed = true;
        self
    }

    pub fn fill_time(self) -> Moment
        ensures { Filled self result (rule.fill_time (held self)) }
    {
        if self.timed {
            return self;
        }
        let p = self.count_ms();
        p.on_time(calendar::time_of_day(p.ms))
    }

    // Both, where one of them is missing.
    pub(crate) fn filled(self) -> Moment
        ensures { Filled self result (rule.fill (held self)) }
    {
        self.fill_date().fill_time()
    }

    #[tactic(auto, unfolding(rules::specs::Moments::fill, rules::specs::Moments::fill_date, rules::specs::Moments::fill_time))]
    pub fn fill(self) -> Moment
        ensures { Filled self result (rule.fill (held self)) }
    {
        if self.dated && self.timed {
            return self;
        }
        self.filled()
    }

    // ---- the month's end: the Rust's compute_floor

    #[tactic(auto, unfolding(rules::specs::Moments::past_end))]
    pub fn past_end(mut self) -> Moment
        ensures { Filled self result (rule.past_end (held self)) }
    {
        let length = calendar::month_length(self.year, self.month);
        self.over = self.day.saturating_sub(length);
        self
    }

    // ---- what is read

    // A record of which that time is known.
    pub fn timed(t: Time) -> Moment
        requires { TimeRead t }
        ensures { (held result ≡ reading.timed t) × After 0 (held result) }
    {
        let mut p = Moment::blank();
        p.hour = t.hour;
        p.minute = t.minute;
        p.second = t.second;
        p.timed = true;
        p.zone = t.zone;
        if t.utc { p.known_utc() } else { p }
    }

    // A record of which that instant is known, and that it is UTC.
    pub fn at(instant: Instant) -> Moment
        ensures { (held result ≡ rule.set_utc (rule.counted rule.blank instant.ms)) × After 0 (held result) }
    {
        let mut p = Moment::blank();
        p.ms = instant.ms;
        p.counted = true;
        p.known_utc()
    }

    // The clock, which is UTC.
    pub fn now(mut self, clock: Clock) -> Moment
        ensures { Filled self result (reading.now clock.ms (held self)) }
    {
        self.ms = UNIX_EPOCH + clock.ms;
        self.counted = true;
        self.known_utc()
    }

    // "A number n with 0 <= n < 5373484.5 is also a Julian day."
    #[tactic(auto, using(real::proofs::Epoch::julian_ms_lem))]
    pub fn raw_number(n: f64) -> Moment
        ensures { (held result ≡ reading.raw_number n) × After 0 (held result) }
    {
        let mut p = Moment::blank();
        p.second = n;
        p.raw = true;
        if !real::is_julian(n) {
            return p;
        }
        p.ms = ZERO + real::julian_ms(n);
        p.counted = true;
        p
    }
}
