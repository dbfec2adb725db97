// The modifiers' steps: what each does to the record. Which modifier a text is, and the numbers in it, are read elsewhere.
//
// A step that moves the milliseconds takes a record to which at most 15 modifiers came before (`Movable`), and one more has come to what it
// hands back (`Moved`). One that only fills takes any, and hands back one that is no further (`Filled`).
// `Movable` is a clause and no type: how far the milliseconds may have gone depends on how many modifiers came before, so such a type would
// be made anew at each turn of the walk and taken off at each step. So is `≤ step_most`, which is asked of a count on its way into a step.
ghost use Rattle.std.specs.Prelude.{◌≡◌, false, not, ◌&&◌, ◌||◌, [], ◌+◌, ◌*◌, ◌^◌, ◌≤◌, ◌<◌, unsigned_abs};
ghost use Rattle.rules.specs.Basics.{move};
ghost use Rattle.rules.specs.Calendar.{in_range};
ghost use Rattle.rules.specs.Floats.{cut};
ghost use Rattle.rules.specs.Functions as functions;
ghost use Rattle.rules.specs.Moments as rule;
ghost use Rattle.rules.specs.Modifiers as modifiers;
ghost use Rattle.rules.specs.Modifiers.{nearest_ms, fraction_ms, days_on};
ghost use Rattle.real.specs.StepMost.{step_most};
ghost use Rattle.moment.specs.Held.{held};
ghost use Rattle.moment.specs.Ranges.{ReadYear, Movable, Filled, Moved, Answered, Ranged, Lands};
ghost use Rattle.moment.specs.Steps.{length_on, months_on, time_on, date_on, first_of_month, first_of_year};

use crate::fields::{NO_ZONE, ZERO};
use crate::{Moment, Offset};
use calendar::Instant;
use rules::Refusal;

// The milliseconds of a day.
const DAY: u64 = 86400000;

// The start of -4713-11-23, a Sunday.
const SUNDAY: u64 = 9223372036725175808;

// A number and one with a sign, where their sum fits.
fn sum(n: u64, by: i64) -> u64
    requires { (unsigned_abs by ≤ n) × (n + unsigned_abs by < 2 ^ 64) }
    ensures { result ≡ move n by 1 }
{
    let size = by.unsigned_abs();
    if by < 0 { n - size } else { n + size }
}

// The days on to the next day n of the week (0 is Sunday), none if t is one. Before SUNDAY the Rust's quotient and remainder, cut toward
// zero, are not the day of the week; they are kept.
#[tactic(auto, unfolding(rules::specs::Modifiers::days_on))]
fn days_on(n: u64, t: u64) -> u64
    requires { n ≤ 6 }
    ensures { (result ≡ days_on n t) × (result ≤ 12) }
{
    if t < SUNDAY {
        return n + (SUNDAY - t) / DAY % 7;
    }
    let w = (t - SUNDAY) / DAY % 7;
    if n < w { n + 7 - w } else { n - w }
}

impl Moment {
    // ---- setters

    fn known_local(mut self) -> Moment
        ensures { Filled self result (rule.set_local (held self)) }
    {
        self.utc = false;
        self.local = true;
        self
    }

    fn not_raw(mut self) -> Moment
        ensures { Filled self result (rule.set_raw (held self) false) }
    {
        self.raw = false;
        self
    }

    fn not_over(mut self) -> Moment
        ensures { Filled self result (rule.set_over (held self) 0) }
    {
        self.over = 0;
        self
    }

    fn uncounted(mut self) -> Moment
        ensures { Filled self result (rule.set_counted (held self) false) }
    {
        self.counted = false;
        self
    }

    // The milliseconds moved, and the fields then no longer stand. The sum fits: `Movable` says so.
    fn moved(mut self, by: i64) -> Moment
        requires { Movable (held self) × (unsigned_abs by ≤ step_most) }
        ensures { Moved self result (rule.clear (rule.moved (held self) by 1)) }
    {
        self.ms = sum(self.ms, by);
        self.clear()
    }

    // ---- "`auto`, `julianday`, `unixepoch`: first only."

    // The milliseconds are those of r, and nothing else stands.
    fn at_ms(mut self, r: f64) -> Moment
        requires { nearest_ms r ≤ 464269060800000 }
        ensures { Filled self result (modifiers.at_ms (held self) r) }
    {
        self.ms = ZERO + real::nearest_ms(r);
        self.counted = true;
        self.raw = false;
        self.clear()
    }

    // "`auto` takes -210866760000 to 253402300799 if the number is no Julian day." Out of it the number stays as it is.
    #[tactic(auto, using(real::proofs::Epoch::auto_ms), unfolding(rules::specs::Modifiers::auto))]
    pub fn auto(self) -> Moment
        ensures { Filled self result (modifiers.auto (held self)) }
    {
        if !self.raw || self.counted {
            return self.not_raw();
        }
        if !real::is_auto(self.second) {
            return self;
        }
        self.at_ms(real::from_epoch(self.second))
    }

    // A number that is a Julian day.
    pub fn julian(self) -> Result<Moment, Refusal>
        ensures { Answered self result (modifiers.julian (held self)) }
    {
        if !self.counted || !self.raw {
            return Err(Refusal::Null);
        }
        Ok(self.not_raw())
    }

    // "`unixepoch` needs a raw number; r must have 0 <= r < 464269060800000, so NaN is refused."
    #[tactic(auto, using(real::proofs::Epoch::unix_ms), unfolding(rules::specs::Modifiers::unix))]
    pub fn unix(self) -> Result<Moment, Refusal>
        ensures { Answered self result (modifiers.unix (held self)) }
    {
        if !self.raw {
            return Err(Refusal::Null);
        }
        let r = real::from_epoch(self.second);
        if !real::is_unix(r) {
            return Err(Refusal::Null);
        }
        Ok(self.at_ms(r))
    }

    // ---- "`ceiling`, `floor`, `start of day/month/year`, `weekday N`, `localtime`, `utc`: as the Rust."

    // The day past its month's end stands as it ran over.
    pub fn ceiling(self) -> Moment
        ensures { Filled self result (modifiers.ceiling (held self)) }
    {
        self.count_ms().clear().not_over()
    }

    // The last day of the month that was meant.
    pub fn floor(self) -> Moment
        requires { Movable (held self) }
        ensures { Moved self result (modifiers.floor (held self)) }
    {
        let p = self.count_ms();
        p.moved(-((p.over as u64 * DAY) as i64)).not_over()
    }

    // The offset is "one for the call", "at any millisecond".
    pub fn localtime(self, offset: Offset) -> Moment
        requires { Movable (held self) }
        ensures { Moved self result (modifiers.localtime offset.seconds (held self)) }
    {
        if self.local {
            return self;
        }
        self.count_ms().moved(offset.seconds * 1000).known_local()
    }

    pub fn utc(self, offset: Offset) -> Moment
        requires { Movable (held self) }
        ensures { Moved self result (modifiers.utc offset.seconds (held self)) }
    {
        if self.utc {
            return self;
        }
        self.count_ms().moved(-offset.seconds * 1000).known_utc()
    }

    pub fn to_weekday(self, n: u32) -> Moment
        requires { Movable (held self) × (n ≤ 6) }
        ensures { Moved self result (modifiers.to_weekday n (held self)) }
    {
        let p = self.fill().uncounted().count_ms();
        p.moved((days_on(n as u64, p.ms) * DAY) as i64)
    }

    // Whether there is anything of which a day could begin.
    pub fn stands(self) -> bool
        ensures { result ≡ (self.counted || (self.dated || self.timed)) }
    {
        self.counted || self.dated || self.timed
    }

    pub fn start_of_day(self) -> Moment
        ensures { Filled self result (modifiers.day_start (held self)) }
    {
        let mut p = self.fill_date();
        p.hour = 0;
        p.minute = 0;
        p.second = 0.0;
        p.timed = true;
        p.raw = false;
        p.counted = false;
        p.zone = NO_ZONE;
        p.over = 0;
        p
    }

    pub fn start_of_month(self) -> Moment
        ensures { Filled self result (first_of_month (modifiers.day_start (held self))) }
    {
        let mut p = self.start_of_day();
        p.day = 1;
        p
    }

    pub fn start_of_year(self) -> Moment
        ensures { Filled self result (first_of_year (modifiers.day_start (held self))) }
    {
        let mut p = self.start_of_day();
        p.month = 1;
        p.day = 1;
        p
    }

    // ---- "`N unit`", "`[sign]YYYY-MM-DD[ time]`", "`[sign]HH:MM[:SS[.F]]`"

    pub fn by_time(self, ms: i64) -> Moment
        requires { Movable (held self) × (unsigned_abs ms ≤ step_most) }
        ensures { Moved self result (time_on ms (held self)) }
    {
        self.count_ms().moved(ms)
    }

    // A number of units of a fixed length, in milliseconds.
    pub fn by_length(self, ms: i64) -> Moment
        requires { Movable (held self) × (unsigned_abs ms ≤ step_most) }
        ensures { Moved self result (length_on ms (held self)) }
    {
        self.by_time(ms).not_over()
    }

    // "A month shift keeps the day, which may then run over." "months below one are normalised by signed division": no count of months from
    // the year held as 0 is below one.
    #[tactic(auto, unfolding(rules::specs::Moments::shift))]
    pub fn shift(mut self, months: i64) -> Moment
        requires { ReadYear self.year × (unsigned_abs months ≤ 176545) }
        ensures { held result ≡ rule.shift (held self) months 1 }
    {
        let month = (self.year * 12 + (self.month - 1)) as u64;
        let shifted = sum(month, months);
        self.year = (shifted / 12) as u32;
        self.month = (shifted % 12) as u32 + 1;
        self
    }

    // The months first, then the days and the time.
    pub fn by_date(self, months: i64, ms: i64) -> Moment
        requires { Movable (held self) × (unsigned_abs months ≤ 176545) × (unsigned_abs ms ≤ step_most) }
        ensures { Moved self result (date_on months ms (held self)) }
    {
        self.fill()
            .uncounted()
            .shift(months)
            .past_end()
            .count_ms()
            .moved(ms)
    }

    // n units of k months: the whole part shifts months, and of the fraction a whole unit counts as so many days.
    pub fn by_months(self, n: f64, k: u32, days: f64) -> Moment
        requires { Movable (held self) × (unsigned_abs (cut n) * k ≤ 176545) × (unsigned_abs (fraction_ms days n) ≤ step_most) }
        ensures { Moved self result (months_on k days n (held self)) }
    {
        self.by_date(real::cut(n) * k as i64, real::fraction_ms(days, n))
    }

    // ---- for the functions

    // Whether the milliseconds stand for an instant: no sum failed, and they are 0 to the last.
    pub fn in_range(self) -> bool
        ensures { result ≡ (not self.failed && in_range self.ms) }
    {
        !self.failed && Instant::new(self.ms).is_some()
    }

    // "final range": a failed sum, or a time outside 0 to the last millisecond, gives 1.
    pub fn ranged(self) -> Result<Moment, Refusal>
        ensures { Answered self result (functions.ranged (held self)) × Lands Ranged result }
    {
        let p = self.count_ms();
        if !p.in_range() {
            return Err(Refusal::Null);
        }
        Ok(p)
    }

    // "With no modifier, date, time and datetime renew a day above 28 from the milliseconds."
    pub fn renewed(mut self) -> Moment
        ensures { Filled self result (functions.renewed [] (held self)) }
    {
        if self.day <= 28 {
            return self.fill();
        }
        self.dated = false;
        self.filled()
    }
}
