// The proleptic Gregorian calendar, with a year 0: from milliseconds to year, month and day and back, days of the week and ISO weeks.
//
// Years and milliseconds are held as rules holds them: 2024 as 42024, the millisecond 0 as 2^63. A day is counted from -4713-01-01, the
// day 0. -4713-11-24, whose noon is the millisecond 0, is the day 327, and 1970-01-01 the day 2440915. The last, 9999-12-31, is 5373811.
//
// How `date_after` finds a date. A year that begins on 1 March has its leap day, if any, at its end. So let n be the days since 1 March of
// -4800, held as 35200, a multiple of 400: the day 0 is n = 31717. Count in quarters of a day: 4 n + 3 is the last quarter of the day n.
// - A century has 146097 quarters on the average: 36524 days, and each fourth, which ends with the leap day of a multiple of 400, one more.
//   So the century is (4 n + 3) / 146097, and the rest of that division over 4 is the day of the century, b.
// - A year of it has 1461 quarters on the average: 365 days, and each fourth one more. So the year is (4 b + 3) / 1461, and the rest over 4
//   is the day of the year, x. (The hundredth year has its 366th day only in a century that is long enough.)
// - From March on, months have 31 30 31 30 31 days, again 31 30 31 30 31, then 31 and what is left: five have 153. So month m, from 0 for
//   March to 11 for February, begins at x = (153 m + 2) / 5, and m is (5 x + 2) / 153. January and February are the next year's.
// For days 0 to 5373811 the century is at most 147, b 36524, the year of the century 99, x 365.
//
// `Countable` and `MonthDay` are clauses and no types: rules' Ymd is a record of the definitions, so it holds any numbers.
#![tactic(auto)]

ghost use Rattle.std.specs.Prelude.{if◌then◌else◌, ◌≡◌, ◌+◌, ◌≤◌, ◌<◌, ◌↔◌, IsSome, IfSome};
ghost use Rattle.rules.specs.Calendar as rule;
ghost use Rattle.calendar.specs.Ranges.{last_day, MonthDay, Countable, InRange};

use rules::Ymd;

// The milliseconds of a day.
const DAY: u64 = 86400000;

// The millisecond 0 and the last.
const ZERO: u64 = 9223372036854775808;

const LAST: u64 = 9223836305915575807;

// The millisecond at which -4713-01-01 begins.
const START: u64 = 9223372008558775808;

// The day -4713-11-24, a Monday.
const DAY_ZERO: u32 = 327;

// The lengths of the months, in common years and in leap years.
const LENGTHS: [[u8; 12]; 2] = [
    [31, 28, 31, 30, 31, 30, 31, 31, 30, 31, 30, 31],
    [31, 29, 31, 30, 31, 30, 31, 31, 30, 31, 30, 31],
];

// The same added up: the days of a year before each month.
const BEFORE: [[u16; 12]; 2] = [
    [0, 31, 59, 90, 120, 151, 181, 212, 243, 273, 304, 334],
    [0, 31, 60, 91, 121, 152, 182, 213, 244, 274, 305, 335],
];

// A time from the millisecond 0 to the last.
#[derive(Clone, Copy)]
pub struct Instant {
    pub ms: u64,
    pub ghost in_range: { InRange ms },
}

// Whether a year is leap: "A year is leap if 4 divides it and 100 does not, or 400 does."
#[tactic(auto, unfolding(rules::specs::Calendar::leap))]
pub fn is_leap(year: u32) -> bool
    ensures { result ≡ rule.leap year }
{
    year % 4 == 0 && year % 100 != 0 || year % 400 == 0
}

// The days of a month.
pub fn month_length(year: u32, month: u32) -> u32
    requires { (1 ≤ month) × (month ≤ 12) }
    ensures { (result ≡ rule.month_length year month) × (28 ≤ result) × (result ≤ 31) }
{
    u32::from(LENGTHS[usize::from(is_leap(year))][month as usize - 1])
}

// The days of the year before a day: 0 on 1 January. The day may lie past its month's end.
pub fn day_of_year(date: Ymd) -> u32
    requires { MonthDay date.month date.day }
    ensures { (result ≡ rule.day_of_year date.year date.month date.day) × (result ≤ 365) }
{
    u32::from(BEFORE[usize::from(is_leap(date.year))][date.month as usize - 1]) + date.day - 1
}

// The days from -4713-01-01 to a date, whose day may lie past its month's end: 365 for each year and one for each leap year before this
// one. Both are counted from the year held as 0, and what comes before -4713 is taken off.
pub fn days_to(date: Ymd) -> u32
    requires { Countable date.year date.month date.day }
    ensures { (result ≡ rule.days_to date.year date.month date.day) × (result ≤ last_day) }
{
    let past = date.year - 1;
    365 * date.year + past / 4 - past / 100 + past / 400 - 12888312 + day_of_year(date)
}

// The date that many days after -4713-01-01. The head of this file derives it.
pub fn date_after(days: u32) -> Ymd
    requires { days ≤ last_day }
    ensures { (result ≡ rule.date_after days) × Countable result.year result.month result.day }
{
    let quarters = 4 * (days + 31717) + 3;
    let century = quarters / 146097;
    let in_century = 4 * (quarters % 146097 / 4) + 3;
    let year = 35200 + 100 * century + in_century / 1461;
    let x = in_century % 1461 / 4;
    let month = (5 * x + 2) / 153;
    let day = x - (153 * month + 2) / 5 + 1;
    if month < 10 {
        Ymd {
            year,
            month: month + 3,
            day,
        }
    } else {
        Ymd {
            year: year + 1,
            month: month - 9,
            day,
        }
    }
}

// The millisecond at which a date begins, START at the earliest. Its day may lie past its month's end.
#[tactic(auto, using(crate::proofs::Instants::start_is), unfolding(rules::specs::Calendar::midnight))]
pub fn midnight(date: Ymd) -> u64
    requires { Countable date.year date.month date.day }
    ensures { (result ≡ rule.midnight date.year date.month date.day) × (9223372008558775808 ≤ result) × (result + 86399999 ≤ rule.last) }
{
    START + u64::from(days_to(date)) * DAY
}

// The milliseconds since midnight, for any milliseconds. Before -4713-01-01, where no day is counted, the rules say 0.
#[tactic(auto, using(crate::proofs::Instants::start_is), unfolding(rules::specs::Calendar::time_of_day))]
pub fn time_of_day(ms: u64) -> u32
    ensures { (result ≡ rule.time_of_day ms) × (result < 86400000) }
{
    (ms.saturating_sub(START) % DAY) as u32
}

impl Instant {
    pub fn new(ms: u64) -> Option<Instant>
        ensures some { IsSome result ↔ InRange ms }
        ensures value { IfSome result (λ at. at.ms ≡ ms) }
    {
        if ms < ZERO || LAST < ms {
            return None;
        }
        Some(Instant { ms })
    }

    // The days from -4713-01-01 on: DAY_ZERO at the earliest.
    #[tactic(auto, using(crate::proofs::Instants::start_is), unfolding(rules::specs::Calendar::day_of))]
    pub fn day_of(self) -> u32
        ensures { (result ≡ rule.day_of self.ms) × (327 ≤ result) × (result ≤ last_day) }
    {
        ((self.ms - START) / DAY) as u32
    }

    // The date.
    #[tactic(auto, unfolding(rules::specs::Calendar::civil))]
    pub fn civil(self) -> Ymd
        ensures { (result ≡ rule.civil self.ms) × Countable result.year result.month result.day }
    {
        date_after(self.day_of())
    }

    // The days since Monday: 0 on Monday to 6 on Sunday.
    #[tactic(auto, using(crate::proofs::Instants::day_zero_lem), unfolding(rules::specs::Calendar::since_monday))]
    pub fn since_monday(self) -> u32
        ensures { (result ≡ rule.since_monday self.ms) × (result ≤ 6) }
    {
        (self.day_of() - DAY_ZERO) % 7
    }

    // The days since Sunday: 0 on Sunday to 6 on Saturday.
    #[tactic(auto, using(crate::proofs::Instants::day_zero_lem), unfolding(rules::specs::Calendar::since_sunday))]
    pub fn since_sunday(self) -> u32
        ensures { (result ≡ rule.since_sunday self.ms) × (result ≤ 6) }
    {
        (self.day_of() - DAY_ZERO + 1) % 7
    }

    // The Thursday of the week, which goes from Monday to Sunday: its year is the ISO year.
    #[tactic(auto, using(crate::proofs::Weeks::thursday_high), unfolding(rules::specs::Calendar::thursday))]
    pub fn thursday(self) -> Ymd
        ensures { (result ≡ rule.thursday self.ms) × Countable result.year result.month result.day }
    {
        date_after(self.day_of() + 3 - self.since_monday())
    }

    // The ISO week, from 1.
    #[tactic(auto, unfolding(rules::specs::Calendar::iso_week))]
    pub fn iso_week(self) -> u32
        ensures { (result ≡ rule.iso_week self.ms) × (1 ≤ result) × (result ≤ 53) }
    {
        day_of_year(self.thursday()) / 7 + 1
    }
}
