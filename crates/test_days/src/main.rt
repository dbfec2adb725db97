// Every day from -4713-11-24 to 9999-12-31, from its number to its date and back, with weekday, day of the year, ISO year and ISO week.
// Prints a line for each thousand years: the first year, the number of days, and two digests of what was found on each day.
//
// The file stdout, to which the output must be equal, was not written by this program. It holds what the Rust gives for the same days
// (`oracle days` in oracle/): if the two are equal, both calendars agree on every day.
#![tactic(auto)]

ghost use Rattle.std.specs.Prelude.{◌≤◌, ◌<◌};

use calendar::Instant;
use std::io::Stdout;

// The millisecond 0 as held: noon of -4713-11-24, here the day 0.
const NOON: u64 = 9223372036854775808;

// That day in calendar's count, which begins on -4713-01-01.
const DAY_ZERO: u32 = 327;

// 9999-12-31.
const LAST: u32 = 5373484;

// The years 0 and -4800 as held.
const YEAR_0: u32 = 40000;

const YEAR_LOW: u32 = 35200;

// Two digests of the numbers taken in so far.
#[derive(Clone, Copy)]
pub struct Digests {
    pub a: u64,
    pub b: u64,
    ghost a_reduced: { a < 2147483647 },
    ghost b_reduced: { b < 2147483629 },
}

// A day, from the day 0 on.
#[derive(Clone, Copy)]
pub struct Day {
    pub number: u32,
    ghost within: { number ≤ 5373484 },
}

impl Day {
    fn noon(self) -> Instant {
        let ms = NOON + u64::from(self.number) * 86400000;
        Instant { ms }
    }

    // Its year, as held.
    fn year(self) -> u32 {
        self.noon().civil().year
    }
}

// The day of a noon, found back from its date.
fn day_back(noon: Instant) -> u32 {
    calendar::days_to(noon.civil()) - DAY_ZERO
}

impl Digests {
    // With one number more.
    fn with(self, x: u32) -> Digests {
        Digests {
            a: (self.a * 1000003 + u64::from(x)) % 2147483647,
            b: (self.b * 48271 + u64::from(x)) % 2147483629,
        }
    }

    // With the numbers of a date more: year, month, day, weekday, day of the year.
    fn with_date(self, noon: Instant) -> Digests {
        let date = noon.civil();
        self.with(date.year - YEAR_LOW)
            .with(date.month)
            .with(date.day)
            .with(noon.since_sunday())
            .with(calendar::day_of_year(date) + 1)
    }

    // With the ISO year and the ISO week more.
    fn with_week(self, noon: Instant) -> Digests {
        self.with(noon.thursday().year - YEAR_LOW)
            .with(noon.iso_week())
    }

    // With all eight numbers of a day more.
    fn with_day(self, day: Day) -> Digests {
        let noon = day.noon();
        self.with_date(noon).with_week(noon).with(day_back(noon))
    }
}

// The digests of the days of a thousand years, from the first of them on, and the number of the first day after them.
fn walked(first: Day) -> (Digests, u32)
    ensures { (first.number < result.1) × (result.1 ≤ 5373485) }
{
    let thousand = first.year() / 1000;
    let mut digests = Digests { a: 0, b: 0 }.with_day(first);
    for number in first.number + 1..=LAST {
        let day = Day { number };
        if day.year() / 1000 != thousand {
            return (digests, number);
        }
        digests = digests.with_day(day);
    }
    (digests, LAST + 1)
}

// A year as people write it, with a minus before 0.
fn say_year(stdout: &mut Stdout, year: u32) {
    if year < YEAR_0 {
        rows::say(stdout, b"-");
    }
    rows::decimal(stdout, u64::from(year.abs_diff(YEAR_0)));
}

// A number after a space.
fn say_next(stdout: &mut Stdout, n: u64) {
    rows::say(stdout, b" ");
    rows::decimal(stdout, n);
}

fn main(rt: HostRuntime) {
    let mut stdout = rt.stdout();
    let mut number = 0;
    while number <= LAST {
        let first = Day { number };
        let (digests, next) = walked(first);
        say_year(&mut stdout, first.year());
        say_next(&mut stdout, u64::from(next - number));
        say_next(&mut stdout, digests.a);
        say_next(&mut stdout, digests.b);
        rows::say(&mut stdout, b"\n");
        number = next;
    }
}
