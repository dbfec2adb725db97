// Whole Unix milliseconds, for loggers: of the moment that a call is about, and as a text.
ghost use Rattle.std.specs.Prelude.{◌≡◌, ◌↔◌, true, length, IsSome, IfSome};
ghost use Rattle.rules.specs.Calendar.{in_range};
ghost use Rattle.rules.specs.Calls.{value_of, answered, after};
ghost use Rattle.rules.specs.Moments as moments;
ghost use Rattle.rules.specs.Writing.{since_epoch};
ghost use Rattle.moment.specs.Held.{held};
ghost use Rattle.moment.specs.Ranges.{Full};
ghost use Rattle.datetime.specs.Given.{Gives};
ghost use Rattle.dangsoviey.specs.Replies.{given_of, reply_of};
ghost use Rattle.dangsoviey.specs.Milliseconds as rule;
ghost use Rattle.dangsoviey.specs.Milliseconds.{instant_of};

use crate::{Reply, given_of};
use calendar::Instant;
use datetime::{calls, texts};
use moment::Moment;
use rules::{Answer, Given, Refusal, Setting, Unanswered};

// The Unix epoch, as milliseconds are held.
const UNIX_EPOCH: u64 = 9223582903614775808;

// Milliseconds from 1970, with their sign: of an instant each fits. (Real's `signed` takes any milliseconds, from another start.)
fn since_epoch(at: Instant) -> i64
    ensures { result ≡ since_epoch at.ms }
{
    if at.ms >= UNIX_EPOCH {
        (at.ms - UNIX_EPOCH) as i64
    } else {
        -((UNIX_EPOCH - at.ms) as i64)
    }
}

#[tactic(auto, unfolding(crate::specs::Milliseconds::milliseconds, rules::specs::Calls::answered))]
fn milliseconds(
    set: Setting,
    given: Given,
    value: &[u8],
    modifiers: &[u8],
) -> Result<Answer, Unanswered>
    ensures { result ≡ answered (rule.milliseconds set (value_of given value.now) modifiers.now) 0 }
{
    let p = calls::moment_of(set, given, value, modifiers)?;
    Ok(Answer::Integer(since_epoch(Instant { ms: p.ms })))
}

// The moment that a call is about, as whole milliseconds from 1970-01-01 UTC: an integer.
#[unsafe(no_mangle)]
pub extern "C" fn dangsoviey_milliseconds(
    clock: u64,
    offset: i64,
    given: u32,
    integer: i64,
    real: f64,
    value: &[u8],
    modifiers: &[u8],
) -> Reply
    ensures { result ≡ reply_of (answered (rule.milliseconds (record { clock = clock; offset = offset }) (value_of (given_of given integer real) value.now) modifiers.now) 0) }
{
    let set = Setting { clock, offset };
    let at = given_of(given, integer, real);
    milliseconds(set, at, value, modifiers).into()
}

// The instant so many milliseconds from 1970, if the millisecond 0 to the last has it.
fn instant(ms: i64) -> Option<Instant>
    ensures some { IsSome result ↔ (in_range (instant_of ms) ≡ true) }
    ensures value { IfSome result (λ at. at.ms ≡ instant_of ms) }
{
    Instant::new(UNIX_EPOCH.saturating_add_signed(ms))
}

// Its record, with subsec, all its fields filled.
fn stamped(at: Instant) -> Moment
    ensures value { held result ≡ moments.fill (moments.set_subsec (moments.set_utc (moments.counted moments.blank at.ms)) true) }
    ensures full { Full (held result) }
{
    Moment::at(at).with_subsec().fill()
}

#[tactic(auto, unfolding(crate::specs::Milliseconds::stamp, crate::specs::Milliseconds::stamped, rules::specs::Calls::answered, rules::specs::Calls::after))]
fn stamp(ms: i64, out: &mut [u8]) -> Result<Answer, Unanswered>
    ensures { Gives (rule.stamp ms) out.old out.new result }
{
    let at = instant(ms).ok_or(Refusal::Null)?;
    texts::datetime(stamped(at), out)
}

// YYYY-MM-DD HH:MM:SS.SSS of a count of milliseconds from 1970-01-01 UTC.
#[unsafe(no_mangle)]
pub extern "C" fn dangsoviey_stamp(ms: i64, out: &mut [u8]) -> Reply
    ensures value { result ≡ reply_of (answered (rule.stamp ms) (length out.old)) }
    ensures out_after { out.new ≡ after (rule.stamp ms) out.old }
{
    stamp(ms, out).into()
}
