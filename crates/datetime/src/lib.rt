// The seven functions, as anyone may call them: any bytes, any numbers, any buffer.
//
// Each call gives an answer or one numbered refusal, exactly as crate rules' `answer` says. `answered` says what then comes back, and
// `after` what the lent buffer holds: the answer's bytes from its first byte on, every other byte as it was; after a refusal, all of them
// as they were.
//
// docs/PROMISES.md names each function. Five of them are two lines each: one with the last step as a closure would state the closure's
// contract in place of those lines.
//
// A time value is what is `given`; where that is Bytes, they are `value`. Modifiers lie in one buffer, each ended by a zero byte.
#![tactic(auto)]

ghost use Rattle.std.specs.Prelude.{◌≡◌, length};
ghost use Rattle.rules.specs.Calls.{value_of, call, strftime, timediff, answered, after};
ghost use Rattle.rules.specs.Functions.{answer};
ghost use Rattle.rules.specs.Functions as rule;
ghost use Rattle.rules.specs.declared.Function.{Function};
ghost use Rattle.moment.specs.Held.{held};
ghost use Rattle.moment.specs.Ranges.{Full};
ghost use Rattle.datetime.specs.Opened.{Ready};

use moment::Moment;
use rules::{Answer, Given, Setting, Unanswered};

pub mod calls;
pub mod texts;

// "With no modifier, date, time and datetime renew a day above 28 from the milliseconds."
#[tactic(auto, unfolding(rules::specs::Functions::renewed))]
fn renewed(modifiers: &[u8], p: Moment) -> Moment
    requires { Ready (held p) }
    ensures value { held result ≡ rule.renewed modifiers.now (held p) }
    ensures full { Full (held result) }
{
    if modifiers.is_empty() {
        return p.renewed();
    }
    p.fill()
}

// YYYY-MM-DD.
#[tactic(auto, using(crate::proofs::Answers::called), unfolding(rules::specs::Calls::answered, rules::specs::Calls::after, rules::specs::Functions::outcome_of))]
pub fn date(
    set: Setting,
    given: Given,
    value: &[u8],
    modifiers: &[u8],
    out: &mut [u8],
) -> Result<Answer, Unanswered>
    ensures value { result ≡ answered (answer set (call Function.Date (value_of given value.now) modifiers.now)) (length out.old) }
    ensures out_after { out.new ≡ after (answer set (call Function.Date (value_of given value.now) modifiers.now)) out.old }
{
    let p = calls::moment_of(set, given, value, modifiers)?;
    texts::date(renewed(modifiers, p), out)
}

// HH:MM:SS, and three decimals with subsec.
#[tactic(auto, using(crate::proofs::Answers::called), unfolding(rules::specs::Calls::answered, rules::specs::Calls::after, rules::specs::Functions::outcome_of))]
pub fn time(
    set: Setting,
    given: Given,
    value: &[u8],
    modifiers: &[u8],
    out: &mut [u8],
) -> Result<Answer, Unanswered>
    ensures value { result ≡ answered (answer set (call Function.Time (value_of given value.now) modifiers.now)) (length out.old) }
    ensures out_after { out.new ≡ after (answer set (call Function.Time (value_of given value.now) modifiers.now)) out.old }
{
    let p = calls::moment_of(set, given, value, modifiers)?;
    texts::time(renewed(modifiers, p), out)
}

// The date, a space and the time.
#[tactic(auto, using(crate::proofs::Answers::called), unfolding(rules::specs::Calls::answered, rules::specs::Calls::after, rules::specs::Functions::outcome_of))]
pub fn datetime(
    set: Setting,
    given: Given,
    value: &[u8],
    modifiers: &[u8],
    out: &mut [u8],
) -> Result<Answer, Unanswered>
    ensures value { result ≡ answered (answer set (call Function.Datetime (value_of given value.now) modifiers.now)) (length out.old) }
    ensures out_after { out.new ≡ after (answer set (call Function.Datetime (value_of given value.now) modifiers.now)) out.old }
{
    let p = calls::moment_of(set, given, value, modifiers)?;
    texts::datetime(renewed(modifiers, p), out)
}

// The Julian day, as an f64. The buffer is not touched: none is lent.
#[tactic(auto, using(crate::proofs::Answers::called), unfolding(rules::specs::Calls::answered, rules::specs::Functions::outcome_of))]
pub fn julianday(
    set: Setting,
    given: Given,
    value: &[u8],
    modifiers: &[u8],
) -> Result<Answer, Unanswered>
    ensures { result ≡ answered (answer set (call Function.Julianday (value_of given value.now) modifiers.now)) 0 }
{
    let p = calls::moment_of(set, given, value, modifiers)?;
    Ok(Answer::Real(real::julian_real(p.ms)))
}

// Seconds since the Unix epoch: an integer, rounded by floor; with subsec an f64.
#[tactic(auto, using(crate::proofs::Answers::called), unfolding(rules::specs::Calls::answered, rules::specs::Functions::outcome_of))]
pub fn unixepoch(
    set: Setting,
    given: Given,
    value: &[u8],
    modifiers: &[u8],
) -> Result<Answer, Unanswered>
    ensures { result ≡ answered (answer set (call Function.Unixepoch (value_of given value.now) modifiers.now)) 0 }
{
    let p = calls::moment_of(set, given, value, modifiers)?;
    Ok(texts::unix(p.ms, p.subsec))
}

// What a format says of the moment.
#[tactic(auto, using(crate::proofs::Answers::called_format), unfolding(rules::specs::Calls::answered, rules::specs::Calls::after))]
pub fn strftime(
    set: Setting,
    format: &[u8],
    given: Given,
    value: &[u8],
    modifiers: &[u8],
    out: &mut [u8],
) -> Result<Answer, Unanswered>
    ensures value { result ≡ answered (answer set (strftime format.now (value_of given value.now) modifiers.now)) (length out.old) }
    ensures out_after { out.new ≡ after (answer set (strftime format.now (value_of given value.now) modifiers.now)) out.old }
{
    let p = calls::moment_for(set, format, given, value, modifiers)?;
    texts::formatted(p.fill(), format, out)
}

// How far, and which way, the second value is moved to reach the first.
#[tactic(auto, using(crate::proofs::Answers::called_both), unfolding(rules::specs::Calls::answered, rules::specs::Calls::after))]
pub fn timediff(
    set: Setting,
    given_a: Given,
    a: &[u8],
    given_b: Given,
    b: &[u8],
    out: &mut [u8],
) -> Result<Answer, Unanswered>
    ensures value { result ≡ answered (answer set (timediff (value_of given_a a.now) (value_of given_b b.now))) (length out.old) }
    ensures out_after { out.new ≡ after (answer set (timediff (value_of given_a a.now) (value_of given_b b.now))) out.old }
{
    let (x, y) = calls::instants(set, given_a, a, given_b, b)?;
    texts::difference(x, y, out)
}
