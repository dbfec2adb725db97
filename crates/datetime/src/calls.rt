// What is tested before anything is read, and what is then read: the moment of a call, or timediff's two instants.
//
// "2, 3, 4 are tested first, in that order, over all arguments, whether used or not. Then 1 and 5 as reading meets them: time value
// (timediff's first, then its second), modifiers left to right, final range."
ghost use Rattle.std.specs.Prelude.{◌≡◌, false, ◌≤◌, OnOk, length};
ghost use Rattle.rules.specs.Calls.{value_of, bytes_of, over, high, modifiers_bad, bad_shape, bad_bytes, call, strftime, timediff};
ghost use Rattle.rules.specs.Functions as rule;
ghost use Rattle.rules.specs.Functions.{opened};
ghost use Rattle.rules.specs.declared.Function.{Function};
ghost use Rattle.moment.specs.Held.{held};
ghost use Rattle.moment.specs.Ranges.{read_of, Lands};
ghost use Rattle.modifiers.specs.Buffer.{allowed_by};
ghost use Rattle.datetime.specs.Allowed.{both_allowed, SettingAllowed};
ghost use Rattle.datetime.specs.Instants.{ranged_both, instants, present_of, read_both};
ghost use Rattle.datetime.specs.Opened.{Ready};

use calendar::Instant;
use modifiers::buffer;
use moment::{Clock, Moment, Offset};
use rules::{Given, Refusal, Setting};

// 2: a text "has over" so many bytes; else 3: it "holds a byte above 127".
#[tactic(auto, unfolding(rules::specs::Calls::high))]
fn text_allowed(s: &[u8], most: usize) -> Result<(), Refusal>
    ensures { result ≡ allowed_by (over most s.now) (high s.now) }
{
    if s.len() > most {
        return Err(Refusal::Shape);
    }
    if !text::is_ascii(s) {
        return Err(Refusal::Bytes);
    }
    Ok(())
}

// And a time value. What stands beside a value that is no bytes is not looked at.
#[tactic(auto, unfolding(rules::specs::Calls::high, rules::specs::Basics::every))]
fn value_allowed(given: Given, s: &[u8]) -> Result<(), Refusal>
    ensures { result ≡ allowed_by (over 255 (bytes_of (value_of given s.now))) (high (bytes_of (value_of given s.now))) }
{
    match given {
        Given::Bytes => text_allowed(s, 255),
        Given::Absent | Given::Null | Given::Integer(_) | Given::Real(_) => Ok(()),
    }
}

// 2 of either before 3 of either.
fn both_allowed(a: Result<(), Refusal>, b: Result<(), Refusal>) -> Result<(), Refusal>
    ensures { result ≡ both_allowed a b }
{
    match (a, b) {
        (Err(Refusal::Bytes), Err(Refusal::Shape)) => b,
        _ => a.and(b),
    }
}

// The texts of a call, "whether used or not".
#[tactic(auto, using(crate::proofs::Allowed::both_allowed_by), unfolding(rules::specs::Calls::bad_shape, rules::specs::Calls::bad_bytes))]
fn texts_allowed(format: &[u8], given: Given, value: &[u8], modifiers: &[u8]) -> Result<(), Refusal>
    ensures { result ≡ allowed_by (bad_shape (strftime format.now (value_of given value.now) modifiers.now)) (bad_bytes (strftime format.now (value_of given value.now) modifiers.now)) }
{
    let others = both_allowed(value_allowed(given, value), buffer::allowed(modifiers));
    both_allowed(text_allowed(format, 1024), others)
}

// And timediff's two.
#[tactic(auto, using(crate::proofs::Allowed::both_allowed_by), unfolding(rules::specs::Calls::bad_shape, rules::specs::Calls::bad_bytes))]
fn values_allowed(given_a: Given, a: &[u8], given_b: Given, b: &[u8]) -> Result<(), Refusal>
    ensures { result ≡ allowed_by (bad_shape (timediff (value_of given_a a.now) (value_of given_b b.now))) (bad_bytes (timediff (value_of given_a a.now) (value_of given_b b.now))) }
{
    both_allowed(value_allowed(given_a, a), value_allowed(given_b, b))
}

// 4: "clock above 253402300799999, or offset outside -86399 to 86399"
#[tactic(auto, unfolding(rules::specs::Calls::bad_setting))]
fn setting_allowed(set: Setting) -> Result<(Clock, Offset), Refusal>
    ensures { SettingAllowed set result }
{
    let clock = Clock::new(set.clock).ok_or(Refusal::Setting)?;
    let offset = Offset::new(set.offset).ok_or(Refusal::Setting)?;
    Ok((clock, offset))
}

// ---- one time value

// "time value (..), modifiers left to right, final range"
#[tactic(auto, unfolding(rules::specs::Functions::moment_of))]
fn read(
    clock: Clock,
    offset: Offset,
    given: Given,
    value: &[u8],
    modifiers: &[u8],
) -> Result<Moment, Refusal>
    requires { (over 255 (bytes_of (value_of given value.now)) ≡ false) × (modifiers_bad modifiers.now ≡ false) }
    ensures result_value { read_of result ≡ rule.moment_of (record { clock = clock.ms; offset = offset.seconds }) (value_of given value.now) modifiers.now }
    ensures lands { Lands Ready result }
{
    let p = reading::time_value(given, value, clock)?;
    modifiers::modified(offset, modifiers, p)?.ranged()
}

// The moment that a call is about, of a format and one time value.
#[tactic(auto, unfolding(rules::specs::Calls::bad_shape))]
pub fn moment_for(
    set: Setting,
    format: &[u8],
    given: Given,
    value: &[u8],
    modifiers: &[u8],
) -> Result<Moment, Refusal>
    ensures result_value { read_of result ≡ opened set (strftime format.now (value_of given value.now) modifiers.now) (rule.moment_of set (value_of given value.now) modifiers.now) }
    ensures lands { Lands Ready result }
    ensures short_format { OnOk result (length format.now ≤ 1024) }
{
    texts_allowed(format, given, value, modifiers)?;
    let (clock, offset) = setting_allowed(set)?;
    read(clock, offset, given, value, modifiers)
}

// And where there is no format: an empty one is never refused.
#[tactic(auto, unfolding(rules::specs::Calls::bad_shape, rules::specs::Calls::bad_bytes, rules::specs::Calls::high, rules::specs::Basics::every))]
pub fn moment_of(
    set: Setting,
    given: Given,
    value: &[u8],
    modifiers: &[u8],
) -> Result<Moment, Refusal>
    ensures result_value { read_of result ≡ opened set (call Function.Date (value_of given value.now) modifiers.now) (rule.moment_of set (value_of given value.now) modifiers.now) }
    ensures lands { Lands Ready result }
{
    moment_for(set, b"", given, value, modifiers)
}

// ---- timediff's two

// "exactly two": an absent one is null.
fn present(given: Given) -> Given
    ensures { result ≡ present_of given }
{
    match given {
        Given::Absent => Given::Null,
        Given::Null | Given::Bytes | Given::Integer(_) | Given::Real(_) => given,
    }
}

// "final range" of both, which is refused alike.
fn both_ranged(p: Moment, q: Moment) -> Result<(Instant, Instant), Refusal>
    ensures { read_both result ≡ ranged_both (held p) (held q) }
{
    let p = p.count_ms();
    let q = q.count_ms();
    if !p.in_range() {
        return Err(Refusal::Null);
    }
    if !q.in_range() {
        return Err(Refusal::Null);
    }
    Ok((Instant { ms: p.ms }, Instant { ms: q.ms }))
}

// "time value (timediff's first, then its second)": both are read before either's range is tested.
#[tactic(auto, unfolding(crate::specs::Instants::instants))]
fn both(
    clock: Clock,
    given_a: Given,
    a: &[u8],
    given_b: Given,
    b: &[u8],
) -> Result<(Instant, Instant), Refusal>
    requires { (over 255 (bytes_of (value_of given_a a.now)) ≡ false) × (over 255 (bytes_of (value_of given_b b.now)) ≡ false) }
    ensures { read_both result ≡ instants clock.ms (value_of given_a a.now) (value_of given_b b.now) }
{
    let p = reading::time_value(present(given_a), a, clock)?;
    let q = reading::time_value(present(given_b), b, clock)?;
    both_ranged(p, q)
}

// The two instants that a call of timediff is about.
#[tactic(auto, unfolding(rules::specs::Calls::bad_shape))]
pub fn instants(
    set: Setting,
    given_a: Given,
    a: &[u8],
    given_b: Given,
    b: &[u8],
) -> Result<(Instant, Instant), Refusal>
    ensures { read_both result ≡ opened set (timediff (value_of given_a a.now) (value_of given_b b.now)) (instants set.clock (value_of given_a a.now) (value_of given_b b.now)) }
{
    values_allowed(given_a, a, given_b, b)?;
    let (clock, _) = setting_allowed(set)?;
    both(clock, given_a, a, given_b, b)
}
