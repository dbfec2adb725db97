// Modifiers: one, and all of them in one lent buffer.
//
// A modifier is classified once, by its words (words), and what it is takes the record to the next one: a step of a word (steps), or a
// number of units, a date or a time to move by (counts). Each answer is the record or a refusal, exactly as the rules' `modifier` says.
// The buffer is tested before anything is read (buffer::allowed), then walked once; parts of the slice are handed on.
#![tactic(auto)]

ghost use Rattle.std.specs.Prelude.{if◌then◌else◌, ◌≡◌, eqb, ◌+◌, ◌≤◌, false, length};
ghost use Rattle.rules.specs.Basics.{read_ok};
ghost use Rattle.rules.specs.Decimal.{decimal};
ghost use Rattle.rules.specs.Calls.{modifiers, modifiers_bad};
ghost use Rattle.rules.specs.Modifiers as rule;
ghost use Rattle.rules.specs.declared.Refusal.{Refusal};
ghost use Rattle.moment.specs.Held.{held};
ghost use Rattle.moment.specs.Ranges.{most_before, Movable, After, read_of, Lands};
ghost use Rattle.modifiers.specs.Stepped.{Stepped};

use moment::{Moment, Offset};
use rules::Refusal;
use text::Wide;
use words::Kind;

pub mod buffer;
mod counts;
mod steps;
mod words;

// The number that a text writes; a text that writes none is refused.
fn number(s: &[u8]) -> Result<f64, Refusal>
    ensures { read_ok (λ x. x) result ≡ rule.or_null (decimal s.now) }
{
    decimal::decimal(s)?.ok_or(Refusal::Null)
}

// "`auto`, `julianday`, `unixepoch`: first only."
fn first_only(i: usize) -> Result<(), Refusal>
    ensures { result ≡ (if eqb i 0 then Ok tt else Err Refusal.Null) }
{
    if i == 0 { Ok(()) } else { Err(Refusal::Null) }
}

// One modifier, where i stand before it.
pub fn modifier(offset: Offset, i: usize, s: &[u8], p: Moment) -> Result<Moment, Refusal>
    requires { (length s.now ≤ 255) × Movable (held p) }
    ensures { Stepped p result (rule.modifier offset.seconds i s.now (held p)) }
{
    let Some(kind) = words::kind_of(s) else {
        return Err(Refusal::Null);
    };
    match kind {
        Kind::Auto => {
            first_only(i)?;
            Ok(p.auto())
        }
        Kind::Julianday => {
            first_only(i)?;
            p.julian()
        }
        Kind::Unixepoch => {
            first_only(i)?;
            p.unix()
        }
        Kind::Ceiling => Ok(p.ceiling()),
        Kind::Floor => Ok(p.floor()),
        Kind::Localtime => Ok(p.localtime(offset)),
        Kind::Utc => Ok(p.utc(offset)),
        Kind::Subsec => Ok(p.with_subsec()),
        Kind::Weekday => steps::weekday(&s[8..], p),
        Kind::Start => steps::start_of(&s[9..], p),
        Kind::Count => counts::arithmetic(text::trim::<Wide>(s), p),
    }
}

// "modifiers left to right". `i` is the place that "first only" asks for; a `for i in 0..` would need the walk's end as a branch in its body.
pub fn modified(offset: Offset, buffer: &[u8], p: Moment) -> Result<Moment, Refusal>
    requires { (modifiers_bad buffer.now ≡ false) × After 0 (held p) }
    ensures value { read_of result ≡ rule.modified offset.seconds 0 (modifiers buffer.now) (held p) }
    ensures lands { Lands (λ q. After (most_before + 1) q) result }
{
    let mut q = p;
    let mut rest = buffer;
    let mut i = 0;
    while let (s, Some(after)) = text::cut(rest, 0) {
        q = modifier(offset, i, s, q)?;
        rest = after;
        i += 1;
    }
    Ok(q)
}
