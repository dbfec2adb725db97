// The steps of words that ask for more than a record. Those of the others are the record's own (crate moment).
ghost use Rattle.std.specs.Prelude.{◌≡◌, ◌&&◌};
ghost use Rattle.std.specs.Float.Ieee.{eq};
ghost use Rattle.rules.specs.Floats.{number, whole, within};
ghost use Rattle.rules.specs.Modifiers as rule;
ghost use Rattle.moment.specs.Held.{held};
ghost use Rattle.moment.specs.Ranges.{Movable, Answered};
ghost use Rattle.modifiers.specs.Stepped.{Stepped};

use crate::number;
use moment::Moment;
use rules::Refusal;
use text::Wide;

// ---- "`weekday N` (N whole, 0 to 6)", after the word

pub fn weekday(s: &[u8], p: Moment) -> Result<Moment, Refusal>
    requires { Movable (held p) }
    ensures { Stepped p result (rule.weekday s.now (held p)) }
{
    let x = number(text::trim::<Wide>(s))?;
    on_day(x, p)
}

fn on_day(x: f64, p: Moment) -> Result<Moment, Refusal>
    requires { Movable (held p) }
    ensures { Stepped p result (rule.provided (within (number 0) x (number 7) && eq (number (whole x)) x) (rule.to_weekday (whole x) (held p))) }
{
    if !is_day(x) {
        return Err(Refusal::Null);
    }
    Ok(p.to_weekday(real::whole(x) as u32))
}

fn is_day(x: f64) -> bool
    ensures { result ≡ (within (number 0) x (number 7) && eq (number (whole x)) x) }
{
    in_week(x) && std::num::nearest_u64_to_f64(real::whole(x)) == x
}

#[tactic(auto, using(real::proofs::Literals::literals))]
fn in_week(x: f64) -> bool
    ensures { result ≡ within (number 0) x (number 7) }
{
    x >= 0.0 && x < 7.0
}

// ---- "`start of day/month/year`", after `start of `

pub fn start_of(s: &[u8], p: Moment) -> Result<Moment, Refusal>
    ensures { Answered p result (rule.start_of s.now (held p)) }
{
    if !p.stands() {
        return Err(Refusal::Null);
    }
    if text::is_word(s, b"day") {
        return Ok(p.start_of_day());
    }
    if text::is_word(s, b"month") {
        return Ok(p.start_of_month());
    }
    if text::is_word(s, b"year") {
        return Ok(p.start_of_year());
    }
    Err(Refusal::Null)
}
