// "It writes the text, `null` (for 1), `refused N`, an integer in decimal, or an f64 as 16 lower-case hex digits, highest first."
ghost use Rattle.std.specs.Prelude.{not, ◌≡◌, T, length};
ghost use Rattle.std.specs.Float.Ieee.{is_nan};
ghost use Rattle.rules.specs.Calls.{text, integer, real, refused};
ghost use Rattle.rules.specs.Program.{shown};
ghost use Rattle.datetime.specs.Given.{Gives};
ghost use Rattle.lines.specs.Shown.{Sound, shown_answer, shown_after};

use datetime::texts::has_room;
use rules::{Answer, Refusal, Unanswered};

// An answer as a text. A text stands in the buffer already, or there is no room for it.
pub fn show(a: Result<Answer, Unanswered>, out: &mut [u8]) -> Result<Answer, Unanswered>
    requires { Sound a }
    ensures value { result ≡ shown_answer a (length out.old) }
    ensures out_after { out.new ≡ shown_after a out.old }
{
    match a {
        Ok(Answer::Integer(n)) => show_integer(n, out),
        Ok(Answer::Real(x)) => show_real(x, out),
        Err(Unanswered::Refused(r)) => show_text(words(r), out),
        Ok(Answer::Text(n)) => Ok(Answer::Text(n)),
        Err(Unanswered::NoRoom(n)) => Err(Unanswered::NoRoom(n)),
    }
}

#[tactic(auto, using(datetime::proofs::Given::gives_text), unfolding(rules::specs::Calls::answered, rules::specs::Calls::after, rules::specs::Program::shown))]
fn show_integer(n: i64, out: &mut [u8]) -> Result<Answer, Unanswered>
    ensures { Gives (text (shown (integer n))) out.old out.new result }
{
    has_room(out.len(), digits::integer_length(n))?;
    Ok(Answer::Text(digits::put_integer(out, 0, n)))
}

#[tactic(auto, using(datetime::proofs::Given::gives_text, digits::proofs::Hex::length_hex), unfolding(rules::specs::Calls::answered, rules::specs::Calls::after, rules::specs::Program::shown))]
fn show_real(x: f64, out: &mut [u8]) -> Result<Answer, Unanswered>
    requires { T (not (is_nan x)) }
    ensures { Gives (text (shown (real x))) out.old out.new result }
{
    has_room(out.len(), 16)?;
    Ok(Answer::Text(digits::put_hex(out, 0, x)))
}

#[tactic(auto, using(datetime::proofs::Given::gives_text), unfolding(rules::specs::Calls::answered, rules::specs::Calls::after, rules::specs::Program::shown))]
fn show_text(s: &[u8], out: &mut [u8]) -> Result<Answer, Unanswered>
    ensures { Gives (text s.now) out.old out.new result }
{
    has_room(out.len(), s.len())?;
    Ok(Answer::Text(digits::put_bytes(out, 0, s)))
}

// The words of a refusal: bytes, as rules' `shown` has them. (Display would write them through a formatter.)
#[tactic(auto, unfolding(rules::specs::Program::shown, rules::specs::Writing::wide, rules::specs::Writing::width, rules::specs::Writing::places))]
fn words(r: Refusal) -> &'static [u8]
    ensures { result.now ≡ shown (refused r) }
{
    match r {
        Refusal::Null => b"null",
        Refusal::Shape => b"refused 2",
        Refusal::Bytes => b"refused 3",
        Refusal::Setting => b"refused 4",
        Refusal::Decimal => b"refused 5",
        Refusal::Early => b"refused 6",
    }
}
