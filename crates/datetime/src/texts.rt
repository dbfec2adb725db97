// Answers of a record that passed the final range: a text in the lent buffer, or a number.
//
// The length is known before the first byte is written, so that refusal 7 changes none. (`date` and `time` are two lines each: one with
// length and writer as closures would state the contracts of both.)
ghost use Rattle.std.specs.Prelude.{◌≡◌, ◌≤◌, ◌<◌, [], ◌++◌, length, MatchResult, Ok};
ghost use Rattle.rules.specs.Basics.{ascii};
ghost use Rattle.rules.specs.Calls.{text, answered};
ghost use Rattle.rules.specs.Writing as rule;
ghost use Rattle.rules.specs.declared.Unanswered.{Unanswered};
ghost use Rattle.moment.specs.Held.{held};
ghost use Rattle.moment.specs.Ranges.{Full};
ghost use Rattle.datetime.specs.Given.{Gives, formatted_of, unix_of};

use calendar::Instant;
use digits::put_byte;
use moment::Moment;
use rules::{Answer, Unanswered};

// 7: "the answer is longer than the buffer; the length needed comes back with it"
pub fn has_room(room: usize, length: usize) -> Result<(), Unanswered>
    ensures { MatchResult result (λ _. length ≤ room) (λ e. (room < length) × (e ≡ Unanswered.NoRoom length)) }
{
    if room < length {
        return Err(Unanswered::NoRoom(length));
    }
    Ok(())
}

#[tactic(auto, unfolding(rules::specs::Calls::answered, rules::specs::Calls::after))]
pub fn date(p: Moment, out: &mut [u8]) -> Result<Answer, Unanswered>
    requires { Full (held p) }
    ensures { Gives (text (rule.date_text (held p))) out.old out.new result }
{
    has_room(out.len(), writing::date_length(p))?;
    Ok(Answer::Text(writing::put_date(out, 0, p)))
}

#[tactic(auto, unfolding(rules::specs::Calls::answered, rules::specs::Calls::after))]
pub fn time(p: Moment, out: &mut [u8]) -> Result<Answer, Unanswered>
    requires { Full (held p) }
    ensures { Gives (text (rule.time_text (held p))) out.old out.new result }
{
    has_room(out.len(), writing::time_length(p))?;
    Ok(Answer::Text(writing::put_time(out, 0, p)))
}

// A date, a space and a time.
#[tactic(auto, using(crate::proofs::Given::parted_length), unfolding(rules::specs::Calls::answered, rules::specs::Calls::after))]
pub fn datetime(p: Moment, out: &mut [u8]) -> Result<Answer, Unanswered>
    requires { Full (held p) }
    ensures { Gives (text (rule.date_text (held p) ++ ascii " " ++ rule.time_text (held p))) out.old out.new result }
{
    let length = writing::date_length(p) + 1 + writing::time_length(p);
    has_room(out.len(), length)?;
    let space = writing::put_date(out, 0, p);
    let after = put_byte(out, space, b' ');
    Ok(Answer::Text(writing::put_time(out, after, p)))
}

// timediff's text.
#[tactic(auto, unfolding(rules::specs::Calls::answered, rules::specs::Calls::after))]
pub fn difference(a: Instant, b: Instant, out: &mut [u8]) -> Result<Answer, Unanswered>
    ensures { Gives (text (rule.difference a.ms b.ms)) out.old out.new result }
{
    let span = timediff::difference(a, b);
    has_room(out.len(), timediff::span_length(span))?;
    Ok(Answer::Text(timediff::put_span(out, 0, span)))
}

// Seconds since the Unix epoch, of any milliseconds. With subsec: an f64.
#[tactic(auto, unfolding(rules::specs::Calls::answered))]
pub fn unix(ms: u64, subsec: bool) -> Answer
    ensures { Ok result ≡ answered (unix_of ms subsec) 0 }
{
    if subsec {
        return Answer::Real(real::unix_real(ms));
    }
    Answer::Integer(real::unix_seconds(ms))
}

// What a format says. An exact length is worked out only where the bound has no room.
#[tactic(auto, using(crate::proofs::Given::gives_text), unfolding(rules::specs::Calls::answered, rules::specs::Calls::after))]
pub fn formatted(p: Moment, format: &[u8], out: &mut [u8]) -> Result<Answer, Unanswered>
    requires { Full (held p) × (length format.now ≤ 1024) }
    ensures { Gives (formatted_of (held p) format.now) out.old out.new result }
{
    let most = writing::check(p, format)?;
    if out.len() < most {
        has_room(out.len(), writing::format_length(p, format))?;
    }
    Ok(Answer::Text(writing::put_format(out, 0, p, format)?))
}
