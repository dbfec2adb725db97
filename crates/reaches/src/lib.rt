// Demand 3 of the code: timediff of A and B, put back as B's only modifier, reaches A. Crate law_putback proves it of the rules' definitions
// (law_putback/specs/Demand.antt).
//
// docs/PROMISES.md names `put_back` and `put_back_as`, two lines each: one with the second call as a closure would state the closure's
// contract in place of those lines.
#![tactic(auto)]

ghost use Rattle.std.specs.Prelude.{◌≡◌, length, MatchResult, Ok, Err};
ghost use Rattle.rules.specs.Calls.{call, strftime, answered, after};
ghost use Rattle.rules.specs.declared.Answer.{Answer};
ghost use Rattle.rules.specs.declared.Function.{Function};
ghost use Rattle.reaches.specs.Back.{span_of, back_with, out_with, AsOfA};

use rules::{Answer, Given, Setting, Unanswered};

// timediff of a and b as a buffer of one modifier: its text and a zero byte, and how many bytes these are. `span` needs room for both, and a
// refusal changes none of it.
fn put_span(set: Setting, a: &[u8], b: &[u8], span: &mut [u8]) -> Result<usize, Unanswered>
    ensures value { MatchResult result (λ n. answered (span_of set a.now b.now) (length span.old) ≡ Ok (Answer.Text n)) (λ u. answered (span_of set a.now b.now) (length span.old) ≡ Err u) }
    ensures span_after { span.new ≡ after (span_of set a.now b.now) span.old }
{
    let room = span.len().saturating_sub(1);
    match datetime::timediff(set, Given::Bytes, a, Given::Bytes, b, &mut span[..room]) {
        Ok(Answer::Text(n)) => {
            span[n] = 0;
            Ok(n + 1)
        }
        // timediff gives no number
        Ok(Answer::Integer(_)) => unreachable!(),
        Ok(Answer::Real(_)) => unreachable!(),
        Err(Unanswered::NoRoom(n)) => Err(Unanswered::NoRoom(n + 1)),
        Err(Unanswered::Refused(r)) => Err(Unanswered::Refused(r)),
    }
}

// timediff of a and b, then datetime of b with that text as its only modifier.
//
// `span` is lent for the text and its zero byte: 25 bytes for years 0 to 9999. With less than they need, or where timediff refuses, that
// answer comes back (7 with the length that `span` needs), and no byte of either buffer is changed.
pub fn put_back(
    set: Setting,
    a: &[u8],
    b: &[u8],
    span: &mut [u8],
    out: &mut [u8],
) -> Result<Answer, Unanswered>
    ensures value { result ≡ back_with set (call Function.Datetime) a.now b.now (length span.old) (length out.old) }
    ensures span_after { span.new ≡ after (span_of set a.now b.now) span.old }
    ensures out_after { out.new ≡ out_with set (call Function.Datetime) a.now b.now (length span.old) out.old }
    ensures as_of_a { AsOfA set (call Function.Datetime) a.now b.now (length span.old) out.old out.new result }
{
    let n = put_span(set, a, b, span)?;
    datetime::datetime(set, Given::Bytes, b, &span[..n], out)
}

// And in any format: "to the millisecond" is `%Y-%m-%d %H:%M:%f`.
pub fn put_back_as(
    set: Setting,
    format: &[u8],
    a: &[u8],
    b: &[u8],
    span: &mut [u8],
    out: &mut [u8],
) -> Result<Answer, Unanswered>
    ensures value { result ≡ back_with set (strftime format.now) a.now b.now (length span.old) (length out.old) }
    ensures span_after { span.new ≡ after (span_of set a.now b.now) span.old }
    ensures out_after { out.new ≡ out_with set (strftime format.now) a.now b.now (length span.old) out.old }
    ensures as_of_a { AsOfA set (strftime format.now) a.now b.now (length span.old) out.old out.new result }
{
    let n = put_span(set, a, b, span)?;
    datetime::strftime(set, format, Given::Bytes, b, &span[..n], out)
}
