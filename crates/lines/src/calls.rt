// The call that a line is, asked of crate datetime. "Its values are bytes."
ghost use Rattle.std.specs.Prelude.{◌≡◌, ◌≤◌, length};
ghost use Rattle.rules.specs.Calls as rule;
ghost use Rattle.rules.specs.Functions.{answer};
ghost use Rattle.rules.specs.Program.{line_call, general_call, strftime_call, timediff_call};
ghost use Rattle.text.specs.Places.{rest_of};
ghost use Rattle.datetime.specs.Given.{Gives};
ghost use Rattle.lines.specs.Fields.{fields_of, following, laid_out, outcome};

use crate::fields::{self, next_field};
use crate::names::{self, Name};
use rules::{Answer, Function, Given, Refusal, Setting, Unanswered};

// A line that is no call is refused, by 2: it is too long, holds a zero byte or names no function.
pub fn asked(set: Setting, s: &[u8], room: &mut [u8], out: &mut [u8]) -> Result<Answer, Unanswered>
    requires { 8192 ≤ length room.old }
    ensures gives { Gives (outcome set (line_call s.now)) out.old out.new result }
    ensures room_after { room.new ≡ laid_out (line_call s.now) room.old }
{
    if !fields::is_plain(s) {
        return Err(Unanswered::Refused(Refusal::Shape));
    }
    let (name, rest) = text::cut(s, fields::TAB);
    match names::name_of(name) {
        Some(Name::General(f)) => general(set, f, rest, room, out),
        Some(Name::Strftime) => strftime(set, rest, room, out),
        Some(Name::Timediff) => timediff(set, rest, out),
        None => Err(Unanswered::Refused(Refusal::Shape)),
    }
}

// One of the five functions of a time value and its modifiers, by what follows its name.
fn general(
    set: Setting,
    f: Function,
    rest: Option<&[u8]>,
    room: &mut [u8],
    out: &mut [u8],
) -> Result<Answer, Unanswered>
    requires { following (rest_of rest) ≤ length room.old }
    ensures gives { Gives (outcome set (general_call (fields_of (rest_of rest.entry)) f)) out.old out.new result }
    ensures room_after { room.new ≡ laid_out (general_call (fields_of (rest_of rest.entry)) f) room.old }
{
    let (value, rest) = next_field(rest)?;
    let n = fields::lay_modifiers(rest, room);
    call(set, f, value, &room[..n], out)
}

// A match, as a table of functions would hold function pointers.
fn call(
    set: Setting,
    f: Function,
    value: &[u8],
    modifiers: &[u8],
    out: &mut [u8],
) -> Result<Answer, Unanswered>
    ensures { Gives (answer set (rule.call f (rule.bytes value.now) modifiers.now)) out.old out.new result }
{
    match f {
        Function::Date => datetime::date(set, Given::Bytes, value, modifiers, out),
        Function::Time => datetime::time(set, Given::Bytes, value, modifiers, out),
        Function::Datetime => datetime::datetime(set, Given::Bytes, value, modifiers, out),
        Function::Julianday => datetime::julianday(set, Given::Bytes, value, modifiers),
        Function::Unixepoch => datetime::unixepoch(set, Given::Bytes, value, modifiers),
    }
}

// "strftime: format next".
fn strftime(
    set: Setting,
    rest: Option<&[u8]>,
    room: &mut [u8],
    out: &mut [u8],
) -> Result<Answer, Unanswered>
    requires { following (rest_of rest) ≤ length room.old }
    ensures gives { Gives (outcome set (strftime_call (fields_of (rest_of rest.entry)))) out.old out.new result }
    ensures room_after { room.new ≡ laid_out (strftime_call (fields_of (rest_of rest.entry))) room.old }
{
    let (format, rest) = next_field(rest)?;
    let (value, rest) = next_field(rest)?;
    let n = fields::lay_modifiers(rest, room);
    datetime::strftime(set, format, Given::Bytes, value, &room[..n], out)
}

// Two values. "A field after timediff's two" is one too many.
fn timediff(set: Setting, rest: Option<&[u8]>, out: &mut [u8]) -> Result<Answer, Unanswered>
    ensures { Gives (outcome set (timediff_call (fields_of (rest_of rest.entry)))) out.old out.new result }
{
    let (first, rest) = next_field(rest)?;
    let (second, rest) = next_field(rest)?;
    match rest {
        None => datetime::timediff(set, Given::Bytes, first, Given::Bytes, second, out),
        Some(_) => Err(Unanswered::Refused(Refusal::Shape)),
    }
}
