// One line of the program, without input or output: any bytes, any buffer.
//
// "The program reads tab-separated lines: first clock and offset (digits, a minus allowed before the offset), then function (strftime:
// format next), time value or values, modifiers." Crate rules' `line` says what stands in the lent buffer for each line, and
// `first_line` what the first one is.
#![tactic(auto)]

ghost use Rattle.std.specs.Prelude.{◌≡◌, length};
ghost use Rattle.rules.specs.Basics.{read_some};
ghost use Rattle.rules.specs.Calls.{text, answered, after};
ghost use Rattle.rules.specs.Program as rule;
ghost use Rattle.lines.specs.Fields.{laid_out};

use fields::TAB;
use rules::{Answer, Setting, Unanswered};

mod answers;
mod calls;
mod clock;
mod fields;
mod names;

// A line without its newline: what comes of it, as a text in `out`. An integer and an f64 are texts too here, and need room.
//
// `room` is for the line's modifiers, which are laid out at its front, each ended by a zero byte, as crate datetime takes them; no other
// byte of it changes. They are shorter than the line, and a line that may be a call has at most 8,192 bytes.
pub fn line(
    set: Setting,
    s: &[u8],
    room: &mut [u8; 8192],
    out: &mut [u8],
) -> Result<Answer, Unanswered>
    ensures value { result ≡ answered (text (rule.line set s.now)) (length out.old) }
    ensures out_after { out.new ≡ after (text (rule.line set s.now)) out.old }
    ensures room_after { room.new ≡ laid_out (rule.line_call s.now) room.old }
{
    let a = calls::asked(set, s, room, out);
    answers::show(a, out)
}

// The first line: a clock and an offset. None is "a bad first line".
pub fn first_line(s: &[u8]) -> Option<Setting>
    ensures { read_some (λ set. set) result ≡ rule.first_line s.now }
{
    if fields::LONGEST < s.len() {
        return None;
    }
    let (clock, rest) = text::cut(s, TAB);
    let (offset, third) = text::cut(rest?, TAB);
    match third {
        None => clock::setting(clock, offset),
        Some(_) => None,
    }
}
