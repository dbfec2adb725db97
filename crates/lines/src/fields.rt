// The fields of a line, which tabs part.
ghost use Rattle.std.specs.Prelude.{if◌then◌else◌, ◌≡◌, ◌≤◌, length};
ghost use Rattle.rules.specs.Program.{buffered};
ghost use Rattle.text.specs.Places.{rest_of};
ghost use Rattle.digits.specs.Writers.{Laid};
ghost use Rattle.lines.specs.Fields.{is_tab, fields_of, following, plain, TakesField};

use rules::Refusal;

// The longest line that may be a call, in bytes without its newline.
pub const LONGEST: usize = 8192;

pub const TAB: u8 = b'\t';

// No "line over 8,192 bytes, or with a zero byte".
pub fn is_plain(s: &[u8]) -> bool
    ensures { result ≡ plain s.now }
{
    s.len() <= LONGEST && !s.contains(&0)
}

// The next field of a line, and the rest after it. "A missing field (the time value too) .. is `refused 2`".
pub fn next_field(rest: Option<&[u8]>) -> Result<(&[u8], Option<&[u8]>), Refusal>
    ensures { TakesField (rest_of rest.entry) result }
{
    match rest {
        Some(s) => Ok(text::cut(s, TAB)),
        None => Err(Refusal::Shape),
    }
}

// Lays the modifiers of a line at the front of the room, each ended by a zero byte: each tab becomes one, and one more ends the last.
// Returns how many bytes they take. (By place: a zip of both would need an invariant on what `iter_mut` still lends. That the room is long
// enough is a clause here and in the calls above: it is lent as a slice, and what it must hold depends on the rest of the line.)
pub fn lay_modifiers(rest: Option<&[u8]>, room: &mut [u8]) -> usize
    requires { following (rest_of rest) ≤ length room.old }
    ensures { Laid room.old 0 (buffered (fields_of (rest_of rest.entry))) room.new result }
{
    let Some(s) = rest else {
        return 0;
    };
    for (i, b) in s.iter().enumerate() {
        room[i] = zeroed(*b);
    }
    room[s.len()] = 0;
    s.len() + 1
}

// A zero byte in the place of a tab.
fn zeroed(b: u8) -> u8
    ensures { result ≡ (if is_tab b then 0 else b) }
{
    if b == TAB { 0 } else { b }
}
