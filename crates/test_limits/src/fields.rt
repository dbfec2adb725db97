// The fields of a line, and what each says.
ghost use Rattle.std.specs.Prelude.{◌<◌, IfSome, length};

use rules::{Given, Setting};

// Which function a line names.
#[derive(Clone, Copy)]
pub enum Which {
    Date,
    Time,
    Datetime,
    Julianday,
    Unixepoch,
    Strftime,
    Timediff,
}

// A call as a line names it. `format` and `second` stand beside the name: as fields of an enum they would need a second enum for the name
// alone, which is read before them.
#[derive(Clone, Copy)]
pub struct Call<'a> {
    pub set: Setting,
    pub room: usize,
    pub which: Which,
    // of strftime alone
    pub format: &'a [u8],
    pub first: Given,
    pub value: &'a [u8],
    // timediff's second value, or the buffer of modifiers
    pub second: Given,
    pub last: &'a [u8],
}

// The call of a line, whose bytes are laid into `bytes`.
pub fn parse<'a>(line: &[u8], bytes: &'a mut [u8]) -> Option<Call<'a>> {
    let (clock, rest) = field(line)?;
    let (offset, rest) = field(rest)?;
    let (room, rest) = field(rest)?;
    let (name, rest) = field(rest)?;
    let which = function(name)?;
    let (format, rest) = match which {
        Which::Strftime => field(rest)?,
        _ => (&rest[..0], rest),
    };
    let (value, last) = field(rest)?;
    if last.contains(&b'\t') {
        return None;
    }
    let set = Setting {
        clock: whole(clock)?,
        offset: signed(offset)?,
    };
    let (format, bytes) = laid(format, bytes)?;
    let (first, value, bytes) = time_value(value, bytes)?;
    let (second, last, _) = match which {
        Which::Timediff => time_value(last, bytes)?,
        _ => bytes_value(last, bytes)?,
    };
    Some(Call {
        set,
        room: whole(room)? as usize,
        which,
        format,
        first,
        value,
        second,
        last,
    })
}

// A field, and what follows its tab.
fn field(s: &[u8]) -> Option<(&[u8], &[u8])> {
    let (field, rest) = text::cut(s, b'\t');
    Some((field, rest?))
}

fn function(name: &[u8]) -> Option<Which> {
    match name {
        b"date" => Some(Which::Date),
        b"time" => Some(Which::Time),
        b"datetime" => Some(Which::Datetime),
        b"julianday" => Some(Which::Julianday),
        b"unixepoch" => Some(Which::Unixepoch),
        b"strftime" => Some(Which::Strftime),
        b"timediff" => Some(Which::Timediff),
        _ => None,
    }
}

// ---- numbers

// One or more digits, of a value of 64 bits.
fn whole(s: &[u8]) -> Option<u64> {
    if s.is_empty() {
        return None;
    }
    let mut n: u64 = 0;
    for b in s {
        if !b.is_ascii_digit() {
            return None;
        }
        n = n.checked_mul(10)?.checked_add((*b - b'0') as u64)?;
    }
    Some(n)
}

// The same, with a minus allowed.
fn signed(s: &[u8]) -> Option<i64> {
    match s.strip_prefix(b"-") {
        Some(digits) => 0i64.checked_sub_unsigned(whole(digits)?),
        None => i64::try_from(whole(s)?).ok(),
    }
}

// The f64 of exactly 16 digits.
fn real(s: &[u8]) -> Option<f64> {
    let digits = s.len() == 16 && s.iter().all(|b| rows::hex_digit(*b).is_some());
    digits.then(|| rows::float_of(s))
}

// ---- bytes and time values

// The byte that is written at the front, as it is or as a backslash and two hex digits, and what follows it.
fn byte(s: &[u8]) -> Option<(u8, &[u8])>
    ensures { IfSome result (λ r. length r.1.now < length s.now) }
{
    match s {
        [b'\\', high, low, rest @ ..] => {
            let byte = rows::hex_digit(*high)? * 16 + rows::hex_digit(*low)?;
            Some((byte, rest))
        }
        [b'\\', ..] => None,
        [b, rest @ ..] => Some((*b, rest)),
        [] => None,
    }
}

// The bytes that a field writes, laid at the front of `bytes`, and the rest of that. They are counted, since both parts are handed back:
// whoever went on with the rest alone would have lost the front.
fn laid<'a>(s: &[u8], bytes: &'a mut [u8]) -> Option<(&'a [u8], &'a mut [u8])> {
    let mut n = 0;
    let mut rest = s;
    while !rest.is_empty() {
        let (b, after) = byte(rest)?;
        *bytes.get_mut(n)? = b;
        n += 1;
        rest = after;
    }
    let (laid, free) = bytes.split_at_mut(n);
    Some((laid, free))
}

fn bytes_value<'a>(s: &[u8], bytes: &'a mut [u8]) -> Option<(Given, &'a [u8], &'a mut [u8])> {
    let (laid, free) = laid(s, bytes)?;
    Some((Given::Bytes, laid, free))
}

// A time value, and the bytes that stand beside it.
fn time_value<'a>(s: &[u8], bytes: &'a mut [u8]) -> Option<(Given, &'a [u8], &'a mut [u8])> {
    if let Some(text) = s.strip_prefix(b"b") {
        return bytes_value(text, bytes);
    }
    let (kind, beside) = text::cut(s, b';');
    let given = given(kind)?;
    let (laid, free) = laid(beside.unwrap_or(b""), bytes)?;
    Some((given, laid, free))
}

// What stands before the semicolon of a value that is no bytes.
fn given(s: &[u8]) -> Option<Given> {
    match s {
        b"absent" => Some(Given::Absent),
        b"null" => Some(Given::Null),
        [b'i', digits @ ..] => Some(Given::Integer(signed(digits)?)),
        [b'r', digits @ ..] => Some(Given::Real(real(digits)?)),
        _ => None,
    }
}
