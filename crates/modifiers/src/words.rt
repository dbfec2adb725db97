// The words of modifiers, "compared as bytes, letters in either case": each is classified once, by its first letter.
ghost use Rattle.std.specs.Prelude.{◌≡◌, ◌||◌};
ghost use Rattle.rules.specs.Basics.{word, read_some};
ghost use Rattle.modifiers.specs.Words.{kind_of, kind_s, kind_u, sign_or_digit, unit_of, unit_m};

// What a modifier is.
#[derive(Clone, Copy)]
pub enum Kind {
    Auto,
    Julianday,
    Unixepoch,
    Ceiling,
    Floor,
    Localtime,
    Utc,
    Subsec,
    // `weekday ` and a number, `start of ` and what begins
    Weekday,
    Start,
    // it begins with a sign or a digit
    Count,
}

pub fn kind_of(s: &[u8]) -> Option<Kind>
    ensures { read_some (λ k. k) result ≡ kind_of s.now }
{
    let (first, _) = s.split_first()?;
    match text::lower(*first) {
        b'a' => text::is_word(s, b"auto").then_some(Kind::Auto),
        b'c' => text::is_word(s, b"ceiling").then_some(Kind::Ceiling),
        b'f' => text::is_word(s, b"floor").then_some(Kind::Floor),
        b'j' => text::is_word(s, b"julianday").then_some(Kind::Julianday),
        b'l' => text::is_word(s, b"localtime").then_some(Kind::Localtime),
        b's' => kind_s(s),
        b'u' => kind_u(s),
        b'w' => text::starts(s, b"weekday ").then_some(Kind::Weekday),
        _ => is_sign_or_digit(*first).then_some(Kind::Count),
    }
}

fn kind_s(s: &[u8]) -> Option<Kind>
    ensures { read_some (λ k. k) result ≡ kind_s s.now }
{
    if text::is_word(s, b"subsec") || text::is_word(s, b"subsecond") {
        return Some(Kind::Subsec);
    }
    text::starts(s, b"start of ").then_some(Kind::Start)
}

fn kind_u(s: &[u8]) -> Option<Kind>
    ensures { read_some (λ k. k) result ≡ kind_u s.now }
{
    if text::is_word(s, b"unixepoch") {
        return Some(Kind::Unixepoch);
    }
    text::is_word(s, b"utc").then_some(Kind::Utc)
}

fn is_sign_or_digit(b: u8) -> bool
    ensures { result ≡ sign_or_digit b }
{
    b == b'+' || b == b'-' || text::is_digit(b)
}

// The units of `N unit`.
#[derive(Clone, Copy)]
pub enum Unit {
    Day,
    Hour,
    Minute,
    Second,
    Month,
    Year,
}

pub fn unit_of(s: &[u8]) -> Option<Unit>
    ensures { read_some (λ u. u) result ≡ unit_of s.now }
{
    let (first, _) = s.split_first()?;
    match text::lower(*first) {
        b'd' => is_unit(s, b"day", b"days").then_some(Unit::Day),
        b'h' => is_unit(s, b"hour", b"hours").then_some(Unit::Hour),
        b'm' => unit_m(s),
        b's' => is_unit(s, b"second", b"seconds").then_some(Unit::Second),
        b'y' => is_unit(s, b"year", b"years").then_some(Unit::Year),
        _ => None,
    }
}

fn unit_m(s: &[u8]) -> Option<Unit>
    ensures { read_some (λ u. u) result ≡ unit_m s.now }
{
    if is_unit(s, b"minute", b"minutes") {
        return Some(Unit::Minute);
    }
    is_unit(s, b"month", b"months").then_some(Unit::Month)
}

// A unit's name, or the same with an s.
fn is_unit(s: &[u8], one: &[u8], more: &[u8]) -> bool
    ensures { result ≡ (word one.now s.now || word more.now s.now) }
{
    text::is_word(s, one) || text::is_word(s, more)
}
