// The seven functions for C and for Rust: crate datetime's, with plain numbers for its enums, under names that a linker finds.
//
// Any numbers and any bytes may be handed in; nothing is kept and nothing allocated. A slice is a pointer and a length; with length 0
// the pointer may be null. A time value is a number that says what is given (`given_of`): 0 nothing, 1 null, 2 the bytes of `value`,
// 3 `integer`, 4 `real`, and any other number is null. What comes back is crate rules' answer as five numbers (`reply_of`), and the lent
// buffer holds what `after` says. The parameters are the C interface's (include/), so they stay plain numbers and slices.
#![tactic(auto)]

ghost use Rattle.std.specs.Prelude.{◌≡◌, length};
ghost use Rattle.rules.specs.Calls.{value_of, call, strftime, timediff, answered, after};
ghost use Rattle.rules.specs.Functions.{answer};
ghost use Rattle.rules.specs.declared.Function.{Function};
ghost use Rattle.dangsoviey.specs.Replies.{given_of, reply_of};

use rules::{Answer, Given, Setting, Unanswered};

mod stamps;

// What comes back. `kind`: 0 refused, 1 a text in the lent buffer, 2 an integer, 3 an f64. `refusal`: 0, or document 01's number 1 to 7.
// `length`: of the text; with refusal 7 the length needed. The fields that a kind does not use are 0.
// Numbers and no enum: it is the C interface's struct (include/).
#[repr(C)]
#[derive(Clone, Copy)]
pub struct Reply {
    pub kind: u32,
    pub refusal: u32,
    pub length: usize,
    pub integer: i64,
    pub real: f64,
}

// The time value that the numbers say.
fn given_of(given: u32, integer: i64, real: f64) -> Given
    ensures { result ≡ given_of given integer real }
{
    match given {
        0 => Given::Absent,
        2 => Given::Bytes,
        3 => Given::Integer(integer),
        4 => Given::Real(real),
        _ => Given::Null,
    }
}

// The fields that a kind does not use are 0.
const UNUSED: Reply = Reply {
    kind: 0,
    refusal: 0,
    length: 0,
    integer: 0,
    real: 0.0,
};

impl From<Result<Answer, Unanswered>> for Reply {
    ghost from_gives = { λ told reply. reply ≡ reply_of told };

    #[tactic(auto, using(real::proofs::Literals::nil))]
    fn from(told: Result<Answer, Unanswered>) -> Reply {
        match told {
            Ok(Answer::Text(length)) => Reply {
                kind: 1,
                length,
                ..UNUSED
            },
            Ok(Answer::Integer(integer)) => Reply {
                kind: 2,
                integer,
                ..UNUSED
            },
            Ok(Answer::Real(real)) => Reply {
                kind: 3,
                real,
                ..UNUSED
            },
            Err(Unanswered::Refused(refusal)) => Reply {
                refusal: refusal.into(),
                ..UNUSED
            },
            Err(Unanswered::NoRoom(length)) => Reply {
                refusal: 7,
                length,
                ..UNUSED
            },
        }
    }
}

// ---- texts in the lent buffer

// YYYY-MM-DD.
#[unsafe(no_mangle)]
pub extern "C" fn dangsoviey_date(
    clock: u64,
    offset: i64,
    given: u32,
    integer: i64,
    real: f64,
    value: &[u8],
    modifiers: &[u8],
    out: &mut [u8],
) -> Reply
    ensures value { result ≡ reply_of (answered (answer (record { clock = clock; offset = offset }) (call Function.Date (value_of (given_of given integer real) value.now) modifiers.now)) (length out.old)) }
    ensures out_after { out.new ≡ after (answer (record { clock = clock; offset = offset }) (call Function.Date (value_of (given_of given integer real) value.now) modifiers.now)) out.old }
{
    let set = Setting { clock, offset };
    let at = given_of(given, integer, real);
    datetime::date(set, at, value, modifiers, out).into()
}

// HH:MM:SS, and three decimals with subsec.
#[unsafe(no_mangle)]
pub extern "C" fn dangsoviey_time(
    clock: u64,
    offset: i64,
    given: u32,
    integer: i64,
    real: f64,
    value: &[u8],
    modifiers: &[u8],
    out: &mut [u8],
) -> Reply
    ensures value { result ≡ reply_of (answered (answer (record { clock = clock; offset = offset }) (call Function.Time (value_of (given_of given integer real) value.now) modifiers.now)) (length out.old)) }
    ensures out_after { out.new ≡ after (answer (record { clock = clock; offset = offset }) (call Function.Time (value_of (given_of given integer real) value.now) modifiers.now)) out.old }
{
    let set = Setting { clock, offset };
    let at = given_of(given, integer, real);
    datetime::time(set, at, value, modifiers, out).into()
}

// The date, a space and the time.
#[unsafe(no_mangle)]
pub extern "C" fn dangsoviey_datetime(
    clock: u64,
    offset: i64,
    given: u32,
    integer: i64,
    real: f64,
    value: &[u8],
    modifiers: &[u8],
    out: &mut [u8],
) -> Reply
    ensures value { result ≡ reply_of (answered (answer (record { clock = clock; offset = offset }) (call Function.Datetime (value_of (given_of given integer real) value.now) modifiers.now)) (length out.old)) }
    ensures out_after { out.new ≡ after (answer (record { clock = clock; offset = offset }) (call Function.Datetime (value_of (given_of given integer real) value.now) modifiers.now)) out.old }
{
    let set = Setting { clock, offset };
    let at = given_of(given, integer, real);
    datetime::datetime(set, at, value, modifiers, out).into()
}

// What a format says of the moment.
#[unsafe(no_mangle)]
pub extern "C" fn dangsoviey_strftime(
    clock: u64,
    offset: i64,
    format: &[u8],
    given: u32,
    integer: i64,
    real: f64,
    value: &[u8],
    modifiers: &[u8],
    out: &mut [u8],
) -> Reply
    ensures value { result ≡ reply_of (answered (answer (record { clock = clock; offset = offset }) (strftime format.now (value_of (given_of given integer real) value.now) modifiers.now)) (length out.old)) }
    ensures out_after { out.new ≡ after (answer (record { clock = clock; offset = offset }) (strftime format.now (value_of (given_of given integer real) value.now) modifiers.now)) out.old }
{
    let set = Setting { clock, offset };
    let at = given_of(given, integer, real);
    datetime::strftime(set, format, at, value, modifiers, out).into()
}

// How far, and which way, the second value is moved to reach the first.
#[unsafe(no_mangle)]
pub extern "C" fn dangsoviey_timediff(
    clock: u64,
    offset: i64,
    given_a: u32,
    integer_a: i64,
    real_a: f64,
    a: &[u8],
    given_b: u32,
    integer_b: i64,
    real_b: f64,
    b: &[u8],
    out: &mut [u8],
) -> Reply
    ensures value { result ≡ reply_of (answered (answer (record { clock = clock; offset = offset }) (timediff (value_of (given_of given_a integer_a real_a) a.now) (value_of (given_of given_b integer_b real_b) b.now))) (length out.old)) }
    ensures out_after { out.new ≡ after (answer (record { clock = clock; offset = offset }) (timediff (value_of (given_of given_a integer_a real_a) a.now) (value_of (given_of given_b integer_b real_b) b.now))) out.old }
{
    let set = Setting { clock, offset };
    let first = given_of(given_a, integer_a, real_a);
    let second = given_of(given_b, integer_b, real_b);
    datetime::timediff(set, first, a, second, b, out).into()
}

// ---- numbers: no buffer is lent

// The Julian day, as an f64.
#[unsafe(no_mangle)]
pub extern "C" fn dangsoviey_julianday(
    clock: u64,
    offset: i64,
    given: u32,
    integer: i64,
    real: f64,
    value: &[u8],
    modifiers: &[u8],
) -> Reply
    ensures { result ≡ reply_of (answered (answer (record { clock = clock; offset = offset }) (call Function.Julianday (value_of (given_of given integer real) value.now) modifiers.now)) 0) }
{
    let set = Setting { clock, offset };
    let at = given_of(given, integer, real);
    datetime::julianday(set, at, value, modifiers).into()
}

// Seconds since the Unix epoch: an integer, rounded by floor; with subsec an f64.
#[unsafe(no_mangle)]
pub extern "C" fn dangsoviey_unixepoch(
    clock: u64,
    offset: i64,
    given: u32,
    integer: i64,
    real: f64,
    value: &[u8],
    modifiers: &[u8],
) -> Reply
    ensures { result ≡ reply_of (answered (answer (record { clock = clock; offset = offset }) (call Function.Unixepoch (value_of (given_of given integer real) value.now) modifiers.now)) 0) }
{
    let set = Setting { clock, offset };
    let at = given_of(given, integer, real);
    datetime::unixepoch(set, at, value, modifiers).into()
}
