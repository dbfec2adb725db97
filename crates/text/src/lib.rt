// Bytes of a slice: the digits, whitespace, words and parts that every reader of a text is made of.
//
// A reader takes a slice and hands back what it read and the rest of the slice, as the rules' readers take a list: byte(b"-02-29", b'-') is
// Some(b"02-29"), and digits::<2>(b"02-29", 1, 12) is Some((2, b"-29")). Where another form stands, the answer is None.
#![tactic(auto)]

ghost use Rattle.std.specs.Prelude.{◌≡◌, ◌==◌, ℕ, Bool, not, ◌≤◌, ◌<◌, leb, length, position, IfSome};
ghost use Rattle.rules.specs.Basics as rule;
ghost use Rattle.rules.specs.Reading.{space};
ghost use Rattle.rules.specs.Modifiers.{wide_space};
ghost use Rattle.text.specs.Places.{after_byte, leads, gap, IsCut, rest_of};

// ---- a byte

pub fn is_digit(b: u8) -> bool
    ensures { result ≡ rule.is_digit b }
{
    b.is_ascii_digit()
}

// A letter's byte as that of the small letter; any other byte as it is.
pub fn lower(b: u8) -> u8
    ensures { result ≡ rule.lower b }
{
    b.to_ascii_lowercase()
}

// A class of bytes.
pub trait Class {
    ghost holds: { ℕ → Bool };

    fn holds(b: u8) -> bool
        ensures { result ≡ holds b };
}

// "Whitespace here is bytes 9, 10, 12, 13, 32."
pub struct Space;

impl Class for Space {
    ghost holds = { space };

    fn holds(b: u8) -> bool {
        b.is_ascii_whitespace()
    }
}

// "In modifiers, trimming and word splitting also take byte 11."
pub struct Wide;

impl Class for Wide {
    ghost holds = { wide_space };

    fn holds(b: u8) -> bool {
        Space::holds(b) || b == 11
    }
}

// "Between date and time any run of whitespace and `T`": "lower `t` does not" read.
pub struct Gap;

impl Class for Gap {
    ghost holds = { gap };

    fn holds(b: u8) -> bool {
        Space::holds(b) || b == b'T'
    }
}

// A word of a modifier, which whitespace ends.
struct Word;

impl Class for Word {
    ghost holds = { λ b. not (wide_space b) };

    fn holds(b: u8) -> bool {
        !Wide::holds(b)
    }
}

// ---- at the front of a slice

// What follows the byte b, where it stands there.
pub fn byte(s: &[u8], b: u8) -> Option<&[u8]>
    ensures value { rule.read_some (λ r. r.now) result ≡ after_byte b s.now }
    ensures shorter { IfSome result (λ r. length r.now < length s.now) }
{
    let (x, rest) = s.split_first()?;
    if *x == b { Some(rest) } else { None }
}

// N digits whose number is lo to hi, "always full digits". It is inlined at each number of a date and a time: a call of it takes longer than
// the digits do.
#[inline(always)]
pub fn digits<const N: usize>(s: &[u8], lo: u32, hi: u32) -> Option<(u32, &[u8])>
    requires { N ≤ 9 }
    ensures value { rule.read_some (λ r. (r.0, r.1.now)) result ≡ rule.digits N lo hi s.now }
    ensures limits { IfSome result (λ r. (lo ≤ r.0) × (r.0 ≤ hi)) }
    ensures shorter { IfSome result (λ r. length r.1.now ≤ length s.now) }
{
    let (front, rest) = s.split_first_chunk::<N>()?;
    let mut v: u32 = 0;
    for b in front {
        if !is_digit(*b) {
            return None;
        }
        v = v * 10 + (*b - b'0') as u32;
    }
    (lo..=hi).contains(&v).then_some((v, rest))
}

// The slice from its first byte on that is not of the class.
#[tactic(auto, using(crate::proofs::Runs::skip_on, crate::proofs::Runs::skip_stop, crate::proofs::Runs::skip_none))]
pub fn skip<C: Class>(s: &[u8]) -> &[u8]
    ensures { result.now ≡ rule.skip C.holds s.now }
{
    let mut rest = s;
    while let Some((b, tail)) = rest.split_first() {
        if !C::holds(*b) {
            return rest;
        }
        rest = tail;
    }
    rest
}

// The slice without the bytes of the class at its end.
#[tactic(auto, using(crate::proofs::Runs::trim_on, crate::proofs::Runs::trim_stop, crate::proofs::Runs::trim_none))]
fn trim_end<C: Class>(s: &[u8]) -> &[u8]
    ensures { result.now ≡ rule.trim_end C.holds s.now }
{
    let mut rest = s;
    while let Some((b, front)) = rest.split_last() {
        if !C::holds(*b) {
            return rest;
        }
        rest = front;
    }
    rest
}

// "A decimal is trimmed of it on both sides", and so are a modifier that counts and the number after `weekday `.
#[tactic(auto, unfolding(rules::specs::Basics::trim))]
pub fn trim<C: Class>(s: &[u8]) -> &[u8]
    ensures { result.now ≡ rule.trim C.holds s.now }
{
    trim_end::<C>(skip::<C>(s))
}

// The word of a modifier there, and what follows it.
#[tactic(auto, using(crate::proofs::Runs::skip_le, crate::proofs::Runs::take_front))]
pub fn split_word(s: &[u8]) -> (&[u8], &[u8])
    ensures word { result.0.now ≡ rule.front (λ b. not (wide_space b)) s.now }
    ensures rest { result.1.now ≡ rule.skip (λ b. not (wide_space b)) s.now }
{
    let rest = skip::<Word>(s);
    (&s[..s.len() - rest.len()], rest)
}

// Where the first byte b stands.
fn place(s: &[u8], b: u8) -> Option<usize>
    ensures { result ≡ position (λ x. x == b) s.now }
{
    s.iter().position(|x| *x == b)
}

// A slice in two at its first byte b: what stands before it, and what follows it, if it stands at all.
pub fn cut(s: &[u8], b: u8) -> (&[u8], Option<&[u8]>)
    ensures { IsCut b s.now result.0.now (rest_of result.1) }
{
    match place(s, b) {
        Some(i) => (&s[..i], Some(&s[i + 1..])),
        None => (s, None),
    }
}

// ---- words, "compared as bytes, letters in either case": w is written in small letters

// Whether s is the word w.
#[tactic(auto, using(crate::proofs::Words::leads_all, crate::proofs::Words::word_other))]
pub fn is_word(s: &[u8], w: &[u8]) -> bool
    ensures { result ≡ rule.word w.now s.now }
{
    s.len() == w.len() && starts(s, w)
}

// Whether s begins with the word w, as starts(m, b"start of ") asks of a modifier.
pub fn starts(s: &[u8], w: &[u8]) -> bool
    ensures { result ≡ leads w.now s.now }
{
    w.len() <= s.len() && w.iter().zip(s).all(|(c, b)| *c == lower(*b))
}

// Whether s holds no "byte above 127". It is gone through to its end, which takes less time than a test after each byte.
pub fn is_ascii(s: &[u8]) -> bool
    ensures { result ≡ rule.every (λ b. leb b 127) s.now }
{
    let mut ascii = true;
    for b in s {
        ascii &= *b <= 127;
    }
    ascii
}
