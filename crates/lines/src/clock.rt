// "First clock and offset (digits, a minus allowed before the offset)".
ghost use Rattle.std.specs.Prelude.{◌≡◌, [], ◌∷◌, ◌≤◌, IfSome};
ghost use Rattle.rules.specs.Basics.{read_some};
ghost use Rattle.rules.specs.Program.{two_fields};
ghost use Rattle.lines.specs.First.{up_to, near};

use rules::Setting;

// The limits of refusal 4: milliseconds from 1970, and seconds east or west.
const CLOCK_MAX: u64 = 253402300799999;

const OFFSET_MAX: u64 = 86399;

// The two fields of a first line.
pub fn setting(clock: &[u8], offset: &[u8]) -> Option<Setting>
    ensures { read_some (λ set. set) result ≡ two_fields (clock.now ∷ offset.now ∷ []) }
{
    Some(Setting {
        clock: number_of(clock, CLOCK_MAX)?,
        offset: offset_of(offset)?,
    })
}

fn offset_of(s: &[u8]) -> Option<i64>
    ensures { read_some (λ z. z) result ≡ near s.now }
{
    match text::byte(s, b'-') {
        Some(west) => Some(-(number_of(west, OFFSET_MAX)? as i64)),
        None => Some(number_of(s, OFFSET_MAX)? as i64),
    }
}

// Digits alone, at least one, of any number, whose number is at most `most`. A number that is more is given up at once, so none wraps.
fn number_of(s: &[u8], most: u64) -> Option<u64>
    requires { most ≤ 253402300799999 }
    ensures value { read_some (λ n. n) result ≡ up_to most s.now }
    ensures at_most { IfSome result (λ n. n ≤ most) }
{
    if s.is_empty() {
        return None;
    }
    let mut n: u64 = 0;
    for b in s {
        if !text::is_digit(*b) {
            return None;
        }
        n = n * 10 + u64::from(*b - b'0');
        if most < n {
            return None;
        }
    }
    Some(n)
}
