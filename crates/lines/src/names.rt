// The names of the functions.
ghost use Rattle.std.specs.Prelude.{◌≡◌};
ghost use Rattle.rules.specs.Basics.{read_some};
ghost use Rattle.rules.specs.Program as rule;
ghost use Rattle.lines.specs.Names.{named};

use rules::Function;

#[derive(Clone, Copy)]
pub enum Name {
    // one of the five functions of a time value and its modifiers
    General(Function),
    Strftime,
    Timediff,
}

// Seven tests: a match on the byte strings would ask for a proof at each byte where a name may end or differ, some fifty.
#[tactic(auto, unfolding(crate::specs::Names::named, rules::specs::Program::general))]
pub fn name_of(s: &[u8]) -> Option<Name>
    ensures { read_some (λ n. n) result ≡ named s.now }
{
    if same(s, b"date") {
        Some(Name::General(Function::Date))
    } else if same(s, b"time") {
        Some(Name::General(Function::Time))
    } else if same(s, b"datetime") {
        Some(Name::General(Function::Datetime))
    } else if same(s, b"julianday") {
        Some(Name::General(Function::Julianday))
    } else if same(s, b"unixepoch") {
        Some(Name::General(Function::Unixepoch))
    } else if same(s, b"strftime") {
        Some(Name::Strftime)
    } else if same(s, b"timediff") {
        Some(Name::Timediff)
    } else {
        None
    }
}

// Whether s is w, byte for byte.
fn same(s: &[u8], w: &[u8]) -> bool
    ensures { result ≡ rule.same w.now s.now }
{
    w == s
}
