// What a call is given beside its values: the clock and the offset, as refusal 4 lets them through.
//
// 4: "clock above 253402300799999, or offset outside -86399 to 86399"
ghost use Rattle.std.specs.Prelude.{◌≡◌, ◌≤◌, ◌↔◌, IsSome, IfSome, unsigned_abs};

// Milliseconds from 1970-01-01 UTC.
#[derive(Clone, Copy)]
pub struct Clock {
    pub ms: u64,
    pub ghost within: { ms ≤ 253402300799999 },
}

impl Clock {
    pub fn new(ms: u64) -> Option<Clock>
        ensures some { IsSome result ↔ (ms ≤ 253402300799999) }
        ensures value { IfSome result (λ clock. clock.ms ≡ ms) }
    {
        if ms > 253402300799999 {
            return None;
        }
        Some(Clock { ms })
    }
}

// Seconds east of UTC.
#[derive(Clone, Copy)]
pub struct Offset {
    pub seconds: i64,
    pub ghost within: { unsigned_abs seconds ≤ 86399 },
}

impl Offset {
    pub fn new(seconds: i64) -> Option<Offset>
        ensures some { IsSome result ↔ (unsigned_abs seconds ≤ 86399) }
        ensures value { IfSome result (λ offset. offset.seconds ≡ seconds) }
    {
        if seconds.unsigned_abs() > 86399 {
            return None;
        }
        Some(Offset { seconds })
    }
}
