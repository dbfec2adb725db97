// What refuses the modifiers' buffer before anything is read.
ghost use Rattle.std.specs.Prelude.{◌≡◌};
ghost use Rattle.modifiers.specs.Buffer.{allowed};

use rules::Refusal;

// "Modifiers lie in one lent buffer, each ended by a zero byte." 2: "a modifier has over 255 bytes, there are over 16 modifiers, or the last
// is not ended"; else 3: one "holds a byte above 127".
pub fn allowed(buffer: &[u8]) -> Result<(), Refusal>
    ensures { result ≡ allowed buffer.now }
{
    let mut high = false;
    let mut ended: u32 = 0;
    let mut bytes: u32 = 0;
    for b in buffer {
        if *b == 0 {
            if ended == 16 {
                return Err(Refusal::Shape);
            }
            ended += 1;
            bytes = 0;
        } else {
            if bytes == 255 {
                return Err(Refusal::Shape);
            }
            bytes += 1;
            if *b > 127 {
                high = true;
            }
        }
    }
    if bytes > 0 {
        return Err(Refusal::Shape);
    }
    if high {
        return Err(Refusal::Bytes);
    }
    Ok(())
}
