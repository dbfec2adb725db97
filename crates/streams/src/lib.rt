// Standard input and output as the programs use them: blocks that are read into a lent buffer, bytes and numbers that are written, and for
// each call whether it could be done. Nothing is allocated, and no call is tried again: one that fails or is interrupted is told as it is.
//
// What the system gives and takes no contract can say. So each function is written for any reader or writer: of one whose bytes are known,
// the contract says which were taken or added. The programs call them with Stdin, Stdout and Stderr.
#![tactic(auto)]

ghost use Rattle.std.specs.Prelude.{◌≡◌, ◌<◌, ◌≤◌, IfOk, decimal, length};
ghost use Rattle.std.specs.Io.KnownBytes.{ReadConsumes, WriteAppends};
ghost use Rattle.rules.specs.Program.{hex};
ghost use Rattle.streams.specs.Known.{Writes};

use itoa::Buffer;
use std::io::{Read, Write};

// Why a read gave nothing: it failed.
#[derive(Clone, Copy)]
pub struct Unread;

// Why not all was written: a write failed, or took nothing.
#[derive(Clone, Copy)]
pub struct Unwritten;

// One read into a block: how many bytes came. 0 is the end of the input, if the block has room.
pub fn read<R: Read>(input: &mut R, block: &mut [u8]) -> Result<usize, Unread>
    ensures keeps_length { length block.new ≡ length block.old }
    ensures within { IfOk result (λ n. n ≤ length block.new) }
    ensures bytes { ReadConsumes (R.remaining input.old) (R.remaining input.new) result block.new }
{
    input.read(block).map_err(|_| Unread)
}

// Writes all bytes. Some of them may have been written where it fails: it stops at the first write that does, or that takes nothing.
// Of no bytes it makes no call. (std's write_all tries again where a write is interrupted, and its Err does not say what was written.)
pub fn write_all<W: Write>(out: &mut W, bytes: &[u8]) -> Result<(), Unwritten>
    ensures { Writes (W.contents out.old) (W.contents out.new) bytes.now result }
{
    let mut rest = bytes;
    while !rest.is_empty() {
        let n = write(out, rest)?;
        rest = &rest[n..];
    }
    Ok(())
}

// How many of the bytes one write took.
fn write<W: Write>(out: &mut W, bytes: &[u8]) -> Result<usize, Unwritten>
    ensures some { IfOk result (λ n. (0 < n) × (n ≤ length bytes.now)) }
    ensures bytes { WriteAppends (W.contents out.old) (W.contents out.new) result bytes.now }
{
    match out.write(bytes) {
        Ok(n) if n > 0 => Ok(n),
        _ => Err(Unwritten),
    }
}

// A number's decimal digits.
pub fn print_decimal<W: Write>(out: &mut W, n: u64) -> Result<(), Unwritten>
    ensures { Writes (W.contents out.old) (W.contents out.new) (decimal n) result }
{
    let mut text = Buffer::new();
    write_all(out, text.format(n).as_bytes())
}

// The last `width` of a number's hexadecimal digits, small letters, with zeros before them where it has fewer.
pub fn print_hex<W: Write>(out: &mut W, n: u64, width: usize) -> Result<(), Unwritten>
    requires { width ≤ 16 }
    ensures { Writes (W.contents out.old) (W.contents out.new) (hex width n) result }
{
    let mut text = [0u8; 16];
    digits::put_hex_digits(&mut text, 0, width, n);
    write_all(out, &text[..width])
}
