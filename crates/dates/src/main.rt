// "The program reads tab-separated lines: first clock and offset .., then function (strftime: format next), time value or values,
// modifiers", and writes an answer a line. Crate lines answers each; here they are read and written, in blocks, in the same memory for
// any input.
//
// A line that lies whole in a block is answered there. One that goes on in the next block is kept: its first 8,193 bytes, which tell that
// a longer one is too long. The last line needs no newline, and a last newline begins no line.
#![tactic(auto)]

ghost use Rattle.std.specs.Prelude.{◌≡◌, ◌-◌, ◌≤◌, ◌<◌, ◌++◌, OnOk, ltb, length, take, drop};
ghost use Rattle.rules.specs.Program.{line};
ghost use Rattle.digits.specs.Writers.{Room, Laid};
ghost use Rattle.dates.specs.Answers.{text_length, line_text, last_in, last_after, Answers};
ghost use Rattle.dates.specs.Buffers.{kept_line, HasRoom, Keeps, Holds};

use rules::{Answer, Setting, Unanswered};
use std::io::{Stderr, Stdin, Stdout};
use streams::{Unread, Unwritten};

const NEWLINE: u8 = 10;

// "Its buffer [is] 16,384 bytes": what is lent for an answer. A newline follows it.
const ANSWER: usize = 16384;

// ---- a buffer, of which the first bytes are used

#[derive(Drop)]
struct Buffer<const N: usize> {
    bytes: [u8; N],
    used: usize,
    ghost long: { length bytes ≡ N },
    ghost within: { used ≤ N },
}

impl<const N: usize> Buffer<N> {
    fn new() -> Buffer<N> {
        Buffer {
            bytes: [0; N],
            used: 0,
        }
    }

    fn text(&self) -> &[u8]
        ensures { result.now ≡ take self.now.used self.now.bytes }
    {
        &self.bytes[..self.used]
    }

    // Adds a text.
    fn put(&mut self, s: &[u8])
        requires { Room self.old.bytes self.old.used s.now }
        ensures { Laid self.old.bytes self.old.used s.now self.new.bytes self.new.used }
    {
        let end = self.used + s.len();
        let bytes = &mut self.bytes[..];
        bytes[self.used..end].copy_from_slice(s);
        self.used = end;
    }

    // Adds a part of a line, as far as there is room.
    fn keep(&mut self, part: &[u8])
        ensures { Keeps self.old.bytes self.old.used part.now self.new.bytes self.new.used }
    {
        let n = (N - self.used).min(part.len());
        self.put(&part[..n]);
    }
}

// ---- the output

type Output = Buffer<65536>;

impl Output {
    // Whether an answer and its newline have room.
    fn has_room(&self) -> bool
        ensures { result ≡ ltb 16384 (65536 - self.now.used) }
    {
        ANSWER < self.bytes.len() - self.used
    }

    // A line's answer and a newline.
    fn put_line(&mut self, set: Setting, s: &[u8], room: &mut [u8; 8192])
        requires { HasRoom self.old.used }
        ensures { Laid self.old.bytes self.old.used (line_text set s.now) self.new.bytes self.new.used }
    {
        let end = self.used + ANSWER;
        let n = answer(set, s, room, &mut self.bytes[self.used..end]);
        self.used += n;
        self.put(b"\n");
    }

    // Answers the lines that end in a block, while there is room for one more answer: what is left of the block.
    fn answer_lines<'a>(&mut self, set: Setting, block: &'a [u8], room: &mut [u8; 8192]) -> &'a [u8]
        ensures { Answers set block.now self.old.bytes self.old.used self.new.bytes self.new.used result.now }
    {
        let mut rest = block;
        while self.has_room() {
            let (line, after) = text::cut(rest, NEWLINE);
            let Some(after) = after else {
                return rest;
            };
            self.put_line(set, line, room);
            rest = after;
        }
        rest
    }

    // Writes out what is there.
    fn flush(&mut self, stdout: &mut Stdout) -> Result<(), Unwritten>
        ensures emptied { self.new.used ≡ 0 }
        ensures untouched { self.new.bytes ≡ self.old.bytes }
    {
        let used = self.used;
        self.used = 0;
        streams::write_all(stdout, &self.bytes[..used])
    }

    // Writes it out where an answer might find no room.
    fn make_room(&mut self, stdout: &mut Stdout) -> Result<(), Unwritten>
        ensures room { HasRoom self.new.used }
        ensures untouched { self.new.bytes ≡ self.old.bytes }
    {
        if self.has_room() {
            return Ok(());
        }
        self.flush(stdout)
    }
}

// A line's answer at the front of a buffer, and how many bytes it has. None is longer than 16,384 bytes, so each finds room.
fn answer(set: Setting, s: &[u8], room: &mut [u8; 8192], out: &mut [u8]) -> usize
    requires { 16384 ≤ length out.old }
    ensures size { (result ≡ length (line set s.now)) × (result ≤ 16384) }
    ensures bytes { out.new ≡ line set s.now ++ drop result out.old }
{
    text_length(lines::line(set, s, room, out))
}

// How many bytes a text has that found room: no other answer comes of a line. As a match in `answer` it was tried, and the proof didn't
// close: the arm of all other answers has no fact to use.
fn text_length(a: Result<Answer, Unanswered>) -> usize
    ensures { result ≡ text_length a }
{
    match a {
        Ok(Answer::Text(n)) => n,
        _ => 0,
    }
}

// ---- the run

// Why nothing more is read, where it isn't the input's end.
#[derive(Clone, Copy)]
enum Stop {
    // "a bad first line": its answer is put
    First,
    Unread,
    Unwritten,
}

impl From<Unread> for Stop {
    fn from(_: Unread) -> Stop {
        Stop::Unread
    }
}

impl From<Unwritten> for Stop {
    fn from(_: Unwritten) -> Stop {
        Stop::Unwritten
    }
}

#[derive(Drop)]
struct Run {
    // of the first line, once it has been read
    set: Option<Setting>,
    // the first bytes of a line that goes on in the next block
    kept: Buffer<8193>,
    // what is to be written
    out: Output,
    // for a line's modifiers
    room: [u8; 8192],
}

impl Run {
    // One block of the input.
    fn take(&mut self, stdout: &mut Stdout, block: &[u8]) -> Result<(), Stop>
        ensures { OnOk result (Holds self.new.kept.bytes self.new.kept.used (last_after (kept_line self.old.kept.bytes self.old.kept.used) block.now)) }
    {
        if let Some(set) = self.set
            && self.kept.used == 0
        {
            return self.take_lines(stdout, set, block);
        }
        let (end, after) = text::cut(block, NEWLINE);
        self.kept.keep(end);
        let Some(after) = after else {
            return Ok(());
        };
        let set = self.close(stdout)?;
        self.take_lines(stdout, set, after)
    }

    // The lines of a block; what begins a line at its end is kept.
    fn take_lines(&mut self, stdout: &mut Stdout, set: Setting, block: &[u8]) -> Result<(), Stop>
        ensures { OnOk result (Holds self.new.kept.bytes self.new.kept.used (last_in block.now)) }
    {
        let mut rest = block;
        loop {
            self.out.make_room(stdout)?;
            let left = self.out.answer_lines(set, rest, &mut self.room);
            if left.len() == rest.len() {
                break;
            }
            rest = left;
        }
        self.kept.used = 0;
        self.kept.keep(rest);
        Ok(())
    }

    // The end of the line that is kept: the first one, or one to answer. What the first one said.
    fn close(&mut self, stdout: &mut Stdout) -> Result<Setting, Stop> {
        self.out.make_room(stdout)?;
        let set = match self.set {
            Some(set) => {
                self.out.put_line(set, self.kept.text(), &mut self.room);
                set
            }
            None => match lines::first_line(self.kept.text()) {
                Some(set) => set,
                None => {
                    self.out.put(b"refused 4\n");
                    return Err(Stop::First);
                }
            },
        };
        self.set = Some(set);
        self.kept.used = 0;
        Ok(set)
    }

    // The end of the input: what is kept is its last line, and a missing first line is a bad one.
    fn finish(&mut self, stdout: &mut Stdout) -> Result<(), Stop> {
        if self.set.is_none() || self.kept.used > 0 {
            self.close(stdout)?;
        }
        Ok(())
    }

    // Reads all blocks. The turns end, as Rattle asks of every loop: after more bytes than any input has.
    fn read_all(
        &mut self,
        stdin: &mut Stdin,
        stdout: &mut Stdout,
        block: &mut [u8],
    ) -> Result<(), Stop> {
        for _ in 0..u64::MAX {
            let n = streams::read(stdin, block)?;
            if n == 0 {
                return self.finish(stdout);
            }
            self.take(stdout, &block[..n])?;
        }
        Ok(())
    }
}

fn main(rt: HostRuntime) {
    let mut stdin = rt.stdin();
    let mut stdout = rt.stdout();
    let mut stderr = rt.stderr();
    let mut block = [0u8; 65536];
    let mut run = Run {
        set: None,
        kept: Buffer::new(),
        out: Buffer::new(),
        room: [0; 8192],
    };
    let read = run.read_all(&mut stdin, &mut stdout, &mut block);
    end(&mut stdout, &mut stderr, read, &mut run.out);
}

// Writes out what is left, and says what could not be read or written. What comes after a part that could not be written is not written.
fn end(stdout: &mut Stdout, stderr: &mut Stderr, read: Result<(), Stop>, out: &mut Output) {
    let written = match read {
        Err(Stop::Unwritten) => Err(Unwritten),
        _ => out.flush(stdout),
    };
    if let Err(Stop::Unread) = read {
        let _ = streams::write_all(stderr, b"dates: the input cannot be read\n");
    }
    if written.is_err() {
        let _ = streams::write_all(stderr, b"dates: the output cannot be written\n");
    }
}
