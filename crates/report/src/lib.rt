// Lines of a report: a line goes in by value and comes back with words or numbers behind what it had, and
// is printed whole. What a line has no room for is left out. None of these functions asks anything of its
// input. One `println!` would not do: columns are counted from what a line holds, and a name from outside need not be text.
// Of printing, and of what std's formats write, safety alone is promised.
#![tactic(auto)]

ghost use Rattle.std.specs.Prelude.{◌≡◌, [], ◌∷◌};
ghost use Rattle.std.specs.Iterator.{YieldsFirst, item_count};
ghost use Rattle.report.specs.Lines.{lengthened, cleaned, printable, checksum_text};
ghost use Rattle.report.specs.Shown.{holds, left};

use arrayvec::ArrayVec;
use byte_parts::front;
use std::convert::AsSlice;
use std::fmt::{Display, Write};
use std::rt::HostRuntime;
use std::{fmt, io, process, str};

// The most bytes of a line.
const ROOM: usize = 256;

#[derive(Drop)]
pub struct Line {
    held: ArrayVec<u8, ROOM>,
}

// What the tool asks of the system beside what std's traits name.
pub trait System: Print {
    // Writes bytes, which need not be text, to standard error. Where that fails there is nowhere to say so.
    fn complain(&self, bytes: &[u8]);

    // The number of this process.
    fn process_number(&self) -> u32;
}

impl System for HostRuntime {
    fn complain(&self, bytes: &[u8]) {
        let _ = self.stderr().write_all(bytes);
    }

    fn process_number(&self) -> u32 {
        process::id(self.process())
    }
}

// A line takes what is written to it, as far as it has room.
impl fmt::Write for Line {
    ghost write_str_gives = { λ old words new. holds new ≡ lengthened (holds old) words };

    fn write_str(&mut self, words: &str) -> fmt::Result {
        self.put(words.as_bytes());
        Ok(())
    }
}

impl Line {
    // An empty line.
    pub fn new() -> Line
        ensures { holds result ≡ [] }
    {
        Line {
            held: ArrayVec::new(),
        }
    }

    // Puts bytes behind what the line has.
    fn put(&mut self, bytes: &[u8])
        ensures { holds self.new ≡ lengthened (holds self.old) bytes.now }
    {
        let room = self.held.remaining_capacity();
        let _ = self.held.try_extend_from_slice(front(bytes, room));
    }

    // The line with a value behind it, as it is shown.
    fn shown<D: Display + Drop>(mut self, value: D) -> Line {
        let _ = write!(self, "{value}");
        self
    }

    // The line with bytes behind it.
    fn bytes(mut self, bytes: &[u8]) -> Line
        ensures { holds result ≡ lengthened (holds self) bytes.now }
    {
        self.put(bytes);
        self
    }

    // The line with one byte more.
    pub fn byte(self, b: u8) -> Line
        ensures { holds result ≡ lengthened (holds self) (b ∷ []) }
    {
        self.bytes(&[b])
    }

    // The line with words behind it: text, or bytes that need not be any.
    pub fn text<W: AsSlice<u8> + Drop>(self, words: W) -> Line
        ensures { holds result ≡ lengthened (holds self) (W.items words) }
    {
        self.bytes(words.as_slice())
    }

    // The line with a name behind it that came from outside, without its control characters.
    pub fn name(self, words: &[u8]) -> Line {
        let mut line = self;
        for b in Printable::of(words) {
            line = line.byte(b);
        }
        line
    }

    // The line with a byte behind it so many times.
    pub fn repeat(self, b: u8, count: usize) -> Line {
        let mut line = self;
        for _ in 0..count {
            line = line.byte(b);
        }
        line
    }

    // The line with spaces behind it, up to a column.
    pub fn to(self, column: usize) -> Line {
        let missing = column.saturating_sub(self.held.len());
        self.repeat(b' ', missing)
    }

    // The line with a number behind it.
    pub fn decimal(self, n: usize) -> Line {
        self.shown(n)
    }

    // The line with a number behind it in at least so many digits.
    pub fn padded(self, n: usize, least: usize) -> Line {
        self.shown(format_args!("{n:0least$}"))
    }

    // The line with a number behind it whose last digit stands before a column.
    pub fn right(self, n: usize, column: usize) -> Line {
        let width = column.saturating_sub(self.held.len());
        self.shown(format_args!("{n:width$}"))
    }

    // The line with a number of things behind it: `1 packet`, `2 packets`.
    pub fn count<W: AsSlice<u8> + Drop>(self, n: usize, thing: W) -> Line {
        let line = self.decimal(n).text(" ").text(thing);
        if n == 1 { line } else { line.text("s") }
    }

    // The line with 0x and a number behind it in hexadecimal digits.
    pub fn hex(self, n: usize) -> Line {
        self.shown(format_args!("{n:#x}"))
    }

    // The line with a number behind it in at least so many hexadecimal digits, at most 16.
    pub fn code(self, n: usize, least: usize) -> Line {
        let width = least.min(16);
        self.shown(format_args!("{n:0width$x}"))
    }

    // The line with a checksum behind it. No format, since std leaves open what one writes that fails.
    pub fn checksum(self, sum: u16) -> Line
        ensures { holds result ≡ lengthened (holds self) (checksum_text sum) }
    {
        let mut words = *b"0x0000";
        let _ = hex::encode_to_slice(sum.to_be_bytes(), &mut words[2..]);
        self.bytes(&words)
    }

    // The line with the reason of a failed call behind it, in the system's words without its number.
    pub fn reason(self, why: &impl Display) -> Line {
        let whole = Line::new().shown(why);
        self.bytes(before_number(whole.words()))
    }

    // What the line holds.
    pub fn words(&self) -> &[u8]
        ensures { result.now ≡ holds self.now }
    {
        self.held.as_slice()
    }

    // Prints the line to standard output.
    pub fn print(self, rt: &impl Print) -> io::Result<()> {
        let ended = self.byte(b'\n');
        rt.write_all(ended.words())
    }

    // Prints the line to standard error.
    pub fn complain(self, rt: &impl System) {
        let ended = self.byte(b'\n');
        rt.complain(ended.words());
    }
}

// The words of a reason before the number that std writes behind those of the system.
fn before_number(words: &[u8]) -> &[u8] {
    match str::from_utf8(words) {
        Ok(text) => match text.rsplit_once(" (os error ") {
            Some((reason, _)) => reason.as_bytes(),
            None => words,
        },
        Err(_) => words,
    }
}

// The bytes of a name from outside as they may be sent to a terminal.
#[derive(Drop)]
pub struct Printable<'a> {
    before: u8,
    rest: &'a [u8],
}

impl<'a> Printable<'a> {
    pub fn of(name: &'a [u8]) -> Printable<'a>
        ensures { left result ≡ printable 0 name.now }
    {
        Printable {
            before: 0,
            rest: name,
        }
    }
}

impl<'a> Iterator for Printable<'a> {
    type Item = u8;

    ghost next_gives = { YieldsFirst left };

    ghost remaining = { item_count left };

    fn next(&mut self) -> Option<u8> {
        let (&b, rest) = self.rest.split_first()?;
        let before = self.before;
        let after = rest.first().copied().unwrap_or(0);
        self.before = b;
        self.rest = rest;
        Some(cleaned(before, b, after))
    }
}

// A byte of a name by its neighbours, a question mark for a control character. In UTF-8 those above 0x7f are 0xc2 and a
// byte from 0x80 to 0x9f, which behind other bytes is a later one of a letter.
fn cleaned(before: u8, b: u8, after: u8) -> u8
    ensures { result ≡ cleaned before b after }
{
    match b {
        0x00..=0x1F | 0x7F => b'?',
        0x80..=0x9F if matches!(before, 0x00..=0x7F | 0xC2) => b'?',
        0xC2 if matches!(after, 0x80..=0x9F) => b'?',
        _ => b,
    }
}
