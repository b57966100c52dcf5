// A line while it is put together.
ghost use Rattle.std.specs.Prelude.{◌≡◌, ◌++◌, ◌+◌, ◌/◌, ◌%◌, ◌<◌, ◌≤◌, length, List, [], ℕ};
ghost use Rattle.trace_lines.specs.Lines.{digit, decimal, hex, line_text, Holds};

use crate::{Line, ROOM};
use std::marker::Model;

// A line behind whose bytes its room is still zeros.
#[derive(Drop)]
pub struct Draft {
    line: Line,
}

impl Model for Draft {
    ghost Value = { List ℕ };

    ghost view = { λ draft. line_text draft.line };

    ghost invariant = { λ draft. (draft.line.length ≤ 32) × Holds draft.line (line_text draft.line) };
}

// Each part that is put behind a line asks for its own room, so that no one fact stands for all of them.
impl Draft {
    // A line of no bytes.
    pub fn new() -> Self
        ensures { result ≡ [] }
    {
        Draft {
            line: Line {
                bytes: [0; ROOM],
                length: 0,
            },
        }
    }

    // The line as it is handed back.
    pub fn line(&self) -> Line
        ensures text { line_text result ≡ self.now }
        ensures zeros { Holds result self.now }
    {
        self.line
    }

    // Bytes behind it.
    pub fn append(&mut self, new: &[u8])
        requires { length self.old + length new.now ≤ 32 }
        ensures text { self.new ≡ self.old ++ new.now }
        ensures longer { length self.new ≡ length self.old + length new.now }
    {
        let line = &mut self.line;
        let end = line.length + new.len();
        line.bytes[line.length..end].copy_from_slice(new);
        line.length = end;
    }

    // A byte in two lower-case hex digits.
    pub fn append_hex(&mut self, byte: u8)
        requires { length self.old + 2 ≤ 32 }
        ensures text { self.new ≡ self.old ++ hex byte }
        ensures longer { length self.new ≡ length self.old + 2 }
    {
        self.append(&[digit_of(byte / 16), digit_of(byte % 16)]);
    }

    // A number in decimal.
    #[tactic(auto, using(crate::proofs::Texts::decimal_written, crate::proofs::Texts::decimal_short))]
    pub fn append_decimal(&mut self, number: u16)
        requires { length self.old + 5 ≤ 32 }
        ensures text { self.new ≡ self.old ++ decimal number }
        ensures longer { length self.new ≤ length self.old + 5 }
    {
        self.append(itoa::Buffer::new().format(number).as_bytes());
    }
}

// A digit below 16.
#[tactic(auto, unfolding(crate::specs::Lines::digit))]
fn digit_of(value: u8) -> u8
    requires { value < 16 }
    ensures { result ≡ digit value }
{
    if value < 10 {
        b'0' + value
    } else {
        b'a' - 10 + value
    }
}
