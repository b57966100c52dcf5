// The lines of a trace, document 01's, and of the cuts, document 02's: the line of a packet, of a cut
// and of the end, each handed back by value. What follows what in a trace is the layer above.
#![tactic(auto)]

mod draft;
mod lines;

ghost use Rattle.std.specs.Prelude.{◌≡◌};
ghost use Rattle.trace_lines.specs.Lines.{line_text};

pub use lines::{cut_line, end_line, packet_line};
use loader::Mode;

// How a trace ends.
#[derive(Clone, Copy)]
pub enum Ending {
    // At the script's end, or behind a start that succeeded.
    InMode(Mode),
    // Inside a packet.
    Cut,
    // The input is above 16,384 bytes.
    Long,
    // The input does not begin as a script does.
    Mark,
}

// How many bytes a line has room for. The longest has 29.
const ROOM: usize = 32;

// A line, its end included: the first of the bytes, so many as its length.
#[derive(Clone, Copy)]
pub struct Line {
    pub bytes: [u8; ROOM],
    pub length: usize,
}

impl Line {
    // Its bytes; all that it has room for, if its length is above that.
    pub fn as_bytes(&self) -> &[u8]
        ensures { result.now ≡ line_text self.now }
    {
        &self.bytes[..self.length.min(ROOM)]
    }
}
