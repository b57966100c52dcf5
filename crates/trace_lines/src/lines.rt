// The lines of a trace and of the cuts.
ghost use Rattle.std.specs.Prelude.{◌≡◌, ◌++◌, ◌+◌, ◌≤◌, length};
ghost use Rattle.trace_lines.specs.Lines.{fields, line_of, mode_name, word_of, end_line, four_digits, cut_line, line_text, Holds};

use crate::draft::Draft;
use crate::{Ending, Line};
use loader::{Loader, Mode, Reply};

// The name of a mode.
fn name(mode: Mode) -> &'static [u8]
    ensures text { result.now ≡ mode_name mode }
    ensures short { length result.now ≤ 11 }
{
    match mode {
        Mode::Application => b"application",
        Mode::Locked => b"locked",
        Mode::Unlocked => b"unlocked",
    }
}

// The word of an ending.
fn word(ending: Ending) -> &'static [u8]
    ensures text { result.now ≡ word_of ending }
    ensures short { length result.now ≤ 11 }
{
    match ending {
        Ending::InMode(mode) => name(mode),
        Ending::Cut => b"cut",
        Ending::Long => b"long",
        Ending::Mark => b"mark",
    }
}

impl Draft {
    // Command, ack and message of a packet.
    #[tactic(auto, unfolding(crate::specs::Lines::fields))]
    fn append_fields(&mut self, command: u8, reply: Reply)
        requires { length self.old + 10 ≤ 32 }
        ensures text { self.new ≡ self.old ++ fields command reply }
        ensures longer { length self.new ≤ length self.old + 10 }
    {
        match reply {
            Reply::Nothing => {
                self.append_hex(command);
                self.append(b" - -");
            }
            Reply::Byte(ack) => {
                self.append(b"- ");
                self.append_hex(ack);
                self.append(b" -");
            }
            Reply::Message(message) => {
                self.append_hex(command);
                self.append(b" 00 ");
                self.append_hex(message);
            }
            Reply::Data(_) => {
                self.append_hex(command);
                self.append(b" 00 data");
            }
        }
    }

    // A number in four hex digits.
    fn append_four_digits(&mut self, number: u16)
        requires { length self.old + 4 ≤ 32 }
        ensures text { self.new ≡ self.old ++ four_digits number }
        ensures longer { length self.new ≡ length self.old + 4 }
    {
        let [high, low] = number.to_be_bytes();
        self.append_hex(high);
        self.append_hex(low);
    }
}

// The line of a packet at an offset.
pub fn packet_line(at: u16, packet: &[u8], reply: Reply) -> Line
    ensures text { line_text result ≡ line_of at packet.now reply }
    ensures zeros { Holds result (line_of at packet.now reply) }
{
    let mut draft = Draft::new();
    draft.append_decimal(at);
    draft.append(b" ");
    draft.append_fields(little_endian::byte_at(packet::core(packet), 0), reply);
    draft.append(b"\n");
    draft.line()
}

// The end line at an offset.
pub fn end_line(at: u16, ending: Ending) -> Line
    ensures text { line_text result ≡ end_line at ending }
    ensures zeros { Holds result (end_line at ending) }
{
    let mut draft = Draft::new();
    draft.append(b"end ");
    draft.append_decimal(at);
    draft.append(b" ");
    draft.append(word(ending));
    draft.append(b"\n");
    draft.line()
}

// The line of a cut at an offset and a place, for the region that it leaves.
pub fn cut_line(at: u16, place: u16, state: Loader, region: &[u8]) -> Line
    ensures text { line_text result ≡ cut_line at place state region.now }
    ensures zeros { Holds result (cut_line at place state region.now) }
{
    let mode = power_cut::restarted(state, region).mode;
    let sum = crc::checksum(crc::START, region);
    let mut draft = Draft::new();
    draft.append_decimal(at);
    draft.append(b" ");
    draft.append_decimal(place);
    draft.append(b" ");
    draft.append(name(mode));
    draft.append(b" ");
    draft.append_four_digits(sum);
    draft.append(b"\n");
    draft.line()
}
