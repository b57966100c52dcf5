// The packets of a script, in words.
ghost use Rattle.std.specs.Prelude.{◌≡◌, ◌+◌, ◌-◌, ◌<◌, ◌≤◌, length, IfSome};
ghost use Rattle.std.specs.Iterator.{YieldsFirstBy, item_count};
ghost use Rattle.std.specs.Option.{option_copied};
ghost use Rattle.little_endian.specs.Bytes.{joined};
ghost use Rattle.tool_words.specs.Packets.{packets_of, packet_of, most, listed};
ghost use Rattle.tool_words.specs.Shown.{listed_as, left};

use byte_parts::{behind, front};
use packet::Command;
use report::Line;

// The length of a script's head.
pub const HEAD: usize = 5;

// Where the columns of a list of packets begin: offset, command, and what stands behind it. The number of a packet ends
// before the column that comes next.
const OFFSET: usize = 10;

const COMMAND: usize = 30;

pub const BEHIND: usize = 49;

// A packet of a script: its number, from 1, its offset, and its bytes.
#[derive(Clone, Copy)]
pub struct Packet<'a> {
    pub number: usize,
    pub at: usize,
    pub bytes: &'a [u8],
}

// The packets of a script behind its head, one after the other, as far as it holds them whole.
#[derive(Drop)]
pub struct Packets<'a> {
    script: &'a [u8],
    number: usize,
    at: usize,
}

impl<'a> Packets<'a> {
    pub fn of(script: &'a [u8]) -> Packets<'a>
        ensures { left result ≡ listed 0 5 (packets_of script.now) }
    {
        Packets {
            script,
            number: 0,
            at: HEAD,
        }
    }
}

impl<'a> Iterator for Packets<'a> {
    type Item = Packet<'a>;

    ghost next_gives = { YieldsFirstBy listed_as left };

    ghost remaining = { item_count left };

    fn next(&mut self) -> Option<Packet<'a>> {
        let bytes = packet_at(self.script, self.at)?;
        let packet = Packet {
            number: self.number.saturating_add(1),
            at: self.at,
            bytes,
        };
        self.number = packet.number;
        self.at += bytes.len();
        Some(packet)
    }
}

impl<'a> Packet<'a> {
    // The offset behind the packet.
    fn end(self) -> usize
        ensures { result ≡ most (self.entry.at + length self.entry.bytes.now) }
    {
        self.at.saturating_add(self.bytes.len())
    }
}

// The packet that a script has at an offset, if it holds that whole.
#[tactic(auto, unfolding(script::specs::Script::front_of))]
pub fn packet_at(script: &[u8], at: usize) -> Option<&[u8]>
    ensures packet { option_copied result ≡ packet_of at script.now }
    ensures within { IfSome result (λ packet. (0 < length packet.now) × (length packet.now ≤ length script.now - at)) }
{
    let rest = behind(script, at);
    Some(front(rest, script::front(rest)?))
}

// How many packets a script has.
pub fn count(script: &[u8]) -> usize
    ensures { result ≡ length (packets_of script.now) }
{
    Packets::of(script).count()
}

// The offset where the framing of a script ends: the script's end, or the start of a packet that is cut.
pub fn end(script: &[u8]) -> usize
    ensures { result ≡ 5 + length (joined (packets_of script.now)) }
{
    Packets::of(script)
        .last()
        .map_or(HEAD, |packet| packet.end())
}

// The address in the last packet of a script, none where it has no packet.
pub fn last_address(script: &[u8]) -> Option<usize> {
    Packets::of(script)
        .last()
        .map(|packet| packet::address(packet::core(packet.bytes)))
}

// The name of a command by its code. Here and below the codes are numbers, as the papers' tables print them: the crates that
// judge keep their own names of them to themselves.
fn name_of(code: u8) -> Option<&'static str> {
    match code {
        0x21 => Some(" password"),
        0x15 => Some(" erase"),
        0x20 => Some(" write"),
        0x26 => Some(" range checksum"),
        0x27 => Some(" start"),
        _ => None,
    }
}

// A line with the code of a command behind it, and its name.
fn coded(line: Line, code: u8) -> Line {
    line.code(code.into(), 2)
        .text(name_of(code).unwrap_or(" unknown"))
}

// A line with the command of a packet behind it.
pub fn command(line: Line, packet: &[u8]) -> Line {
    let core = packet::core(packet);
    let Some(&code) = core.first() else {
        return line.text("none");
    };
    let named = coded(line, code);
    match packet::command_of(core) {
        Command::Unknown if name_of(code).is_some() => named.text(", wrong length"),
        _ => named,
    }
}

// A line with the command of a packet behind it that its script does not hold whole.
fn cut(line: Line, packet: &[u8]) -> Line {
    match packet.get(3) {
        Some(&code) => coded(line, code).text(", cut"),
        None => line.text("not there, cut"),
    }
}

// A line with the command of the packet at an offset of a script behind it.
pub fn command_at(line: Line, script: &[u8], at: usize) -> Line {
    match packet_at(script, at) {
        Some(packet) => command(line, packet),
        None => cut(line, behind(script, at)),
    }
}

// A line with the acknowledgement of a packet behind it, and what it says.
pub fn acknowledgement(line: Line, code: u8) -> Line {
    line.code(code.into(), 2).text(match code {
        0x51 => " does not begin with 80",
        0x52 => " checksum wrong",
        0x53 => " core length 0",
        0x54 => " core length above 261",
        0x55 => " length wrong",
        _ => "",
    })
}

// A line with a message of the loader behind it, and what it says.
pub fn message(line: Line, code: u8) -> Line {
    line.code(code.into(), 2).text(match code {
        0x00 => " done",
        0x01 => " outside the region, not writable, or not to be started",
        0x04 => " locked",
        0x05 => " wrong password",
        0x07 => " unknown command or wrong core length",
        _ => "",
    })
}

// The heading of a list of packets, as far as every list has it.
pub fn heading() -> Line {
    Line::new()
        .text("packet")
        .to(OFFSET)
        .text("offset")
        .to(COMMAND)
        .text("command")
}

// The line of a packet, as far as every list has it: its number, its offset and its command.
pub fn row(packet: Packet<'_>) -> Line {
    let line = Line::new()
        .right(packet.number, OFFSET - 3)
        .to(OFFSET)
        .decimal(packet.at)
        .text(" (")
        .hex(packet.at);
    command(line.text(")").to(COMMAND), packet.bytes)
}
