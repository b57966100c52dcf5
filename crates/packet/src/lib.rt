// The loader's packets, written and read: 0x80, core length low, core length high, core, checksum
// low, checksum high. A message is judged by `acknowledgement`; its core, the core's command,
// address and range length are read off by the others; `write` puts a packet around a core. None
// of them asks anything of its input.
#![tactic(auto)]

ghost use Rattle.std.specs.Prelude.{◌≡◌, ◌+◌, ◌<◌, ◌≤◌, eqb, length};
ghost use Rattle.crc.specs.Crc.{checksum_of};
ghost use Rattle.little_endian.specs.Bytes.{stored_at};
ghost use Rattle.packet.specs.Packet.{core_length, core_of, carried, acknowledgement_of, command_of};
ghost use Rattle.packet.specs.Packet.{address_of, range_length_of, packet_of, written, write_of};

use little_endian::Number;

// The greatest core length.
const LONGEST_CORE: usize = 261;

// The byte that every packet begins with.
const HEADER: u8 = 0x80;

// What answers a message without fault, and its faults: the bytes themselves, since they go onto the wire as they are.
pub const ACKNOWLEDGED: u8 = 0x00;

const HEADER_WRONG: u8 = 0x51;

const CHECKSUM_WRONG: u8 = 0x52;

const CORE_EMPTY: u8 = 0x53;

const CORE_TOO_LONG: u8 = 0x54;

const LENGTH_WRONG: u8 = 0x55;

// The rows of document 01's table of commands; Unknown is every other code or core length.
#[derive(Clone, Copy, PartialEq, Eq)]
pub enum Command {
    Password,
    Erase,
    Write,
    RangeChecksum,
    Start,
    Unknown,
}

// The core length that a message states.
pub fn core_length(message: &[u8]) -> usize
    ensures { (result ≡ core_length message.now) × (result < 65536) }
{
    u16::number_at(message, 1) as usize
}

// The core of a message, as far as the message goes.
pub fn core(message: &[u8]) -> &[u8]
    ensures { result.now ≡ core_of message.now }
{
    byte_parts::front(byte_parts::behind(message, 3), core_length(message))
}

// Whether a message carries the checksum of its core.
fn sum_right(message: &[u8]) -> bool
    ensures { result ≡ eqb (carried message.now) (checksum_of (core_of message.now)) }
{
    u16::number_at(message, 3 + core_length(message)) == crc::checksum(crc::START, core(message))
}

// The byte that answers a message: its first fault, or `ACKNOWLEDGED`.
#[tactic(auto, unfolding(crate::specs::Packet::acknowledgement_of))]
pub fn acknowledgement(message: &[u8]) -> u8
    ensures { result ≡ acknowledgement_of message.now }
{
    if message.first() != Some(&HEADER) {
        return HEADER_WRONG;
    }
    if message.len() < 3 {
        return LENGTH_WRONG;
    }
    let stated = core_length(message);
    if stated == 0 {
        return CORE_EMPTY;
    }
    if LONGEST_CORE < stated {
        return CORE_TOO_LONG;
    }
    if message.len() != stated + 5 {
        return LENGTH_WRONG;
    }
    if !sum_right(message) {
        return CHECKSUM_WRONG;
    }
    ACKNOWLEDGED
}

// The command of a core: its code and its length pick the row of document 01's table.
#[tactic(auto, unfolding(crate::specs::Packet::command_of, crate::specs::Packet::in_row))]
pub fn command_of(core: &[u8]) -> Command
    ensures { result ≡ command_of core.now }
{
    match (little_endian::byte_at(core, 0), core.len()) {
        (0x21, 257) => Command::Password,
        (0x15, 1) => Command::Erase,
        (0x20, 6..=261) => Command::Write,
        (0x26, 7) => Command::RangeChecksum,
        (0x27, 5) => Command::Start,
        _ => Command::Unknown,
    }
}

// The address of a core: the four bytes after the code, low byte first.
pub fn address(core: &[u8]) -> usize
    ensures { (result ≡ address_of core.now) × (result < 4294967296) }
{
    u32::number_at(core, 1) as usize
}

// The length that a range checksum's core asks for.
pub fn range_length(core: &[u8]) -> usize
    ensures { (result ≡ range_length_of core.now) × (result < 65536) }
{
    u16::number_at(core, 5) as usize
}

// A packet around a core of at most 261 bytes, over the front of a buffer that has the room. The length of a full block
// is stated as 05 01, where the vendor's page prints 09 00.
fn wrap(core: &[u8], out: &mut [u8])
    requires { (length core.now ≤ 261) × (length core.now + 5 ≤ length out.old) }
    ensures { out.new ≡ stored_at 0 (packet_of core.now) out.old }
{
    let n = core.len();
    little_endian::store(&[HEADER], 0, out);
    (n as u16).store_at(1, out);
    little_endian::store(core, 3, out);
    crc::checksum(crc::START, core).store_at(3 + n, out);
}

// A packet around a core, over the front of a buffer. The answer is false, and the buffer as it
// was, if the core is not 1 to 261 bytes or the buffer is shorter than the packet. It stays a bool: no value goes with it.
#[tactic(auto, unfolding(crate::specs::Packet::write_of))]
pub fn write(core: &[u8], out: &mut [u8]) -> bool
    ensures { written result out.new ≡ write_of core.now out.old }
{
    let n = core.len();
    let fits = (1..=LONGEST_CORE).contains(&n) && n + 5 <= out.len();
    if fits {
        wrap(core, out);
    }
    fits
}
