// Checksums, messages judged and packets written.
ghost use Rattle.std.specs.Prelude.{◌<◌};

use byte_parts::behind;
use little_endian::Number;
use packet::Command;
use std::io;
use vector_lines::show;

// The register from a start, which the first two bytes are, low byte first, over the others.
pub fn continued(rt: &impl Print, bytes: &[u8]) -> io::Result<()> {
    let sum = crc::checksum(u16::number_at(bytes, 0), behind(bytes, 2));
    print!(rt; " {sum:04x}")
}

// The checksum of joined bytes, from those of the two parts and the number of the second's bytes.
pub fn joined(rt: &impl Print, bytes: &[u8]) -> io::Result<()> {
    let sum = crc::joined(
        u16::number_at(bytes, 0),
        u16::number_at(bytes, 2),
        u16::number_at(bytes, 4),
    );
    print!(rt; " {sum:04x}")
}

// The command of a core, with the address and the length that it carries.
fn command(rt: &impl Print, core: &[u8]) -> io::Result<()> {
    let address = packet::address(core);
    let length = packet::range_length(core);
    match packet::command_of(core) {
        Command::Password => show::text(rt, b" password"),
        Command::Erase => show::text(rt, b" erase"),
        Command::Write => print!(rt; " write, address {address:08x}"),
        Command::RangeChecksum => {
            print!(rt; " range checksum, address {address:08x}, length {length:04x}")
        }
        Command::Start => print!(rt; " start, address {address:08x}"),
        Command::Unknown => show::text(rt, b" unknown or wrong length"),
    }
}

// The acknowledgement of a message; if it is 00, the core's length and its command.
pub fn message(rt: &impl Print, message: &[u8]) -> io::Result<()> {
    let acknowledgement = packet::acknowledgement(message);
    print!(rt; " {acknowledgement:02x}")?;
    if acknowledgement != 0 {
        return Ok(());
    }
    let core = packet::core(message);
    let length = core.len();
    print!(rt; ", core of {length},")?;
    command(rt, core)
}

// The 16 bytes ee after a packet around a core was written over their front.
pub fn written(rt: &impl Print, core: &[u8]) -> io::Result<()> {
    let mut out = [0xEEu8; 16];
    if !packet::write(core, &mut out) {
        show::text(rt, b" not written,")?;
    }
    show::bytes(rt, &out)
}

// Whether a core is written, acknowledged and read back.
fn is_read_back(core: &[u8]) -> bool {
    let mut out = [0u8; 267];
    if !packet::write(core, &mut out) {
        return false;
    }
    match out.get(..packet::core_length(&out) + 5) {
        Some(message) => packet::acknowledgement(message) == 0 && packet::core(message) == core,
        None => false,
    }
}

// Cores of every length from 0 to 262.
fn every_length(rt: &impl Print) -> io::Result<()> {
    show::text(
        rt,
        b"core lengths to 262 that are not written, acknowledged and read back:",
    )?;
    let core = [0x5Au8; 262];
    for n in 0..=core.len() {
        if !is_read_back(&core[..n]) {
            print!(rt; " {n}")?;
        }
    }
    show::line_end(rt)
}

// The acknowledgement of an erase packet with one of its 48 bits changed.
fn changed(rt: &impl Print, bit: u8) -> io::Result<()>
    requires { bit < 48 }
{
    let mut message = [0x80, 0x01, 0x00, 0x15, 0x64, 0xA3];
    message[usize::from(bit / 8)] ^= 1 << (bit % 8);
    let acknowledgement = packet::acknowledgement(&message);
    print!(rt; " {acknowledgement:02x}")
}

fn every_bit(rt: &impl Print) -> io::Result<()> {
    show::text(
        rt,
        b"erase packet with one bit changed, from the low bit of its first byte:",
    )?;
    for bit in 0..48u8 {
        changed(rt, bit)?;
    }
    show::line_end(rt)
}

pub fn run(rt: &impl Print) -> io::Result<()> {
    every_length(rt)?;
    every_bit(rt)
}
