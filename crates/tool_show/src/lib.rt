// `show`: the packets of a script, a line each.
#![tactic(auto)]

use arguments::Options;
use byte_parts::behind;
use packet::Command;
use refusal::Refusal;
use report::{Line, System};
use std::io;
use std::rt::{Env, Files};
use tool_words::packets::{Packet, Packets};
use tool_words::{cause, packets};

// Where the columns behind the command begin: address, length, acknowledgement. A length ends before the column that
// comes next.
const ADDRESS: usize = packets::BEHIND;

const LENGTH: usize = 70;

const ACKNOWLEDGEMENT: usize = 73;

// The length of the longest script. The checker keeps its own to itself.
const LONGEST: usize = 2097152;

// A line with the address of a core behind it.
fn address(line: Line, core: &[u8]) -> Line {
    line.to(ADDRESS).hex(packet::address(core))
}

// A line with a length behind it.
fn length(line: Line, n: usize) -> Line {
    line.right(n, LENGTH)
}

// A line with address and length of a core behind it, as far as its command has them. The length of a range
// checksum is that of the range, of other commands the number of their data bytes.
fn operands(line: Line, core: &[u8]) -> Line {
    match packet::command_of(core) {
        Command::Password => length(line, behind(core, 1).len()),
        Command::Write => length(address(line, core), behind(core, 5).len()),
        Command::RangeChecksum => length(address(line, core), packet::range_length(core)),
        Command::Start => address(line, core),
        Command::Erase | Command::Unknown => line,
    }
}

// The line of a packet.
fn row(packet: Packet<'_>) -> Line {
    let line = operands(packets::row(packet), packet::core(packet.bytes)).to(ACKNOWLEDGEMENT);
    packets::acknowledgement(line, packet::acknowledgement(packet.bytes))
}

fn heading(rt: &impl Print) -> io::Result<()> {
    packets::heading()
        .to(ADDRESS)
        .text("address")
        .to(LENGTH - 6)
        .text("length")
        .to(ACKNOWLEDGEMENT)
        .text("acknowledgement")
        .print(rt)
}

// Lists a script that begins as one.
fn list(rt: &impl Print, script: &[u8]) -> io::Result<()> {
    let end = packets::end(script);
    if end < script.len() {
        refused(rt, Refusal::PacketCut, end)?;
    }
    Line::new()
        .text("script of ")
        .count(script.len(), "byte")
        .text(", ")
        .count(packets::count(script), "packet")
        .print(rt)?;
    heading(rt)?;
    for packet in Packets::of(script) {
        row(packet).print(rt)?;
    }
    Ok(())
}

// Says that a script is refused, and at which place.
fn refused(rt: &impl Print, why: Refusal, at: usize) -> io::Result<()> {
    cause::refused(rt, why)?;
    cause::place(at).print(rt)
}

// Shows a script, or says why it is none, in document 01's order.
fn show(rt: &impl Print, script: &[u8]) -> io::Result<()> {
    if LONGEST < script.len() {
        return refused(rt, Refusal::TooLong, 0);
    }
    if !script::is_headed(script) {
        return refused(rt, Refusal::ScriptHead, 0);
    }
    list(rt, script)
}

pub fn run(rt: &(impl System + Env + Files), options: Options, room: &mut [u8]) -> io::Result<()> {
    match files::read(rt, options.first, room) {
        Some(script) => show(rt, script),
        None => Ok(()),
    }
}
