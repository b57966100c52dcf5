// `cuts`: how a card comes up if the power fails while a script is sent to it, packet by packet. The regions that cuts
// leave, and the restart, are those of the proved model of the card.
#![tactic(auto)]

use arguments::Options;
use byte_parts::{front, front_mut};
use loader::{Loader, Mode};
use refusal::Refusal;
use report::{Line, System};
use std::io;
use std::rt::{Env, Files};
use tool_verdict::Behind;
use tool_words::packets::{Packet, Packets};
use tool_words::{cause, packets};

// Where the columns behind the command begin: how a card comes up from a cut before the packet, inside and after it.
const BEFORE: usize = packets::BEHIND;

const INSIDE: usize = 62;

const AFTER: usize = 75;

// The most places inside a packet's work that are tried: each costs a checksum of the whole region.
const MOST: usize = 4;

// A card as far as a script has been sent to it: the loader's part of its state, and whether it would come up in application
// mode now.
#[derive(Clone, Copy)]
struct Reached {
    state: Loader,
    started: bool,
}

// The modes that a card was seen to come up in.
#[derive(Clone, Copy)]
struct Seen {
    locked: bool,
    application: bool,
}

// Reads the region that a card held; where no file is named, it is 0x00 throughout.
fn read_region<'a>(
    rt: &(impl System + Env + Files),
    options: Options,
    room: &'a mut [u8],
) -> Option<&'a mut [u8]> {
    if options.region.is_some() {
        let held = files::read(rt, options.region, room)?.len();
        return Some(front_mut(room, held));
    }
    let region = front_mut(room, options.size);
    region.fill(0x00);
    Some(region)
}

// Says that the region of a file has another length than the card's. A longer file may not have been read whole.
fn refused(rt: &impl Print, length: usize, size: usize) -> io::Result<()> {
    let line = Line::new().text("the file of --region has ");
    cause::refused(rt, Refusal::RegionSize)?;
    if size < length {
        line.text("more than ")
            .count(size, "byte")
            .text(", the size")
            .print(rt)
    } else {
        line.count(length, "byte")
            .text(", and the size is ")
            .decimal(size)
            .print(rt)
    }
}

// Whether a card comes up in application mode with a region.
fn starts(state: Loader, region: &[u8]) -> bool {
    power_cut::restarted(state, region).mode == Mode::Application
}

// Whether a card comes up in application mode that was cut at a place of a packet; the region that the cut leaves is put
// into another. Here and below the two are no struct: the one is only read while the other is written.
fn starts_from(
    state: Loader,
    packet: &[u8],
    place: usize,
    region: &[u8],
    other: &mut [u8],
) -> bool {
    little_endian::store(region, 0, other);
    power_cut::leave(packet, place, other);
    starts(state, other)
}

// Tries places inside a packet's work, from the first on and as far apart as so few allow.
fn inside(state: Loader, packet: &[u8], region: &[u8], other: &mut [u8]) -> Seen {
    let work = power_cut::work(state, region, packet);
    let step = (work / MOST).saturating_add(1);
    let mut seen = Seen {
        locked: false,
        application: false,
    };
    for place in (1..work).step_by(step) {
        if starts_from(state, packet, place, region, other) {
            seen.application = true;
        } else {
            seen.locked = true;
        }
    }
    seen
}

// The mode that a card comes up in.
fn mode(started: bool) -> &'static str {
    if started { "application" } else { "locked" }
}

// The modes that a card was seen to come up in.
fn modes(seen: Seen) -> &'static str {
    match (seen.locked, seen.application) {
        (true, true) => "either",
        (false, false) => "-",
        (_, started) => mode(started),
    }
}

fn heading(rt: &impl Print, options: Options) -> io::Result<()> {
    let held = match options.region {
        Some(_) => "that region",
        None => "0x00 throughout",
    };
    Line::new()
        .text("how a card whose flash held ")
        .text(held)
        .text(" comes up if the power fails:")
        .print(rt)?;
    packets::heading()
        .to(BEFORE)
        .text("before it    inside it    after it")
        .print(rt)
}

// Prints the line of a packet, and runs it.
fn row(
    rt: &impl Print,
    packet: Packet<'_>,
    reached: Reached,
    password: &[u8],
    region: &mut [u8],
    other: &mut [u8],
) -> io::Result<Reached> {
    let seen = inside(reached.state, packet.bytes, region, other);
    let received = loader::receive(reached.state, region, password, packet.bytes);
    let state = received.loader;
    let started = starts(state, region);
    packets::row(packet)
        .to(BEFORE)
        .text(mode(reached.started))
        .to(INSIDE)
        .text(modes(seen))
        .to(AFTER)
        .text(mode(started))
        .print(rt)?;
    Ok(Reached { state, started })
}

// Says how a card comes up from cuts, as it is sent a script that passes, the region being what it held before. Script and
// password are handed one by one, as the public functions take them.
fn print(
    rt: &impl Print,
    options: Options,
    script: &[u8],
    password: &[u8],
    expected: u16,
    region: &mut [u8],
    other: &mut [u8],
) -> io::Result<()> {
    let state = Loader {
        mode: Mode::Locked,
        expected,
    };
    let started = starts(state, region);
    let mut reached = Reached { state, started };
    heading(rt, options)?;
    for packet in Packets::of(script) {
        reached = row(rt, packet, reached, password, region, other)?;
    }
    Line::new()
        .text("inside it: tried at up to 4 places of the packet's work")
        .print(rt)
}

// Says of a script that passes that it does, and how a card comes up from cuts, if the region that it held can be read.
// The text has so many bytes; once it is done with, its room is the second region that cuts take.
pub fn say(
    rt: &(impl System + Env + Files),
    options: Options,
    script: &[u8],
    text: &mut [u8],
    length: usize,
    password: &[u8],
    behind: Behind,
    room: &mut [u8],
) -> io::Result<()> {
    let size = options.size;
    let Some(region) = read_region(rt, options, room) else {
        return Ok(());
    };
    if region.len() != size {
        return refused(rt, region.len(), size);
    }
    tool_verdict::passed(rt, script, front(text, length), behind)?;
    print(
        rt,
        options,
        script,
        password,
        behind.expected,
        region,
        front_mut(text, size),
    )
}
