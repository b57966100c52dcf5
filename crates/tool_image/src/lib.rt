// What a firmware text puts into a region, for two commands. `image` shows its segments, how many bytes they use, its checksum,
// and a map of the region; `sums`, a module of its own, the checksums of the segments and the packets that ask a card for them.
#![tactic(auto)]

mod segments;
mod sums;

use arguments::Options;
use byte_parts::{every, front, front_mut};
use report::{Line, System};
use segments::{Segment, Segments};
use std::io;
use std::rt::{Env, Files};
use tool_words::{lines, place};

// The characters of a map.
const CELLS: usize = 64;

// The bytes of the longest map, a bit for each address of the greatest region. `known_bits` keeps its own to itself.
const LONGEST_MAP: usize = 32768;

// Prints a segment with its number, its address and the number of its bytes.
fn print_segment(rt: &impl Print, segment: Segment) -> io::Result<()> {
    let line = Line::new()
        .text("segment ")
        .decimal(segment.number)
        .text(" at ")
        .hex(segment.address)
        .text(", ")
        .count(segment.count, "byte");
    match segment.count {
        0 => line.print(rt),
        count => line
            .text(", to ")
            .hex(segment.address.saturating_add(count - 1))
            .print(rt),
    }
}

// What the segments of a text have: how many they are, and how many bytes.
#[derive(Clone, Copy)]
struct Totals {
    segments: usize,
    bytes: usize,
}

// Prints the segments of a text, marks the addresses that they use, and adds them up: all in one walk over the text.
fn print_segments(rt: &impl Print, text: &[u8], map: &mut [u8]) -> io::Result<Totals> {
    let mut totals = Totals {
        segments: 0,
        bytes: 0,
    };
    for segment in Segments::of(text) {
        print_segment(rt, segment)?;
        known_bits::mark_range(map, segment.address, segment.count);
        totals = Totals {
            segments: segment.number,
            bytes: totals.bytes.saturating_add(segment.count),
        };
    }
    Ok(totals)
}

// The character of a part of the region, by the bits of its addresses.
fn cell(bits: &[u8]) -> u8 {
    if every(bits, 0) {
        return b'.';
    }
    if every(bits, 0xFF) {
        return b'#';
    }
    b'+'
}

// The characters of a map, of so many bytes each.
fn cells_of(map: &[u8], width: usize) -> Line {
    map.chunks(width.max(1))
        .fold(Line::new(), |line, bits| line.byte(cell(bits)))
}

// Prints the map of a region, a character for each 1/64 of it, by the bits of its addresses, eight to a byte.
fn print_map(rt: &impl Print, map: &[u8]) -> io::Result<()> {
    Line::new()
        .text("map, ")
        .count(map.len() / 8, "byte")
        .text(" to a character: . none used, + some, # all")
        .print(rt)?;
    cells_of(map, map.len() / CELLS).print(rt)
}

// Prints the image of a text that is sound for the region, which holds it.
fn print(rt: &impl Print, text: &[u8], region: &[u8]) -> io::Result<()> {
    let size = region.len();
    let mut bits = [0u8; LONGEST_MAP];
    let map = front_mut(&mut bits, size / 8);
    lines::bytes(rt, "image in a region of ", size)?;
    let totals = print_segments(rt, text, map)?;
    Line::new()
        .text("bytes used ")
        .decimal(totals.bytes)
        .text(" in ")
        .count(totals.segments, "segment")
        .print(rt)?;
    lines::checksum(rt, "checksum ", crc::checksum(crc::START, region))?;
    print_map(rt, map)
}

// Puts the text of a file into a region, and prints what a command wants of them, or says why the text is refused.
fn run<R: System + Env + Files, F: Fn(&[u8], &[u8]) -> io::Result<()>>(
    rt: &R,
    options: Options,
    room: &mut [u8],
    region: &mut [u8],
    say: F,
) -> io::Result<()>
    requires { F.IsAlwaysCallable say }
{
    let Some(text) = files::read(rt, options.first, room) else {
        return Ok(());
    };
    let region = front_mut(region, options.size);
    match ti_txt::read(text, options.size, region) {
        Err(refused) => place::refused(rt, text, refused),
        Ok(()) => say(text, region),
    }
}

// `image`: prints the image of a firmware text.
pub fn image(
    rt: &(impl System + Env + Files),
    options: Options,
    room: &mut [u8],
    region: &mut [u8],
) -> io::Result<()> {
    run(
        rt,
        options,
        room,
        region,
        |text, region| print(rt, text, region),
    )
}

// `sums`: prints the checksums of a firmware text's segments.
pub fn checksums(
    rt: &(impl System + Env + Files),
    options: Options,
    room: &mut [u8],
    region: &mut [u8],
) -> io::Result<()> {
    run(
        rt,
        options,
        room,
        region,
        |text, region| sums::print(rt, text, region),
    )
}
