// `sums`: the checksums of a firmware text's segments, the packets that ask a card for them, and the replies of a card that
// holds the image. A range checksum covers at most 65,535 bytes, so a longer segment is asked for in stretches, and the
// checksum of all its bytes is what the replies give when they are joined.
use crate::segments::{Segment, Segments};
use byte_parts::{behind, front};
use report::Line;
use std::io;
use tool_words::lines;

// The greatest number of bytes that a range checksum can ask for.
const LONGEST: usize = 65535;

// The columns of a stretch: the number of its bytes ends before the first of these, and its checksum, the packet that asks for
// it and the reply begin at the others.
const BYTES_END: usize = 16;

const CHECKSUM_AT: usize = 18;

const PACKET_AT: usize = 28;

const REPLY_AT: usize = 65;

// The line with bytes behind it, a space before each.
fn with_bytes(line: Line, bytes: &[u8]) -> Line {
    bytes
        .iter()
        .fold(line, |longer, &b| longer.text(" ").code(b.into(), 2))
}

// The packet that asks a card for the checksum of so many bytes from an address on.
fn asking(address: usize, count: usize) -> [u8; 12] {
    let [first, second, third, fourth, ..] = address.to_le_bytes();
    let [low, high, ..] = count.to_le_bytes();
    let mut message = [0u8; 12];
    packet::write(
        &[0x26, first, second, third, fourth, low, high],
        &mut message,
    );
    message
}

// The reply that carries a checksum: the byte 00, and a packet of data.
fn carrying(sum: u16) -> [u8; 9] {
    let [low, high] = sum.to_le_bytes();
    let mut reply = [0u8; 9];
    packet::write(&[0x3A, low, high], &mut reply[1..]);
    reply
}

// Prints what stands in the columns.
fn print_heading(rt: &impl Print) -> io::Result<()> {
    Line::new()
        .text("  at")
        .to(BYTES_END - 5)
        .text("bytes")
        .to(CHECKSUM_AT)
        .text("checksum")
        .to(PACKET_AT)
        .text("packet that asks for it")
        .to(REPLY_AT)
        .text("reply")
        .print(rt)
}

// Prints a stretch that begins at an address.
fn print_stretch(rt: &impl Print, address: usize, bytes: &[u8]) -> io::Result<()> {
    let sum = crc::checksum(crc::START, bytes);
    let stretch = Line::new()
        .text("  ")
        .hex(address)
        .right(bytes.len(), BYTES_END)
        .to(CHECKSUM_AT)
        .checksum(sum)
        .to(PACKET_AT - 1);
    let asked = with_bytes(stretch, &asking(address, bytes.len()));
    with_bytes(asked.to(REPLY_AT - 1), &carrying(sum)).print(rt)
}

// What is behind the line of a segment of so many bytes, where its checksum takes more or less than one reply of a card.
fn replies(count: usize) -> &'static str {
    match count {
        0 => ", nothing to ask for",
        1..=LONGEST => "",
        _ => ", which its replies give when joined",
    }
}

// Prints a segment, the checksum of all its bytes, and its stretches.
fn print_segment(rt: &impl Print, segment: Segment, bytes: &[u8]) -> io::Result<()> {
    Line::new()
        .text("segment ")
        .decimal(segment.number)
        .text(" at ")
        .hex(segment.address)
        .text(", ")
        .count(bytes.len(), "byte")
        .text(", checksum ")
        .checksum(crc::checksum(crc::START, bytes))
        .text(replies(bytes.len()))
        .print(rt)?;
    let addresses = (segment.address..usize::MAX).step_by(LONGEST);
    for (address, stretch) in addresses.zip(bytes.chunks(LONGEST)) {
        print_stretch(rt, address, stretch)?;
    }
    Ok(())
}

// Prints the segments of a text whose image a region holds. The answer is whether any has a byte.
fn print_segments(rt: &impl Print, segments: Segments<'_>, region: &[u8]) -> io::Result<bool> {
    let mut any = false;
    for segment in segments {
        let bytes = front(behind(region, segment.address), segment.count);
        print_segment(rt, segment, bytes)?;
        any |= segment.count != 0;
    }
    Ok(any)
}

// Prints the table of a text's segments, and whose replies it has.
fn print_table(rt: &impl Print, segments: Segments<'_>, region: &[u8]) -> io::Result<()> {
    print_heading(rt)?;
    if !print_segments(rt, segments, region)? {
        return Ok(());
    }
    Line::new()
        .text("replies are those of an unlocked loader that holds the image")
        .text("; a locked one wants its password first")
        .print(rt)
}

// Prints the checksums of a text that is sound for the region, which holds its image.
pub fn print(rt: &impl Print, text: &[u8], region: &[u8]) -> io::Result<()> {
    lines::bytes(rt, "checksums in a region of ", region.len())?;
    let segments = Segments::of(text);
    if segments.is_done() {
        Line::new().text("no segment").print(rt)?;
    } else {
        print_table(rt, segments, region)?;
    }
    Line::new()
        .text("image checksum ")
        .checksum(crc::checksum(crc::START, region))
        .text(", of all bytes of the region, 0xff where no segment stands")
        .print(rt)
}
