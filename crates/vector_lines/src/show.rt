// Answers printed to standard output. The error of a write that fails is handed on.
use loader::Mode;
use refusal::Refused;
use std::fmt::Display;
use std::io;

// Words with nothing to format, written as they are: a format goes through a buffer that is cleared first.
pub fn text(rt: &impl Print, words: &[u8]) -> io::Result<()> {
    rt.write_all(words)
}

pub fn line_end(rt: &impl Print) -> io::Result<()> {
    text(rt, b"\n")
}

// Bytes in hexadecimal digits, each behind a space.
pub fn bytes(rt: &impl Print, list: &[u8]) -> io::Result<()> {
    for b in list {
        print!(rt; " {b:02x}")?;
    }
    Ok(())
}

// Numbers, each behind a space.
pub fn numbers<N: Display>(rt: &impl Print, list: &[N]) -> io::Result<()> {
    for n in list {
        print!(rt; " {n}")?;
    }
    Ok(())
}

// The checksum of bytes, behind a space.
pub fn checksum(rt: &impl Print, bytes: &[u8]) -> io::Result<()> {
    let sum = crc::checksum(crc::START, bytes);
    print!(rt; " {sum:04x}")
}

// The number of a refusal, and its place.
pub fn refused(rt: &impl Print, refusal: Refused) -> io::Result<()> {
    let number = u8::from(refusal.refusal);
    let place = refusal.place;
    print!(rt; " refused {number} at {place}")
}

// Whether lent memory is as it was.
pub fn kept(rt: &impl Print, same: bool) -> io::Result<()> {
    if same {
        return text(rt, b" kept");
    }
    text(rt, b" touched")
}

// Whether every byte of lent memory is still the value that it was lent with.
pub fn kept_as(rt: &impl Print, lent: &[u8], before: u8) -> io::Result<()> {
    kept(rt, byte_parts::every(lent, before))
}

// A refusal, and whether every byte of lent memory is still the value that it was lent with.
pub fn refused_and_kept(
    rt: &impl Print,
    refusal: Refused,
    lent: &[u8],
    before: u8,
) -> io::Result<()> {
    refused(rt, refusal)?;
    text(rt, b",")?;
    kept_as(rt, lent, before)
}

// The name of a mode.
pub fn mode(rt: &impl Print, mode: Mode) -> io::Result<()> {
    match mode {
        Mode::Application => text(rt, b" application"),
        Mode::Locked => text(rt, b" locked"),
        Mode::Unlocked => text(rt, b" unlocked"),
    }
}
