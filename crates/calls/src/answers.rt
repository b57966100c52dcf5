// Calls, answered.
use card::Replied;
use loader::Mode;
use refusal::Refusal;
use std::io;
use vector_lines::show;

// What every byte of the reply buffer is before a call.
pub const BEFORE: u8 = 0xEE;

pub fn region_checksum(rt: &impl Print, region: &[u8]) -> io::Result<()> {
    show::text(rt, b", region")?;
    show::checksum(rt, region)
}

// A refusal, and whether everything is as it was.
pub fn refused(rt: &impl Print, why: Refusal, kept: bool) -> io::Result<()> {
    let number = u8::from(why);
    print!(rt; " refused {number},")?;
    show::kept(rt, kept)
}

// The bytes of a reply, and whether the rest of its buffer is as it was.
pub fn replied(
    rt: &impl Print,
    said: Replied,
    mode: Mode,
    region: &[u8],
    reply: &[u8],
) -> io::Result<()> {
    let Replied { count, success } = said;
    print!(rt; " {count}")?;
    let Some((reply, rest)) = reply.split_at_checked(count) else {
        return show::text(rt, b" above the buffer's length");
    };
    show::bytes(rt, reply)?;
    if success {
        show::text(rt, b", success")?;
    }
    show::text(rt, b",")?;
    show::mode(rt, mode)?;
    region_checksum(rt, region)?;
    show::text(rt, b", rest")?;
    show::kept_as(rt, rest, BEFORE)
}
