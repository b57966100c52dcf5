// What the tool says of a check: a pass, or a refusal with its place and what the loader answers there.
#![tactic(auto)]

use loader::{Loader, Mode, Reply};
use refusal::{Refusal, Refused};
use report::{Line, System};
use std::io;
use tool_words::{cause, entry, lines, packets, place};

// A script that was run as far as it succeeded: the number of its packets that did, that of the bytes still unknown
// then, and the checksum that was expected.
#[derive(Clone, Copy)]
pub struct Behind {
    pub packets: usize,
    pub unknown: usize,
    pub expected: u16,
}

// A loader behind the packets of a run, none of which started the firmware: where one has succeeded it is
// unlocked, as a locked one takes the password only.
fn loader_behind(behind: Behind) -> Loader {
    Loader {
        mode: match behind.packets {
            0 => Mode::Locked,
            _ => Mode::Unlocked,
        },
        expected: behind.expected,
    }
}

// Says what the loader answers to a packet.
fn answered(rt: &impl Print, reply: Reply) -> io::Result<()> {
    let line = Line::new().text("the loader answers ");
    match reply {
        Reply::Nothing => line.text("nothing").print(rt),
        Reply::Byte(code) => packets::acknowledgement(line, code).print(rt),
        Reply::Message(code) => packets::message(line.text("00 and message "), code).print(rt),
        Reply::Data(_) => line.text("00 and data").print(rt),
    }
}

// A line with a place of the script, and the number and the command of the packet there.
fn in_script(script: &[u8], at: usize, packets: usize) -> Line {
    let line = cause::place(at)
        .text(": packet ")
        .decimal(packets.saturating_add(1));
    packets::command_at(line.text(", command "), script, at)
}

// Whether a refusal is of a run, which has a place in the script and leaves bytes unknown.
fn is_of_run(refusal: Refusal) -> bool {
    matches!(
        refusal,
        Refusal::PacketCut
            | Refusal::RefusedOverZeros
            | Refusal::PictureDiffers
            | Refusal::BytesAfterStart
            | Refusal::NotStarted
    )
}

// Says what stands at the place of a refusal.
fn located(
    rt: &impl Print,
    script: &[u8],
    text: &[u8],
    refused: Refused,
    packets: usize,
) -> io::Result<()> {
    let Refused { refusal, place: at } = refused;
    if refusal == Refusal::NotStarted {
        return cause::place(at).text(": the end of the script").print(rt);
    }
    if is_of_run(refusal) {
        return in_script(script, at, packets).print(rt);
    }
    place::located(rt, text, refused)
}

// Says that a script passes. One that does ends in a start packet, whose address is the entry.
pub fn passed(rt: &impl System, script: &[u8], text: &[u8], behind: Behind) -> io::Result<()> {
    Line::new().text("pass").print(rt)?;
    lines::number(rt, "packets ", behind.packets)?;
    lines::checksum(rt, "expected checksum ", behind.expected)?;
    if let Some(address) = packets::last_address(script) {
        entry::print(rt, text, address)?;
    }
    Line::new()
        .text(
            "after a power cut: send 31; if the card answers 02, send 32; then send the whole script again",
        )
        .print(rt)
}

// Says that a script is refused: why, where, what the loader answers there over the region that the check left, how
// many packets succeeded, and how many bytes were still unknown. A refusal before the run leaves nothing to say of those.
// Script, text and password are handed one by one, as the public functions take them: no call below wants all three.
pub fn refused(
    rt: &impl Print,
    script: &[u8],
    text: &[u8],
    password: &[u8],
    refused: Refused,
    behind: Behind,
    region: &mut [u8],
) -> io::Result<()> {
    let Refused { refusal, place: at } = refused;
    cause::refused(rt, refusal)?;
    located(rt, script, text, refused, behind.packets)?;
    if refusal == Refusal::RefusedOverZeros {
        let packet = packets::packet_at(script, at).unwrap_or(&[]);
        let received = loader::receive(loader_behind(behind), region, password, packet);
        answered(rt, received.reply)?;
    }
    lines::number(rt, "packets that succeeded ", behind.packets)?;
    if is_of_run(refusal) {
        lines::number(rt, "bytes still unknown ", behind.unknown)?;
    }
    Ok(())
}
