// Scripts, checked and answered.
use crate::rooms::Rooms;
use crate::settings::Setup;
use checker::Checked;
use std::io;
use vector_lines::{secret, show};

// What every byte of the region and of the known bits is when it is lent: no fill of the checker's, so that
// memory which was left alone shows.
const BEFORE: u8 = 0x5A;

// The checksum that the loader expects. For the picture's own the text is read into the region first;
// where the text or the region is refused, the checker refuses it too, and no loader is run.
fn expected(setup: Setup, text: &[u8], region: &mut [u8]) -> u16 {
    if let Some(sum) = setup.expected {
        return sum;
    }
    let _ = ti_txt::read(text, setup.size, region);
    crc::checksum(crc::START, region)
}

// Lent memory: its checksum, and whether it is as it was lent.
fn described(rt: &impl Print, lent: &[u8]) -> io::Result<()> {
    show::checksum(rt, lent)?;
    show::kept_as(rt, lent, BEFORE)
}

// What was answered, and what was left in the lent memory.
fn shown(rt: &impl Print, checked: Checked, region: &[u8], known: &[u8]) -> io::Result<()> {
    let packets = checked.packets;
    let unknown = checked.unknown;
    match checked.answer {
        Ok(()) => show::text(rt, b" pass")?,
        Err(refused) => show::refused(rt, refused)?,
    }
    print!(rt; ", {packets} packets, {unknown} unknown, region")?;
    described(rt, region)?;
    show::text(rt, b", known")?;
    described(rt, known)
}

// The script checked with as many bytes of the password, of the region and of the known bits as are asked for.
pub fn answer(rt: &impl Print, setup: Setup, rooms: &mut Rooms) -> io::Result<()> {
    let secret = secret();
    let Some(password) = secret.get(..setup.password) else {
        return show::text(rt, b" no such password");
    };
    let (Some(region), Some(known)) = (
        rooms.region.as_mut_slice().get_mut(..setup.region),
        rooms.known.as_mut_slice().get_mut(..setup.known),
    ) else {
        return show::text(rt, b" no such buffer");
    };
    let script = rooms.script.bytes();
    let text = rooms.text.bytes();
    region.fill(BEFORE);
    let sum = expected(setup, text, region);
    region.fill(BEFORE);
    known.fill(BEFORE);
    let checked = checker::check(script, text, password, sum, setup.size, region, known);
    shown(rt, checked, region, known)
}
