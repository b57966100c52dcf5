// The lines of texts: each text made, read into a region, and answered.
use byte_parts::behind;
use std::io;
use vector_lines::room::Room;
use vector_lines::words::put_text;
use vector_lines::{number_of, show};

// What every byte of a region is before the call.
const BEFORE: u8 = 0xA5;

// A text read into a region.
fn read(rt: &impl Print, text: &[u8], size: usize, region: &mut [u8]) -> io::Result<()> {
    match ti_txt::read(text, size, region) {
        Ok(()) => {
            show::text(rt, b" filled")?;
            show::checksum(rt, region)
        }
        Err(refused) => show::refused_and_kept(rt, refused, region, BEFORE),
    }
}

// The answer to a size, the region's length behind a slash if it is another, and the words of a text, which is put
// over the room of a text and read into the front of the region.
fn answer(rt: &impl Print, case: &[u8], text: &mut Room, region: &mut [u8]) -> io::Result<()> {
    let (size, rest) = number_of(case);
    let (length, rest) = match rest.strip_prefix(b"/") {
        Some(digits) => number_of(digits),
        None => (size, rest),
    };
    let Some(region) = region.get_mut(..length) else {
        return show::text(rt, b" no region of that length");
    };
    text.keep(0);
    put_text(behind(rest, 1), text)?;
    region.fill(BEFORE);
    read(rt, text.bytes(), size, region)
}

// The memory is all asked for before the first line, so that no line runs out of it.
pub fn run(rt: &(impl Print + AllocGlobal), input: &[u8]) -> io::Result<()> {
    let mut text = Room::whole(rt.alloc(), input_rooms::TEXT)?;
    let mut region = vec![in rt.alloc(); 0; input_rooms::REGION]?;
    vector_lines::answer_lines(rt, input, |words| answer(rt, words, &mut text, &mut region))
}
