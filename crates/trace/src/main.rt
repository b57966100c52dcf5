// The trace of a script: `trace < script.bsx` writes document 01's lines to standard output. One byte
// more is read than an input may have, so that a longer one is seen.
#![tactic(auto)]

use byte_parts::front;
use std::io;
use std::io::Read;

// How many bytes of the input are read.
const INPUT: u64 = 16385;

fn main(rt: HostRuntime) -> io::Result<()> {
    let mut input = Vec::new(rt.alloc());
    rt.reader().take(INPUT).read_to_end(&mut input)?;
    let mut text = [0u8; trace_text::ROOM];
    // the text has the room, so that none is refused
    let length = trace_text::write(&input, &mut text).unwrap_or(0);
    rt.write_all(front(&text, length))
}
