// Firmware texts at the edges of document 01's rules, read and answered, to be compared with the
// file `stdout` beside src/. A line of the input, of which 65,536 bytes are read, is a label, a
// colon, a size and a text. `4096/4095` is a size beside a region of another length. The text is what
// its words stand for (`words` of `vector_lines`): \n is a line end, and `HEAD*COUNT UNIT*TAIL` the head,
// the unit so many times and the tail. Each is answered behind its label: `filled` with the region's
// checksum, or the refusal with its place, and whether the region was kept. A line without a colon
// is a heading.
#![tactic(auto)]

mod lines;

use std::io;

fn main(rt: HostRuntime) -> io::Result<()> {
    let input = vector_lines::input(&rt)?;
    lines::run(&rt, &input)
}
