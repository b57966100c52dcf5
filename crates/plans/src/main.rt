// Firmware texts at the edges of document 01's rules, planned and answered, to be compared with the file
// `stdout` beside src/. A line of the input, of which 65,536 bytes are read, is a label, a colon, and
// `ORDER SIZE ENTRY PASSWORD ROOM TEXT`: `plan` or `list`, the region's size, the entry address, how many
// bytes of password (0, 1, 2 .. 255, 0, 1 ..) and of output are lent, and the words of a text (`words` of
// `vector_lines`). Each is answered behind its label: the refusal with its place, and whether the output
// was kept; or the script's length, packets and checksum, whether the rest of the output was kept, and
// what became of the packets when they were sent to a locked loader that expects the picture's checksum:
// how many succeeded, the mode, and whether the region is the picture. A list has a line for each packet
// below: its offset, command, address, number of data bytes and acknowledgement. A line without a colon is
// a heading.
#![tactic(auto)]

mod answers;
mod lines;
mod packets;
mod rooms;

use std::io;

fn main(rt: HostRuntime) -> io::Result<()> {
    let input = vector_lines::input(&rt)?;
    lines::run(&rt, &input)
}
