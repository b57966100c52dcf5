// Conversations with a card at the edges of document 01's rules, to be compared
// with the file `stdout` beside src/. A line of the input, of which 65,536 bytes are read, is a label, a
// colon, settings and an order; each is answered behind its label, and a line without a colon is a
// heading. The card, its region and the password are kept from line to line.
//
// A setting is a name and a value: `mode locked`, `unlocked` or `application`; `expect 0fe1`, the expected
// checksum; `version 6.2.11`; `tcrit 16`, that field of the record; `fill 00`, every byte of the region;
// `size 4096`, document 01's N and the region's length; `region`, `password` and `reply`, the lengths that
// are lent. Before a call the lengths hold for that call only.
//
// An order is a name and bytes: `call` a message; `key` the password; `record` the 64
// bytes of the sensor record, whose rule is not judged. Bytes are two hexadecimal digits each, `256*ff` is
// a byte so many times, and bytes in brackets are a core, which stands for the packet around it.
//
// A call is answered with its refusal, and whether everything was kept; or with the number of bytes in
// the reply, these bytes, success or not, the mode, the region's checksum, and whether the rest of the
// reply buffer was kept. A line without an order is answered with the mode and the region's checksum.
#![tactic(auto)]

mod answers;
mod bench;
mod lines;

use std::io;

fn main(rt: HostRuntime) -> io::Result<()> {
    let input = vector_lines::input(&rt)?;
    lines::run(&rt, &input)
}
