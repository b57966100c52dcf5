// Scripts at the edges of document 01's rules, good and bad, checked and answered, to be compared with
// the file `stdout` beside src/. A line of the input, of which 65,536 bytes are read, is a label, a colon
// and `SETTINGS | STEPS | TEXT`; a line without a colon is a heading.
//
// A setting is a name and a value: `size 8192`, document 01's N, with a region of N bytes and N/8 bytes of
// known bits; `region`, `known` and `password`, the lengths that are lent; `expect 0fe1`, the expected
// checksum. Without them N is 4096, the password (0, 1, 2 .. 255, 0, 1 ..) has 256 bytes, and the checksum
// is the picture's own. The text is what its words stand for (`words` of `vector_lines`).
//
// The script is made step by step, with a comma between steps: `head` puts a script's head behind what
// there is, `plan 201` the planner's script of the text with an entry address, and bytes are put as they
// stand, where those in brackets are a core (`packets` of `vector_lines`). `cut 17` keeps the first 17
// bytes, `less 10` leaves out the last 10, `at 267 81` puts a byte over the one at an offset, and `again
// 12 3600` goes on with the last 12 bytes, over and over, for 3600 bytes more.
//
// Each line is answered behind its label: `pass` or the refusal with its place, the number of packets that
// succeeded, that of the bytes still unknown, and of the region and of the known bits the checksum and whether
// they were kept as they were lent.
#![tactic(auto)]

mod answers;
mod lines;
mod rooms;
mod scripts;
mod settings;

use std::io;

fn main(rt: HostRuntime) -> io::Result<()> {
    let input = vector_lines::input(&rt)?;
    lines::run(&rt, &input)
}
