// Outside vectors and bad input, run and printed, to be compared with the file `stdout` beside
// src/. The vectors are lines of the input, of which 65,536 bytes are read: a label, a colon, the
// kind of vector and its bytes. Each is answered behind its label; a line without a colon is a
// heading. After them come the checks that go through every core length and every bit of a packet.
//
// The kinds are letters. `m`: a message, judged as a packet (the loader's other message, the single byte
// 31, is not told apart here). `c` and `w`: a core, for its checksum and for the packet around it. `s`: a
// register to start from, low byte first, and bytes, for the register behind them. `j`: two checksums and the
// number of the second's bytes, each low byte first, for the checksum of the joined bytes. `t` and
// `g`: temperatures in degrees, and the greater of two. `p`: raw volts and raw amps of the 12 V input, low
// byte first, for total power in watts. `r`: a sensor record, for its values or its refusal. `v`: the
// length of an output and 27 values (board status, security, status of both devices; the others are
// fixed), for the record written over it or its refusal. `b`: offset and length of a field of the
// record, then the record (nothing for zeros), for a map of the bits that may be set in it besides.
#![tactic(auto)]

mod lines;
mod packets;
mod records;

use std::io;

fn main(rt: HostRuntime) -> io::Result<()> {
    let input = vector_lines::input(&rt)?;
    lines::run(&rt, &input)?;
    packets::run(&rt)
}
