// The trace of a script: document 01's trace program as a function that writes its text into a lent
// buffer, and the cuts of a script's packets, document 02's program, likewise. The loader that is run
// is the one that the card's call runs; the lines are those of `trace_lines`.
#![tactic(auto)]

mod card;
mod packets;
mod shown;

ghost use Rattle.std.specs.Prelude.{◌≡◌, ◌++◌, ◌≤◌, length};
ghost use Rattle.little_endian.specs.Bytes.{PutBehind};
ghost use Rattle.trace_text.specs.Trace.{body_of, said, left, put_of, traced_of, cuts_written_of};

use card::Card;
use packets::append_packets;
use refusal::Refusal;
use shown::{Cuts, Shown, Trace, append_end};
use trace_lines::Ending;

// The longest input that is traced.
const LONGEST: usize = 16384;

// The room that the output must have: no trace is longer.
pub const ROOM: usize = 65536;

// The room that it must have for the cuts.
pub const CUTS_ROOM: usize = 524288;

// What follows the header line, over the front of a buffer; the answer is its length.
fn append_body<S: Shown>(input: &[u8], out: &mut [u8]) -> usize
    requires { length (body_of S.kind input.now) ≤ length out.old }
    ensures { PutBehind (body_of S.kind input.now) 0 out.old result out.new }
{
    if LONGEST < input.len() {
        return append_end(0, Ending::Long, out);
    }
    if !script::is_headed(input) {
        return append_end(0, Ending::Mark, out);
    }
    append_packets::<S>(input, Card::new(), out)
}

// A header line and what follows it over the front of a buffer. The answer is 13, and the buffer as it
// was, if it has less than the room that is asked for.
fn write_shown<S: Shown>(
    input: &[u8],
    header: &[u8],
    room: usize,
    out: &mut [u8],
) -> Result<usize, Refusal>
    requires { length (header.now ++ body_of S.kind input.now) ≤ room }
    ensures { left (said result) out.new ≡ put_of room (header.now ++ body_of S.kind input.now) out.old }
{
    if out.len() < room {
        return Err(Refusal::OutputShort);
    }
    little_endian::store(header, 0, out);
    let length = append_body::<S>(input, &mut out[header.len()..]);
    Ok(header.len() + length)
}

// The trace of an input over the front of a buffer. The answer is 13, and the buffer as it was, if it
// has less than `ROOM` bytes.
pub fn write(input: &[u8], out: &mut [u8]) -> Result<usize, Refusal>
    ensures { left (said result) out.new ≡ traced_of input.now out.old }
{
    write_shown::<Trace>(input, b"at cmd ack msg\n", ROOM, out)
}

// The cuts of an input over the front of a buffer. The answer is 13, and the buffer as it was, if it
// has less than `CUTS_ROOM` bytes.
pub fn write_cuts(input: &[u8], out: &mut [u8]) -> Result<usize, Refusal>
    ensures { left (said result) out.new ≡ cuts_written_of input.now out.old }
{
    write_shown::<Cuts>(input, b"at cut mode sum\n", CUTS_ROOM, out)
}
