// Traces of scripts, and the cuts of their packets, at the edges of the papers' rules, to be compared with the file
// `stdout` beside src/. A line of the input, of which 65,536 bytes are read, is a label, a colon, `trace` or `cuts`, and the
// bytes of a script; each is answered behind its label, and a line without a colon is a heading.
//
// Bytes are two hexadecimal digits each, `256*ff` is a byte so many times, and bytes in brackets are a core, which stands
// for the packet around it. A text is answered line by line, a stroke behind each, or by its length and its checksum.
#![tactic(auto)]

use byte_parts::{front, front_mut};
use refusal::Refusal;
use std::io;
use vector_lines::room::Room;
use vector_lines::{cut, packets, show};

// The longest text that is shown.
const SHOWN: usize = 2048;

// The longest script that is read.
const SCRIPT: usize = 16400;

// A text, whole, or by its length and its checksum.
fn shown(rt: &impl Print, text: &[u8]) -> io::Result<()> {
    if SHOWN < text.len() {
        let length = text.len();
        print!(rt; " {length} bytes")?;
        return show::checksum(rt, text);
    }
    for line in text.split_inclusive(|&b| b == b'\n') {
        show::text(rt, b" ")?;
        show::text(rt, line.strip_suffix(b"\n").unwrap_or(line))?;
        show::text(rt, b" /")?;
    }
    Ok(())
}

// What is written of a script into the front of a text, which has the room for it, or that it is refused.
fn written<R: Print, F: Fn(&[u8], &mut [u8]) -> Result<usize, Refusal>>(
    rt: &R,
    script: &[u8],
    text: &mut [u8],
    room: usize,
    write: F,
) -> io::Result<()>
    requires { F.IsAlwaysCallable write }
{
    match write(script, front_mut(text, room)) {
        Err(why) => {
            let number = u8::from(why);
            print!(rt; " refused {number}")
        }
        Ok(length) => shown(rt, front(text, length)),
    }
}

// The answer to an order and the bytes of a script, with a room for the script and the longest text.
fn answer(rt: &impl Print, words: &[u8], script: &mut Room, text: &mut [u8]) -> io::Result<()> {
    let (order, bytes) = cut(words, b' ');
    script.keep(0);
    packets::put(rt, bytes, script)?;
    let script = script.bytes();
    match order {
        b"cuts" => written(
            rt,
            script,
            text,
            trace_text::CUTS_ROOM,
            trace_text::write_cuts,
        ),
        _ => written(rt, script, text, trace_text::ROOM, trace_text::write),
    }
}

// The memory is all asked for before the first line, so that no line runs out of it.
fn run(rt: &(impl Print + AllocGlobal), input: &[u8]) -> io::Result<()> {
    let mut script = Room::whole(rt.alloc(), SCRIPT)?;
    let mut text = vec![in rt.alloc(); 0u8; trace_text::CUTS_ROOM]?;
    vector_lines::answer_lines(rt, input, |words| answer(rt, words, &mut script, &mut text))
}

fn main(rt: HostRuntime) -> io::Result<()> {
    let input = vector_lines::input(&rt)?;
    run(&rt, &input)
}
