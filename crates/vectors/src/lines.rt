// The lines of vectors: each vector's bytes read and handed to the part of its kind.
use crate::{packets, records};
use std::io;
use vector_lines::show;

// How many bytes a vector has at most, as the answer to a longer one says.
const LONGEST: usize = 512;

// The answer to a vector of a kind.
fn answer(rt: &impl Print, kind: u8, bytes: &[u8]) -> io::Result<()> {
    match kind {
        b'c' => show::checksum(rt, bytes),
        b's' => packets::continued(rt, bytes),
        b'j' => packets::joined(rt, bytes),
        b'm' => packets::message(rt, bytes),
        b'w' => packets::written(rt, bytes),
        b't' => records::temperatures(rt, bytes),
        b'g' => records::greater(rt, bytes),
        b'p' => records::power(rt, bytes),
        b'r' => records::read(rt, bytes),
        b'v' => records::write(rt, bytes),
        b'b' => records::bit_map(rt, bytes),
        _ => show::text(rt, b" no such kind"),
    }
}

// The answer to a kind and a list of bytes.
fn vector(rt: &impl Print, words: &[u8]) -> io::Result<()> {
    let Some((&kind, list)) = words.split_first() else {
        return Ok(());
    };
    let mut bytes = [0; LONGEST];
    match vector_lines::put_listed(list, &mut bytes) {
        Some(count) => answer(rt, kind, &bytes[..count]),
        None => show::text(rt, b" not a list of at most 512 bytes"),
    }
}

pub fn run(rt: &impl Print, input: &[u8]) -> io::Result<()> {
    vector_lines::answer_lines(rt, input, |words| vector(rt, words))
}
