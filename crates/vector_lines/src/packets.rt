// The bytes that the words of a line stand for: two hexadecimal digits are a byte, `256*ff` is a byte so
// many times, `00..ff` the bytes from one to another, `@1f780` the four bytes of an address, low byte
// first; words in brackets are a core, which stands for the packet around it.
ghost use Rattle.std.specs.Prelude.{◌≡◌, ◌≤◌, length};

use crate::room::Room;
use crate::{cut, hex_of, number_of, show};
use byte_parts::{behind, front};
use std::alloc::AllocError;
use std::io;

// The longest core that words are read to.
const CORE: usize = 300;

// The number of four hexadecimal digits.
pub fn two_bytes_of(word: &[u8]) -> u16 {
    (hex_of(word) & 0xFFFF) as u16
}

// The byte of two hexadecimal digits.
pub fn byte_of(word: &[u8]) -> u8 {
    (hex_of(word) & 0xFF) as u8
}

// What a word stands for.
#[derive(Clone, Copy)]
enum Meaning {
    // The first byte, by how much each next one is greater, past 255 from 0 on, and how many there are.
    Run { first: u8, step: u8, count: usize },
    // The bytes of an address, which are put all or not at all.
    Address([u8; 4]),
}

// The bytes of a word: one, one so many times, those from one to another, or an address. It is built into its callers, since
// lines are full of words of two digits.
#[inline(always)]
fn meaning_of(word: &[u8]) -> Meaning {
    if let [b'@', address @ ..] = word {
        return Meaning::Address(hex_of(address).to_le_bytes());
    }
    if word.iter().all(|&b| b != b'*' && b != b'.') {
        return Meaning::Run {
            first: byte_of(word),
            step: 0,
            count: 1,
        };
    }
    if word.contains(&b'*') {
        let (count, _) = number_of(word);
        let (_, byte) = cut(word, b'*');
        return Meaning::Run {
            first: byte_of(byte),
            step: 0,
            count,
        };
    }
    let (first, last) = cut(word, b'.');
    let first = byte_of(first);
    let last = byte_of(behind(last, 1));
    Meaning::Run {
        first,
        step: 1,
        count: usize::from(last.wrapping_sub(first)) + 1,
    }
}

impl Meaning {
    // How many of the bytes are put where there is room for so many.
    fn count_within(self, room: usize) -> usize
        ensures { result ≤ room }
    {
        match self {
            Meaning::Run { count, .. } => count.min(room),
            Meaning::Address(bytes) if bytes.len() <= room => bytes.len(),
            Meaning::Address(_) => 0,
        }
    }

    // Puts the first of the bytes over others, as many as those are; of an address all four, or none.
    fn put_over(self, out: &mut [u8]) {
        match self {
            Meaning::Address(bytes) if out.len() == bytes.len() => out.copy_from_slice(&bytes),
            Meaning::Address(_) => {}
            // A single byte is not worth a call of `fill`.
            Meaning::Run { first, step: 0, .. } if out.len() != 1 => out.fill(first),
            Meaning::Run { first, step, .. } => put_rising(first, step, out),
        }
    }
}

// Puts bytes over others, each by a step greater than the one before, past 255 from 0 on.
fn put_rising(first: u8, step: u8, out: &mut [u8]) {
    let mut next = first;
    for byte in out {
        *byte = next;
        next = next.wrapping_add(step);
    }
}

// Puts what words without brackets stand for.
fn put_plain(words: &[u8], out: &mut Room) -> Result<(), AllocError>
    ensures { out.new.size ≡ out.old.size }
{
    for word in words.split(|&b| b == b' ') {
        if !word.is_empty() {
            let meaning = meaning_of(word);
            let count = meaning.count_within(out.left());
            let start = out.held;
            let end = start + count;
            out.reach(end)?;
            meaning.put_over(&mut out.bytes[start..end]);
            out.hold_more(count);
        }
    }
    Ok(())
}

// Puts the core that words stand for over the front of bytes, and answers how many it has. It asks for no memory, so that no
// line runs out of it.
fn put_core(words: &[u8], out: &mut [u8]) -> usize
    ensures { result ≤ length out.old }
{
    let mut held = 0;
    for word in words.split(|&b| b == b' ') {
        if !word.is_empty() {
            let meaning = meaning_of(word);
            let end = held + meaning.count_within(out.len() - held);
            meaning.put_over(&mut out[held..end]);
            held = end;
        }
    }
    held
}

// Puts the packet around the core that words stand for.
fn put_packet(rt: &impl Print, words: &[u8], out: &mut Room) -> io::Result<()>
    ensures { out.new.size ≡ out.old.size }
{
    if words.is_empty() {
        return Ok(());
    }
    let mut core = [0; CORE];
    let count = put_core(words, &mut core);
    let length = count + 5;
    if out.left() < length {
        return show::text(rt, b" no room for the packet");
    }
    let start = out.held;
    let end = start + length;
    out.reach(end)?;
    if !packet::write(front(&core, count), &mut out.bytes[start..end]) {
        return show::text(rt, b" no packet around this core");
    }
    out.hold_more(length);
    Ok(())
}

// Puts the bytes that words stand for.
pub fn put(rt: &impl Print, words: &[u8], out: &mut Room) -> io::Result<()>
    ensures { out.new.size ≡ out.old.size }
{
    // Each bracket ends only what the other kind began, so the words are cut by turns and not split.
    let mut rest = words;
    while !rest.is_empty() {
        let (plain, others) = cut(rest, b'(');
        let (core, behind) = cut(others, b')');
        put_plain(plain, out)?;
        put_packet(rt, core, out)?;
        rest = behind;
    }
    Ok(())
}
