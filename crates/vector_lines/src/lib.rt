// What the programs have in common: the lines of the input read and answered, numbers, bytes and settings read
// from words, the text that words stand for (`words`), bytes and packets (`packets`), a room that is filled
// (`room`), a password, and answers printed (`show`). None of these functions asks anything of its input.
#![tactic(auto)]

pub mod packets;
pub mod room;
pub mod show;
pub mod words;

ghost use Rattle.std.specs.Prelude.{[], ◌∷◌, ◌++◌, Contains, ◌≡◌, ◌-◌, ◌*◌, ◌^◌, ◌<◌, ◌≤◌, length, IfSome};

use byte_parts::behind;
use std::alloc::{AllocError, Global};
use std::io;
use std::io::Read;

// How many bytes of the input are read.
const INPUT: u64 = 65536;

// The bytes of the standard input, the first 65,536 if it has more.
pub fn input(rt: &(impl Input + AllocGlobal)) -> io::Result<Vec<u8>> {
    let mut bytes = Vec::new(rt.alloc());
    rt.reader().take(INPUT).read_to_end(&mut bytes)?;
    Ok(bytes)
}

// The bytes 0, 1, 2 .. 255, 0, 1 .. of which a password is lent.
pub fn secret() -> [u8; 300]
    ensures { 300 ≡ length result }
{
    std::array::from_fn(|i| (i % 256) as u8)
}

// Prints the label of each line, and has what stands behind it answered if anything does.
pub fn answer_lines<R: Print, F: FnMut(&[u8]) -> io::Result<()>>(
    rt: &R,
    input: &[u8],
    mut answer: F,
) -> io::Result<()>
    requires { F.IsAlwaysCallable answer }
{
    for line in input.split_inclusive(|&b| b == b'\n') {
        let words = label(rt, line.strip_suffix(b"\n").unwrap_or(line))?;
        if !words.is_empty() {
            answer(words)?;
        }
        show::line_end(rt)?;
    }
    Ok(())
}

// Prints the label of a line, and hands back what stands behind its colon and a space. A line
// without these is a heading, and nothing stands behind it.
pub fn label<'a>(rt: &impl Print, line: &'a [u8]) -> io::Result<&'a [u8]> {
    let (label, rest) = cut(line, b':');
    let words = behind(rest, 1);
    show::text(rt, label)?;
    if !words.is_empty() {
        show::text(rt, b":")?;
    }
    Ok(words)
}

// What stands before the first such byte, and what behind it: nothing if there is none.
pub fn cut(words: &[u8], end: u8) -> (&[u8], &[u8])
    ensures cut { Contains words.now end → words.now ≡ result.0.now ++ end ∷ result.1.now }
    ensures first { Contains result.0.now end → ⊥ }
    ensures whole { (Contains words.now end → ⊥) → (result.0.now ≡ words.now) × (result.1.now ≡ []) }
    ensures part { length result.0.now ≤ length words.now }
    ensures rest { length result.1.now ≤ length words.now - 1 }
{
    match words.iter().position(|&b| b == end) {
        Some(at) => (&words[..at], &words[at + 1..]),
        None => (words, &[]),
    }
}

// What the settings of a line are read into.
pub trait Settings {
    // Takes the value of a name; the answer is whether the name is a setting's.
    fn set(&mut self, name: &[u8], value: &[u8]) -> bool;
}

// Takes the settings that words begin with, each a name and a value with a space behind both, and hands back
// what stands behind them.
pub fn read_settings<'a, S: Settings>(words: &'a [u8], into: &mut S) -> &'a [u8]
    ensures { length result.now ≤ length words.now }
{
    // A split hands back no rest, so the words are cut one by one.
    let mut rest = words;
    while !rest.is_empty() {
        let (name, values) = cut(rest, b' ');
        let (value, others) = cut(values, b' ');
        if !into.set(name, value) {
            return rest;
        }
        rest = others;
    }
    rest
}

fn digit_of(letter: u8, base: u32) -> Option<u32>
    requires { (2 ≤ base) × (base ≤ 16) }
    ensures { IfSome result (λ digit. digit < base) }
{
    char::from(letter).to_digit(base)
}

// The number of the digits that words begin with, and what stands behind them. It ends before a digit that
// would make it `limit` times the base or more.
fn number_in(base: u32, limit: u32, words: &[u8]) -> (u32, &[u8])
    requires base { (2 ≤ base) × (base ≤ 16) }
    requires limit { (0 < limit) × (limit * base ≤ 2 ^ 32) }
    ensures value { result.0 < limit * base }
    ensures rest { length result.1.now ≤ length words.now }
{
    let mut value = 0;
    for (at, &letter) in words.iter().enumerate() {
        match digit_of(letter, base) {
            Some(digit) if value < limit => value = value * base + digit,
            _ => return (value, behind(words, at)),
        }
    }
    (value, &[])
}

// The decimal number that words begin with, and what stands behind its at most nine digits. Words that begin
// with none begin with the number 0, which is what every line without the number means.
pub fn number_of(words: &[u8]) -> (usize, &[u8])
    ensures value { result.0 < 1000000000 }
    ensures rest { length result.1.now ≤ length words.now }
{
    let (value, rest) = number_in(10, 100_000_000, words);
    (value as usize, rest)
}

// The number of the hexadecimal digits that a word begins with, at most eight.
pub fn hex_of(word: &[u8]) -> u32 {
    number_in(16, 0x1000_0000, word).0
}

// The byte of a space and two digits, if these stand there.
fn listed(word: &[u8]) -> Option<u8> {
    let [b' ', high, low] = word else {
        return None;
    };
    let high = digit_of(*high, 16)?;
    let low = digit_of(*low, 16)?;
    Some((16 * high + low) as u8)
}

// The bytes of a list of two digits each, a space before each, if it is one.
pub fn read_bytes(alloc: Global, words: &[u8]) -> Result<Option<Vec<u8>>, AllocError> {
    let mut bytes = Vec::new(alloc);
    for word in words.chunks(3) {
        let Some(byte) = listed(word) else {
            return Ok(None);
        };
        bytes.push(byte)?;
    }
    Ok(Some(bytes))
}

// Puts the bytes of such a list over the front of others, and answers how many they are, if it is one and there is room.
pub fn put_listed(words: &[u8], out: &mut [u8]) -> Option<usize>
    ensures whole { IfSome result (λ count. 3 * count ≡ length words.now) }
    ensures within { IfSome result (λ count. count ≤ length out.old) }
{
    let count = words.len() / 3;
    let out = out.get_mut(..count)?;
    if words.len() % 3 != 0 {
        return None;
    }
    for (byte, word) in out.iter_mut().zip(words.chunks(3)) {
        *byte = listed(word)?;
    }
    Some(count)
}
