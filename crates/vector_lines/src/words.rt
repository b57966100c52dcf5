// The text that the words of a line stand for: \n, \r, \t, \0 and \\ mean these bytes, and
// `HEAD*COUNT UNIT*TAIL` the head, the unit so many times and the tail, where the tail may go on with a
// star, a count and a unit.
ghost use Rattle.std.specs.Prelude.{◌≡◌, ◌≤◌, vec_len, IfOk};

use crate::number_of;
use crate::room::Room;
use byte_parts::behind;
use std::alloc::{AllocError, Global};

// The byte that a letter stands for behind a backslash.
fn escaped(letter: u8) -> u8 {
    match letter {
        b'n' => b'\n',
        b'r' => b'\r',
        b't' => b'\t',
        b'0' => b'\0',
        _ => letter,
    }
}

// Puts the bytes that words mean. A backslash with no letter behind it means itself.
fn put_meant(words: &[u8], text: &mut Room) -> Result<(), AllocError>
    ensures { text.new.size ≡ text.old.size }
{
    let mut behind_backslash = false;
    for &letter in words {
        if behind_backslash {
            text.put(&[escaped(letter)])?;
            behind_backslash = false;
        } else if letter == b'\\' {
            behind_backslash = true;
        } else {
            text.put(&[letter])?;
        }
    }
    if behind_backslash {
        text.put(b"\\")?;
    }
    Ok(())
}

// Puts what a part of the words stands for, which is a count and a unit if it is counted.
fn put_part(part: &[u8], counted: bool, text: &mut Room) -> Result<(), AllocError>
    ensures { text.new.size ≡ text.old.size }
{
    if !counted {
        return put_meant(part, text);
    }
    let (count, unit) = number_of(part);
    if count == 0 {
        return Ok(());
    }
    let before = text.held;
    put_meant(behind(unit, 1), text)?;
    let length = text.held.saturating_sub(before);
    text.go_on(length, length.saturating_mul(count - 1))
}

// Puts the text of words whose parts, between stars, are by turns plain and a count with a unit, as much of it as
// the room holds: the rooms are longer than any text that is read.
pub fn put_text(words: &[u8], text: &mut Room) -> Result<(), AllocError>
    ensures { text.new.size ≡ text.old.size }
{
    for (i, part) in words.split(|&b| b == b'*').enumerate() {
        put_part(part, i % 2 == 1, text)?;
    }
    Ok(())
}

// The text of such words, as much of it as a room of the size holds.
pub fn read_text(alloc: Global, words: &[u8], size: usize) -> Result<Vec<u8>, AllocError>
    ensures { IfOk result (λ text. vec_len text ≤ size) }
{
    let mut text = Room::new(alloc, size);
    put_text(words, &mut text)?;
    let held = text.held;
    text.bytes.truncate(held);
    Ok(text.bytes)
}
