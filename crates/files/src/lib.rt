// Files that the program's arguments name: read whole into a lent room, and written whole or not at all. What goes
// wrong is said in one line on standard error. None of these functions asks anything of its input.
#![tactic(auto)]

mod new;
mod standing;

ghost use Rattle.std.specs.Prelude.{◌≤◌, length, IfOk};

use arguments::Name;
use byte_parts::front;
use report::{Line, Printable, System};
use standing::Reason;
use std::fmt::Display;
use std::io::Read;
use std::random::RandomSource;
use std::rt::{Env, Files};
use std::{fs, io};
use tool_paths::Word;

// Which files that stand are replaced.
#[derive(Clone, Copy, PartialEq, Eq)]
pub enum Replacing {
    Nothing,
    Scripts,
    Any,
}

// What may be replaced: neither of two files that were read, and of others those of a kind.
#[derive(Clone, Copy)]
pub struct Rule {
    pub first: Option<Name>,
    pub second: Option<Name>,
    pub replacing: Replacing,
}

// The length of a password, and the room to read one into: a byte more shows that a file is too long.
const PASSWORD: usize = 256;

pub const PASSWORD_ROOM: usize = PASSWORD + 1;

// A name as it may be sent to a terminal.
fn printable(name: &[u8]) -> Word {
    let mut shown = Word::new();
    for b in Printable::of(name) {
        let _ = shown.try_push(b);
    }
    shown
}

// Says what is wrong with a file, or why a call on it failed.
fn complain(rt: &impl System, name: &[u8], why: &impl Display) {
    rt.complain(b"cardtool: ");
    if name.is_empty() {
        rt.complain(b"an empty name");
    } else {
        rt.complain(&printable(name));
    }
    Line::new().text(": ").reason(why).complain(rt);
}

// Whether a file is written. Where it is not, that is said, by a name of it, which a misuse of `arguments` has no need of; or
// it was said before.
fn is_done(rt: &impl System, name: &[u8], written: Result<bool, Reason>) -> bool {
    match written {
        Ok(done) => done,
        Err(why) => {
            complain(rt, name, &why);
            false
        }
    }
}

// Reads the file at a path to its end, or until the room is full. The answer is how many bytes it has read.
fn read_all(rt: &impl Files, path: &[u8], room: &mut [u8]) -> io::Result<usize> {
    let mut file = fs::open(rt, tool_paths::text(path)?)?;
    let mut held = 0;
    // A read may give less than there is room for, and std's `read_to_end` wants heap: so this counts what is held.
    while held < room.len() {
        match file.read(&mut room[held..])? {
            0 => break,
            more => held += more,
        }
    }
    Ok(held)
}

// The path at which the file of a name is found: the name, or that of a link which is lent where the name is not UTF-8.
fn path_of(rt: &impl Env, name: Option<Name>) -> Word {
    let word = arguments::word_of(rt, name);
    if tool_paths::text(&word).is_ok() {
        return word;
    }
    arguments::link_of(rt, name).unwrap_or(word)
}

// Reads the file of a name, as far as the room reaches, which is full where the file has more. A room with one byte more than
// is wanted shows that a file is too long. Where it cannot be read, that is said.
pub fn read<'a>(
    rt: &(impl System + Env + Files),
    name: Option<Name>,
    room: &'a mut [u8],
) -> Option<&'a [u8]> {
    match read_all(rt, &path_of(rt, name), room) {
        Ok(held) => Some(front(room, held)),
        Err(why) => {
            complain(rt, &arguments::word_of(rt, name), &why);
            None
        }
    }
}

// Reads the password of a file; where none is named, it is that of the vendor's page, all 0xFF.
pub fn read_password<'a>(
    rt: &(impl System + Env + Files),
    name: Option<Name>,
    room: &'a mut [u8],
) -> Option<&'a [u8]> {
    if name.is_some() {
        return read(rt, name, room);
    }
    room.fill(0xFF);
    Some(front(room, PASSWORD))
}

// Puts bytes into the file of a name, whole or not at all, if what stands there may be replaced. The answer is whether it
// was written.
pub fn save(
    rt: &(impl System + Env + Files + RandomSource + Alloc),
    to: Option<Name>,
    bytes: &[u8],
    rule: Rule,
) -> bool {
    let path = arguments::word_of(rt, to);
    if path.is_empty() {
        complain(rt, &path, &"no file has it");
        return false;
    }
    if let Some(link) = arguments::link_of(rt, to)
        && !new::leads_in_text(rt, &path)
    {
        return is_done(rt, &path, new::put_beside(rt, &path, &link, bytes, rule));
    }
    match new::place_of(rt, &path, rule) {
        Ok(place) => is_done(rt, &place, new::put_at_place(rt, &place, bytes, rule)),
        Err(why) => {
            complain(rt, &path, &why);
            false
        }
    }
}
