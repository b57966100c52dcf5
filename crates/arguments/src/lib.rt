// The arguments of the program cardtool: a command, the files that it wants, and options, whose values are the next
// argument or follow an equals sign. What is wrong with them is said in a line on standard error.
#![tactic(auto)]

ghost use Rattle.std.specs.Prelude.{◌≡◌, ◌-◌, ◌<◌, ◌≤◌, [], length, IfNone, IfSome, IsNone};

mod commands;
mod numbers;
mod reading;

use byte_parts::behind;
pub use commands::Command;
use reading::{Misuse, Reading};
use report::{Line, System};
use std::env::FillError;
use std::rt::Env;
use std::str;
use tool_paths::{PATH_MAX, Word};

// A name among the arguments: the argument, and the place in it where the name begins.
#[derive(Clone, Copy)]
pub struct Name {
    pub argument: usize,
    pub from: usize,
}

// What the arguments after the command say.
#[derive(Clone, Copy)]
pub struct Options {
    // The files that are named.
    pub first: Option<Name>,
    pub second: Option<Name>,
    // The password's file; none for the password of the vendor's page.
    pub password: Option<Name>,
    // The file of a region as a card held it; none for 0x00 throughout.
    pub region: Option<Name>,
    pub entry: u32,
    pub size: usize,
    // The expected checksum; none for the image's own.
    pub expect: Option<u16>,
    // Whether a file that stands is replaced, whatever it is.
    pub force: bool,
}

// What the program is asked to do.
#[derive(Clone, Copy)]
pub struct Request {
    pub command: Command,
    pub options: Options,
}

// The entry address of the vendor's page.
const ENTRY: u32 = 0x201;

// The greatest size of a region. The crates that judge a size keep their own to themselves.
const SIZE: usize = 262144;

impl Options {
    // What holds where the arguments do not say otherwise.
    fn usual() -> Options {
        Options {
            first: None,
            second: None,
            password: None,
            region: None,
            entry: ENTRY,
            size: SIZE,
            expect: None,
            force: false,
        }
    }
}

// An argument, if it is there and no longer than a word.
fn word(rt: &impl Env, argument: usize) -> Option<Word> {
    let mut room = [0; PATH_MAX];
    let held = rt.arg(argument, &mut room).ok()?;
    Word::try_from(&room[..held]).ok()
}

// The word of a name, empty where there is none.
pub fn word_of(rt: &impl Env, name: Option<Name>) -> Word
    ensures none { IfNone name (result.items ≡ []) }
    ensures behind { IfSome name (λ at. length result.items ≤ 4096 - at.from) }
{
    let Some(Name { argument, from }) = name else {
        return Word::new();
    };
    let whole = word(rt, argument).unwrap_or_default();
    Word::try_from(behind(&whole, from)).unwrap_or_default()
}

// The path of a link to the file of a name, which the launcher lends where the name, or one to which it leads, is not UTF-8,
// as a path has to be.
pub fn link_of(rt: &impl Env, name: Option<Name>) -> Option<Word>
    ensures none { IfNone name (IsNone result) }
    ensures some { IfSome result (λ link. (0 < length link.items) × (length link.items ≤ 4096)) }
{
    let Name { argument, from } = name?;
    let variable = Line::new()
        .text("CARDTOOL_LINK_")
        .decimal(argument)
        .text("_")
        .decimal(from);
    let mut link = Word::from([0; PATH_MAX]);
    let held = rt
        .var(str::from_utf8(variable.words()).ok()?, &mut link)
        .ok()?;
    link.truncate(held);
    if link.is_empty() { None } else { Some(link) }
}

// The command that the first argument names. Where it names none, that is said.
fn first(rt: &(impl System + Env)) -> Option<Command> {
    let word = word(rt, 1).unwrap_or_default();
    if word.is_empty() {
        Misuse::new("a command is missing", b"").complain(rt);
        return None;
    }
    let command = Command::of(&word);
    if command.is_none() {
        Misuse::new("no such command: ", &word).complain(rt);
    }
    command
}

// Whether nothing is wrong with the usage. What is wrong is said: of a misuse in its own words, not in a file's as `files` does.
fn is_sound(rt: &impl System, judged: Result<(), Misuse<'_>>) -> bool {
    match judged {
        Ok(()) => true,
        Err(misuse) => {
            misuse.complain(rt);
            false
        }
    }
}

// What the arguments after the command say, if nothing is wrong with them or help is asked for.
fn rest(rt: &(impl System + Env), command: Command) -> Option<Reading> {
    let mut reading = Reading::new();
    let mut sound = true;
    for argument in 2..usize::MAX {
        let mut room = [0; PATH_MAX];
        match rt.arg(argument, &mut room) {
            Ok(held) => sound &= is_sound(rt, reading.take(command, &room[..held], argument)),
            Err(FillError::TooLong) => {
                Misuse::new("an argument is too long: ", &room).complain(rt);
                sound = false;
            }
            Err(FillError::NotPresent) => break,
        }
    }
    if reading.help {
        return Some(reading);
    }
    sound &= is_sound(rt, reading.judge(command));
    if sound { Some(reading) } else { None }
}

// What the program is asked to do; nothing where the usage is wrong, which is said.
pub fn read(rt: &(impl System + Env)) -> Option<Request> {
    let command = first(rt)?;
    if command.is_alone() {
        return Some(Request {
            command,
            options: Options::usual(),
        });
    }
    let reading = rest(rt, command)?;
    Some(Request {
        command: if reading.help { Command::Help } else { command },
        options: reading.options,
    })
}
