// The arguments behind a command, taken one by one.
use crate::commands::{Command, Flag};
use crate::{Name, Options, numbers};
use byte_parts::{behind, front};
use report::{Line, System};
use std::cmp::Ordering;

// What is wrong with the usage, and at which word.
#[derive(Clone, Copy)]
pub(crate) struct Misuse<'a> {
    why: &'static str,
    word: &'a [u8],
}

// The arguments as far as they are taken.
#[derive(Clone, Copy)]
pub(crate) struct Reading {
    pub(crate) options: Options,
    // How many files are named.
    files: usize,
    // The option whose value comes next.
    wanting: Option<Flag>,
    // Whether what follows are files, whatever they begin with.
    ended: bool,
    pub(crate) help: bool,
}

impl<'a> Misuse<'a> {
    pub(crate) fn new(why: &'static str, word: &'a [u8]) -> Misuse<'a> {
        Misuse { why, word }
    }

    // Says what is wrong.
    pub(crate) fn complain(self, rt: &impl System) {
        Line::new()
            .text("cardtool: ")
            .text(self.why)
            .name(front(self.word, 80))
            .complain(rt);
    }
}

impl Reading {
    // No argument taken.
    pub(crate) fn new() -> Reading {
        Reading {
            options: Options::usual(),
            files: 0,
            wanting: None,
            ended: false,
            help: false,
        }
    }

    // Takes one argument more, or says what is wrong with it.
    pub(crate) fn take<'a>(
        &mut self,
        command: Command,
        word: &'a [u8],
        argument: usize,
    ) -> Result<(), Misuse<'a>> {
        let whole = Name { argument, from: 0 };
        if let Some(flag) = self.wanting.take() {
            return self.take_value(flag, word, whole);
        }
        if matches!(word, [b'-', _, ..]) && !self.ended {
            return self.take_option(command, word, argument);
        }
        self.take_file(whole);
        Ok(())
    }

    // Takes an option, its value behind an equals sign or not.
    fn take_option<'a>(
        &mut self,
        command: Command,
        word: &'a [u8],
        argument: usize,
    ) -> Result<(), Misuse<'a>> {
        let equals = word.iter().position(|&b| b == b'=');
        let name = front(word, equals.unwrap_or(word.len()));
        let flag = Flag::of(name)
            .filter(|&flag| command.takes(flag))
            .ok_or(Misuse::new("the command has no option ", name))?;
        if let Some(at) = equals {
            let value = Name {
                argument,
                from: at + 1,
            };
            return self.take_value(flag, word, value);
        }
        self.take_name(flag);
        Ok(())
    }

    // Takes an option that is named alone; where it wants a value, that is the next argument.
    fn take_name(&mut self, flag: Flag) {
        match flag {
            Flag::Force => self.options.force = true,
            Flag::Help => self.help = true,
            Flag::End => self.ended = true,
            Flag::Password | Flag::Entry | Flag::Size | Flag::Expect | Flag::Region => {
                self.wanting = Some(flag)
            }
        }
    }

    // Takes the value of an option, which stands in a word from a place on.
    fn take_value<'a>(
        &mut self,
        flag: Flag,
        word: &'a [u8],
        value: Name,
    ) -> Result<(), Misuse<'a>> {
        let part = behind(word, value.from);
        match flag {
            Flag::Password => self.options.password = Some(value),
            Flag::Region => self.options.region = Some(value),
            Flag::Entry => self.options.entry = entry(part)?,
            Flag::Size => self.options.size = size(part)?,
            Flag::Expect => self.options.expect = Some(checksum(part)?),
            Flag::Force | Flag::Help | Flag::End => {
                return Err(Misuse::new("the option has no value: ", word));
            }
        }
        Ok(())
    }

    // Takes a file.
    fn take_file(&mut self, name: Name) {
        match self.files {
            0 => self.options.first = Some(name),
            1 => self.options.second = Some(name),
            _ => {}
        }
        self.files = self.files.saturating_add(1);
    }

    // Judges the arguments when all are taken.
    pub(crate) fn judge(&self, command: Command) -> Result<(), Misuse<'static>> {
        if self.wanting.is_some() {
            return Err(Misuse::new("the last option wants a value", b""));
        }
        match self.files.cmp(&command.wanted()) {
            Ordering::Less => Err(Misuse::new("the command wants another file", b"")),
            Ordering::Equal => Ok(()),
            Ordering::Greater => Err(Misuse::new("the command wants fewer files", b"")),
        }
    }
}

// The entry address that a word gives.
fn entry(word: &[u8]) -> Result<u32, Misuse<'_>> {
    numbers::hex(word).ok_or(Misuse::new("--entry wants an address in hex digits, not ", word))
}

// The size that a word gives.
fn size(word: &[u8]) -> Result<usize, Misuse<'_>> {
    let size = numbers::decimal(word).ok_or(Misuse::new(
        "--size wants a number of bytes in decimal, not ",
        word,
    ))?;
    Ok(size as usize)
}

// The expected checksum that a word gives.
fn checksum(word: &[u8]) -> Result<u16, Misuse<'_>> {
    let sum = numbers::hex(word).ok_or(Misuse::new(
        "--expect wants a checksum in hex digits, not ",
        word,
    ))?;
    u16::try_from(sum).map_err(|_| Misuse::new(
        "--expect wants a checksum of at most ffff, not ",
        word,
    ))
}
