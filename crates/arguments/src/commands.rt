// The commands and the options, by their names, and which command takes what.

#[derive(Clone, Copy, PartialEq, Eq)]
pub enum Command {
    Plan,
    Check,
    Cuts,
    Show,
    Image,
    Sums,
    Picture,
    Record,
    Help,
    Version,
}

// An option by its name, without its value.
#[derive(Clone, Copy, PartialEq, Eq)]
pub(crate) enum Flag {
    Password,
    Entry,
    Size,
    Expect,
    Region,
    Force,
    Help,
    // What follows are files.
    End,
}

impl Command {
    // The command that a word names.
    pub(crate) fn of(word: &[u8]) -> Option<Command> {
        match word {
            b"plan" => Some(Command::Plan),
            b"check" => Some(Command::Check),
            b"cuts" => Some(Command::Cuts),
            b"show" => Some(Command::Show),
            b"image" => Some(Command::Image),
            b"sums" => Some(Command::Sums),
            b"picture" => Some(Command::Picture),
            b"record" => Some(Command::Record),
            b"--version" => Some(Command::Version),
            b"--help" | b"-h" => Some(Command::Help),
            _ => None,
        }
    }

    // Whether the command takes an option.
    pub(crate) fn takes(self, flag: Flag) -> bool {
        match flag {
            Flag::Help | Flag::End => true,
            Flag::Password => matches!(self, Command::Plan | Command::Check | Command::Cuts),
            Flag::Entry => self == Command::Plan,
            Flag::Size => !matches!(
                self,
                Command::Show | Command::Record | Command::Help | Command::Version
            ),
            Flag::Expect => matches!(self, Command::Check | Command::Cuts),
            Flag::Region => self == Command::Cuts,
            Flag::Force => matches!(self, Command::Plan | Command::Picture),
        }
    }

    // How many files the command wants.
    pub(crate) fn wanted(self) -> usize {
        match self {
            Command::Plan | Command::Check | Command::Cuts | Command::Picture => 2,
            Command::Show | Command::Image | Command::Sums | Command::Record => 1,
            Command::Help | Command::Version => 0,
        }
    }

    // Whether nothing after the command matters.
    pub(crate) fn is_alone(self) -> bool {
        matches!(self, Command::Help | Command::Version)
    }
}

impl Flag {
    // The option that a word names.
    pub(crate) fn of(word: &[u8]) -> Option<Flag> {
        match word {
            b"--password" => Some(Flag::Password),
            b"--entry" => Some(Flag::Entry),
            b"--size" => Some(Flag::Size),
            b"--expect" => Some(Flag::Expect),
            b"--region" => Some(Flag::Region),
            b"--force" => Some(Flag::Force),
            b"--" => Some(Flag::End),
            b"--help" | b"-h" => Some(Flag::Help),
            _ => None,
        }
    }
}
