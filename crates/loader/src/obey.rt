// The commands of packets without fault. Region, password and core are handed down one by one: a struct around them would be
// made for one call and taken apart in each contract.
ghost use Rattle.std.specs.Prelude.{◌≡◌, not, ◌&&◌, List, ℕ};
ghost use Rattle.loader.specs.Loader.{outcome, is_unlocked, wants_unlocked, password_of, write_done, range_done, start_of};
ghost use Rattle.loader.specs.Loader.{done_of, obeyed_of};
ghost use Rattle.loader.specs.declared.Reply.TheVariants.{Message};

use crate::{Loader, Mode, Received, Reply};
use packet::Command;

// The messages of document 01: the bytes themselves, since they go onto the wire as they are.
const DONE: u8 = 0x00;

const NOT_DONE: u8 = 0x01;

const HELD_BACK: u8 = 0x04;

const PASSWORD_WRONG: u8 = 0x05;

const COMMAND_UNKNOWN: u8 = 0x07;

// The state stays, or has changed already, and a message is the reply.
fn say(loader: Loader, message: u8) -> Received
    ensures { result ≡ record { loader = loader; reply = Message message } }
{
    Received {
        loader,
        reply: Reply::Message(message),
    }
}

// Whether a command is obeyed by an unlocked loader only.
fn wants_unlocked(command: Command) -> bool
    ensures { result ≡ wants_unlocked command }
{
    matches!(
        command,
        Command::Erase | Command::Write | Command::RangeChecksum | Command::Start
    )
}

// Whether the lock holds a command back.
pub fn holds_back(mode: Mode, command: Command) -> bool
    ensures { result ≡ (wants_unlocked command && not (is_unlocked mode)) }
{
    wants_unlocked(command) && mode != Mode::Unlocked
}

// The password command: its 256 bytes stand behind the code.
fn try_password(loader: Loader, password: &[u8], core: &[u8]) -> Received
    ensures { (region : List ℕ) → outcome result.loader region result.reply ≡ password_of loader region password.now core.now }
{
    if byte_parts::behind(core, 1) == password {
        let unlocked = Loader {
            mode: Mode::Unlocked,
            ..loader
        };
        return say(unlocked, DONE);
    }
    say(loader, PASSWORD_WRONG)
}

// The write command: its data stand behind the address.
#[tactic(auto, unfolding(crate::specs::Loader::write_done))]
fn write(loader: Loader, region: &mut [u8], core: &[u8]) -> Received
    ensures { outcome result.loader region.new result.reply ≡ write_done loader region.old core.now }
{
    let done = flash::write(byte_parts::behind(core, 5), packet::address(core), region);
    say(loader, if done { DONE } else { NOT_DONE })
}

// The range checksum command.
#[tactic(auto, unfolding(crate::specs::Loader::range_done))]
fn range_checksum(loader: Loader, region: &[u8], core: &[u8]) -> Received
    ensures { outcome result.loader region.now result.reply ≡ range_done loader region.now core.now }
{
    let n = packet::range_length(core);
    match flash::range_checksum(packet::address(core), n, region) {
        None => say(loader, NOT_DONE),
        Some(sum) => Received {
            loader,
            reply: Reply::Data(sum),
        },
    }
}

// The start command.
#[tactic(auto, unfolding(crate::specs::Loader::start_of))]
fn start(loader: Loader, region: &[u8], core: &[u8]) -> Received
    ensures { outcome result.loader region.now result.reply ≡ start_of loader region.now core.now }
{
    if !flash::starts(packet::address(core), loader.expected, region) {
        return say(loader, NOT_DONE);
    }
    Received {
        loader: Loader {
            mode: Mode::Application,
            ..loader
        },
        reply: Reply::Nothing,
    }
}

// A command that the lock does not hold back.
#[tactic(auto, unfolding(crate::specs::Loader::done_of))]
fn act(
    command: Command,
    loader: Loader,
    region: &mut [u8],
    password: &[u8],
    core: &[u8],
) -> Received
    ensures { outcome result.loader region.new result.reply ≡ done_of command loader region.old password.now core.now }
{
    match command {
        Command::Password => try_password(loader, password, core),
        Command::Erase => {
            region.fill(0xFF);
            say(loader, DONE)
        }
        Command::Write => write(loader, region, core),
        Command::RangeChecksum => range_checksum(loader, region, core),
        Command::Start => start(loader, region, core),
        Command::Unknown => say(loader, COMMAND_UNKNOWN),
    }
}

// The core of a packet without fault.
#[tactic(auto, unfolding(crate::specs::Loader::obeyed_of))]
pub fn obey(loader: Loader, region: &mut [u8], password: &[u8], core: &[u8]) -> Received
    ensures { outcome result.loader region.new result.reply ≡ obeyed_of loader region.old password.now core.now }
{
    let command = packet::command_of(core);
    if holds_back(loader.mode, command) {
        return say(loader, HELD_BACK);
    }
    act(command, loader, region, password, core)
}
