// What the loss of mains leaves of a message to the loader: the work of the message, judged without
// doing it, what a part of that work leaves in the region, and the loader's part of the state behind a
// restart.
#![tactic(auto)]

ghost use Rattle.std.specs.Prelude.{◌≡◌, cond, List, ℕ, ◌*◌, length, take, drop, replicate};
ghost use Rattle.flash.specs.Flash.{allows_of};
ghost use Rattle.little_endian.specs.Bytes.{stored_at};
ghost use Rattle.loader.specs.Loader.{done_of, obeyed_of};
ghost use Rattle.packet.specs.Packet.{command_of, address_of};
ghost use Rattle.power_cut.specs.Cut.{work_by, work_of, left_by, left_of, restarted_of};

use loader::{Loader, Mode};
use packet::Command;

// The bytes of a block, of which an erase is made.
const BLOCK: usize = 4096;

// The work of a write: the number of its data bytes, if the region allows them.
fn write_work(region: &[u8], core: &[u8]) -> usize
    ensures { result
        ≡ cond (allows_of (drop 5 core.now) (address_of core.now) region.now)
        (length (drop 5 core.now)) 0 }
{
    let data = byte_parts::behind(core, 5);
    let allowed = flash::allows(data, packet::address(core), region);
    if allowed { data.len() } else { 0 }
}

// The work of a command that the lock does not hold back.
#[tactic(auto, unfolding(crate::specs::Cut::command_work))]
fn command_work(command: Command, region: &[u8], core: &[u8]) -> usize
    ensures { (loader : Loader) (password : List ℕ)
        → result ≡ work_by command core.now region.now
        (done_of command loader region.now password core.now) }
{
    match command {
        Command::Erase => region.len() / BLOCK,
        Command::Write => write_work(region, core),
        Command::Password | Command::RangeChecksum | Command::Start | Command::Unknown => 0,
    }
}

// The work of the core of a packet without fault.
#[tactic(auto, unfolding(loader::specs::Loader::obeyed_of))]
fn core_work(loader: Loader, region: &[u8], core: &[u8]) -> usize
    ensures { (password : List ℕ)
        → result ≡ work_by (command_of core.now) core.now region.now
        (obeyed_of loader region.now password core.now) }
{
    let command = packet::command_of(core);
    if loader::holds_back(loader.mode, command) {
        return 0;
    }
    command_work(command, region, core)
}

// The work of a message, the last place at which a power cut can meet it, judged without doing it. The
// password decides nothing of it.
#[tactic(auto, unfolding(crate::specs::Cut::work_of, loader::specs::Loader::received_of, region::specs::Same::same))]
pub fn work(loader: Loader, region: &[u8], message: &[u8]) -> usize
    ensures { (password : List ℕ) → result ≡ work_of loader region.now password message.now }
{
    let asks = message == [loader::STATUS].as_slice();
    if asks || packet::acknowledgement(message) != packet::ACKNOWLEDGED {
        return 0;
    }
    core_work(loader, region, packet::core(message))
}

// The first blocks of 4,096 become 0xFF, if the region has so many.
fn erase_blocks(blocks: usize, region: &mut [u8])
    ensures { region.new ≡ stored_at 0 (replicate (blocks * 4096) 0xFF) region.old }
{
    if blocks <= region.len() / BLOCK {
        region[..blocks * BLOCK].fill(0xFF);
    }
}

// So much of a command's work is done.
#[tactic(auto, unfolding(crate::specs::Cut::left_by))]
fn leave_part(command: Command, core: &[u8], place: usize, region: &mut [u8])
    ensures { region.new ≡ left_by command core.now place region.old }
{
    match command {
        Command::Erase => erase_blocks(place, region),
        Command::Write => {
            let data = byte_parts::front(byte_parts::behind(core, 5), place);
            little_endian::store(data, packet::address(core), region);
        }
        Command::Password | Command::RangeChecksum | Command::Start | Command::Unknown => {}
    }
}

// A message is cut at a place of its work: the region as the cut leaves it. Whether the place is one is not judged here.
pub fn leave(message: &[u8], place: usize, region: &mut [u8])
    ensures { region.new ≡ left_of message.now place region.old }
{
    let core = packet::core(message);
    leave_part(packet::command_of(core), core, place, region);
}

// The loader's part of the state behind a restart.
#[tactic(auto, unfolding(crate::specs::Cut::restarted_of))]
pub fn restarted(loader: Loader, region: &[u8]) -> Loader
    ensures { result ≡ restarted_of loader region.now }
{
    let mode = if crc::checksum(crc::START, region) == loader.expected {
        Mode::Application
    } else {
        Mode::Locked
    };
    Loader { mode, ..loader }
}
