// The packets of a script: cut off one by one, listed, and sent to a loader.
use byte_parts::behind;
use loader::{Loader, Mode};
use packet::Command;
use std::io;

// The length of a script's head.
const HEAD: usize = 5;

// A packet of a script, and its offset there.
#[derive(Clone, Copy)]
pub struct Packet<'a> {
    at: usize,
    bytes: &'a [u8],
}

// What became of the packets that were sent.
#[derive(Clone, Copy)]
pub struct Sent {
    pub succeeded: usize,
    pub mode: Mode,
}

// The packets of a script behind its head, one after the other, and how many they are.
#[derive(Clone, Copy)]
pub struct Packets<'a> {
    pub count: usize,
    script: &'a [u8],
    at: usize,
}

impl<'a> Packets<'a> {
    // The packets of a script, unless its head is not right or it ends inside a packet.
    #[tactic(auto, unfolding(script::specs::Script::front_of))]
    pub fn of(script: &'a [u8]) -> Option<Packets<'a>> {
        if !script::is_headed(script) {
            return None;
        }
        let mut count = 0;
        // Where a packet ends shows at its own front alone.
        let mut rest = behind(script, HEAD);
        while !rest.is_empty() {
            rest = behind(rest, script::front(rest)?);
            count += 1;
        }
        Some(Packets {
            count,
            script,
            at: HEAD,
        })
    }
}

impl<'a> Iterator for Packets<'a> {
    type Item = Packet<'a>;

    ghost use Rattle.std.specs.Iterator.{at_most};
    ghost use Rattle.std.specs.Prelude.{◌-◌, length};

    ghost remaining = { λ packets. at_most (length packets.script.now - packets.at) };

    #[tactic(auto, unfolding(script::specs::Script::front_of))]
    fn next(&mut self) -> Option<Packet<'a>> {
        let at = self.at;
        let rest = behind(self.script, at);
        let bytes = rest.get(..script::front(rest)?)?;
        self.at += bytes.len();
        Some(Packet { at, bytes })
    }
}

// The address of a core, and how many bytes follow it.
fn show_core(rt: &impl Print, core: &[u8]) -> io::Result<()> {
    match packet::command_of(core) {
        Command::Write | Command::RangeChecksum | Command::Start => {
            let address = packet::address(core);
            let count = behind(core, 5).len();
            print!(rt; " {address:04x} {count}")
        }
        Command::Password | Command::Erase | Command::Unknown => {
            let count = behind(core, 1).len();
            print!(rt; " - {count}")
        }
    }
}

// A line for each of the packets.
pub fn list(rt: &impl Print, packets: Packets<'_>) -> io::Result<()> {
    for Packet { at, bytes } in packets {
        let core = packet::core(bytes);
        let code = little_endian::byte_at(core, 0);
        let acknowledgement = packet::acknowledgement(bytes);
        print!(rt; "\n  {at} {code:02x}")?;
        show_core(rt, core)?;
        print!(rt; " {acknowledgement:02x}")?;
    }
    Ok(())
}

// Sends the packets one by one to a locked loader.
pub fn send(packets: Packets<'_>, expected: u16, password: &[u8], region: &mut [u8]) -> Sent {
    let mut loader = Loader {
        mode: Mode::Locked,
        expected,
    };
    let mut succeeded: usize = 0;
    for packet in packets {
        let received = loader::receive(loader, region, password, packet.bytes);
        loader = received.loader;
        if loader::succeeded(received.reply) {
            succeeded = succeeded.saturating_add(1);
        }
    }
    Sent {
        succeeded,
        mode: loader.mode,
    }
}
