// The loader of a card: its state, and what a message does to it and to the flash region. The reply is
// a value, so that a caller sees a success without taking bytes apart; `put` turns it into bytes, and
// is the one place that does.
#![tactic(auto)]

mod obey;

ghost use Rattle.std.specs.Prelude.{◌≡◌, ◌∷◌, ◌≤◌, length};
ghost use Rattle.packet.specs.Packet.{packet_of};
ghost use Rattle.loader.specs.Loader.{outcome, succeeded_of, received_of};
ghost use Rattle.loader.specs.Reply.{bytes_of, placed, placed_of};

pub use obey::holds_back;
use obey::obey;

// The message that asks whether firmware or loader runs, and the answer that the loader does.
pub const STATUS: u8 = 0x31;

const LOADER_RUNS: u8 = 0x01;

// What the cores of replies begin with.
const MESSAGE: u8 = 0x3B;

const DATA: u8 = 0x3A;

#[derive(Clone, Copy, PartialEq, Eq)]
pub enum Mode {
    Application,
    Locked,
    Unlocked,
}

// The loader's part of a card's state.
#[derive(Clone, Copy)]
pub struct Loader {
    pub mode: Mode,
    pub expected: u16,
}

// What is answered to a message.
#[derive(Clone, Copy)]
pub enum Reply {
    // No byte: a start that ends in application.
    Nothing,
    // One byte: the answer to 0x31, or the first fault of a message.
    Byte(u8),
    // 0x00, and a packet whose core is 0x3B and the message.
    Message(u8),
    // 0x00, and a packet whose core is 0x3A and the number's two bytes, low first.
    Data(u16),
}

// What a message leaves of the loader's part of the state, handed back by value, and the reply to it.
#[derive(Clone, Copy)]
pub struct Received {
    pub loader: Loader,
    pub reply: Reply,
}

// Whether a reply says success.
pub fn succeeded(reply: Reply) -> bool
    ensures { result ≡ succeeded_of reply }
{
    matches!(reply, Reply::Nothing | Reply::Message(0) | Reply::Data(_))
}

// One message in a loader mode. In application mode the card hands the loader none; a loader that is
// given one there all the same obeys what a locked one does.
#[tactic(auto, unfolding(crate::specs::Loader::received_of, region::specs::Same::same))]
pub fn receive(loader: Loader, region: &mut [u8], password: &[u8], message: &[u8]) -> Received
    ensures { outcome result.loader region.new result.reply ≡ received_of loader region.old password.now message.now }
{
    if message == [STATUS].as_slice() {
        return Received {
            loader,
            reply: Reply::Byte(LOADER_RUNS),
        };
    }
    let acknowledgement = packet::acknowledgement(message);
    if acknowledgement != packet::ACKNOWLEDGED {
        return Received {
            loader,
            reply: Reply::Byte(acknowledgement),
        };
    }
    obey(loader, region, password, packet::core(message))
}

// 0x00 and the packet around a core of at most three bytes, over the front of a buffer.
fn put_packet(core: &[u8], out: &mut [u8]) -> usize
    requires { (1 ≤ length core.now) × (length core.now ≤ 3) }
    ensures { placed result out.new ≡ placed_of (0x00 ∷ packet_of core.now) out.old }
{
    let mut bytes = [packet::ACKNOWLEDGED; 9];
    let n = core.len() + 6;
    packet::write(core, &mut bytes[1..n]);
    little_endian::store(&bytes[..n], 0, out);
    n
}

// The bytes of a reply over the front of a buffer that has the room, and their number.
#[tactic(auto, unfolding(crate::specs::Reply::bytes_of))]
pub fn put(reply: Reply, out: &mut [u8]) -> usize
    ensures { placed result out.new ≡ placed_of (bytes_of reply) out.old }
{
    match reply {
        Reply::Nothing => 0,
        Reply::Byte(byte) => {
            little_endian::store(&[byte], 0, out);
            1
        }
        Reply::Message(message) => put_packet(&[MESSAGE, message], out),
        Reply::Data(sum) => {
            let [low, high] = sum.to_le_bytes();
            put_packet(&[DATA, low, high], out)
        }
    }
}
