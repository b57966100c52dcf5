// Scripts: document 01's `BSX`, a 16-bit version 1 low byte first, then packets back to back. The head
// is made and compared here, and packets are cut off the front of what is left; the faults of a packet
// are not judged. None of these functions asks anything of its input.
#![tactic(auto)]

ghost use Rattle.std.specs.Prelude.{◌≡◌};
ghost use Rattle.script.specs.Script.{head, headed, front_of};

use little_endian::Number;

// The version that a script states.
const VERSION: u16 = 1;

// The head that every script begins with.
#[tactic(auto, unfolding(little_endian::specs::Bytes::stored_at))]
pub fn head() -> [u8; 5]
    ensures { result ≡ head }
{
    let mut bytes = [0u8; 5];
    little_endian::store(b"BSX", 0, &mut bytes);
    VERSION.store_at(3, &mut bytes);
    bytes
}

// Whether bytes begin with a script's head.
#[tactic(auto, unfolding(crate::specs::Script::headed, region::specs::Same::same))]
pub fn is_headed(bytes: &[u8]) -> bool
    ensures { result ≡ headed bytes.now }
{
    bytes.starts_with(&head())
}

// The length of the packet that bytes begin with, none if they end inside it.
#[tactic(auto, unfolding(crate::specs::Script::front_of))]
pub fn front(bytes: &[u8]) -> Option<usize>
    ensures { result ≡ front_of bytes.now }
{
    let framed = packet::core_length(bytes) + 5;
    (framed <= bytes.len()).then_some(framed)
}
