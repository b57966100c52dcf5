// Sets of addresses in a lent map of bytes, a bit for each address, the low bit of each byte first. An
// address for which the map has no bit is in no set and cannot be added.
#![tactic(auto)]

ghost use Rattle.std.specs.Prelude.{◌≡◌};
ghost use Rattle.address_set.specs.Bits.{marked, Marked};

// Whether the address is in the set.
#[tactic(auto, using(crate::proofs::Maps::behind_end), unfolding(crate::specs::Bits::marked))]
pub fn is_marked(map: &[u8], address: usize) -> bool
    ensures { result ≡ marked map.now address }
{
    map.get(address / 8)
        .is_some_and(|byte| (byte >> (address % 8)) % 2 == 1)
}

// Adds the address to the set, and says whether it was in it.
pub fn mark(map: &mut [u8], address: usize) -> bool
    ensures { (result ≡ marked map.old address) × Marked map.old map.new address }
{
    let i = address / 8;
    let bit = address % 8;
    let Some(&byte) = map.get(i) else {
        return false;
    };
    if (byte >> bit) % 2 == 1 {
        return true;
    }
    // not by a `get_mut` above: it does not promise what the map is behind a None
    map[i] = byte + (1 << bit);
    false
}
