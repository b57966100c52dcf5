// The card that a script is run on.
ghost use Rattle.std.specs.Prelude.{◌≡◌, replicate};
ghost use Rattle.loader.specs.Loader.{outcome, received_of};
ghost use Rattle.power_cut.specs.Cut.{left_of};
ghost use Rattle.trace_text.specs.Trace.{locked};

use loader::{Loader, Mode, Reply};

// How many bytes its region has.
const REGION: usize = 4096;

#[derive(Drop)]
pub struct Card {
    pub loader: Loader,
    pub region: [u8; REGION],
    pub password: [u8; 256],
}

impl Card {
    // A locked card with a region of zeros, that expects the checksum 0; its password is all 0xFF.
    pub fn new() -> Self
        ensures loader { result.loader ≡ locked }
        ensures region { result.region ≡ replicate 4096 0 }
        ensures password { result.password ≡ replicate 256 0xFF }
    {
        Card {
            loader: Loader {
                mode: Mode::Locked,
                expected: 0,
            },
            region: [0; REGION],
            password: [0xFF; 256],
        }
    }

    // Runs a packet.
    pub fn receive(&mut self, packet: &[u8]) -> Reply
        ensures run { outcome self.new.loader self.new.region result
            ≡ received_of self.old.loader self.old.region self.old.password packet.now }
        ensures password { self.new.password ≡ self.old.password }
    {
        let received = loader::receive(self.loader, &mut self.region, &self.password, packet);
        self.loader = received.loader;
        received.reply
    }

    // The region as a packet that is cut at a place leaves it.
    pub fn cut_region(&self, packet: &[u8], place: usize) -> [u8; REGION]
        ensures { result ≡ left_of packet.now place self.now.region }
    {
        let mut region = self.region;
        power_cut::leave(packet, place, &mut region);
        region
    }
}
