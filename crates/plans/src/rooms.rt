// The memory that the lines are answered in, one line after another.
use std::alloc::{AllocError, Global};
use vector_lines::room::Room;

// A region that the packets are sent over, and another that the reader puts the picture into; their fronts are lent.
#[derive(Drop)]
pub struct Regions {
    pub region: Vec<u8>,
    pub picture: Vec<u8>,
}

// A room for a text, an output, of which the front is lent, and the regions.
#[derive(Drop)]
pub struct Rooms {
    pub text: Room,
    pub out: Vec<u8>,
    pub regions: Regions,
}

impl Rooms {
    // All the memory that the lines need, so that none of them runs out of it.
    pub fn new(alloc: Global) -> Result<Rooms, AllocError> {
        Ok(Rooms {
            text: Room::whole(alloc, input_rooms::TEXT)?,
            out: vec![in alloc; 0; input_rooms::TEXT]?,
            regions: Regions {
                region: vec![in alloc; 0; input_rooms::REGION]?,
                picture: vec![in alloc; 0; input_rooms::REGION]?,
            },
        })
    }
}
