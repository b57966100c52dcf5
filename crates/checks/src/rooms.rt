// The memory that the lines are answered in, one line after another.
use std::alloc::{AllocError, Global};
use vector_lines::room::Room;

// Rooms for a script and a text, and a region and known bits, of which the fronts are lent.
#[derive(Drop)]
pub struct Rooms {
    pub script: Room,
    pub text: Room,
    pub region: Vec<u8>,
    pub known: Vec<u8>,
}

impl Rooms {
    // All the memory that the lines need, so that none of them runs out of it.
    pub fn new(alloc: Global) -> Result<Rooms, AllocError> {
        Ok(Rooms {
            script: Room::whole(alloc, input_rooms::SCRIPT)?,
            text: Room::whole(alloc, input_rooms::TEXT)?,
            region: vec![in alloc; 0; input_rooms::REGION]?,
            known: vec![in alloc; 0; input_rooms::KNOWN]?,
        })
    }
}
