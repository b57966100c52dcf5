// The settings of a line: the size, the lengths of what is lent, and the expected checksum.
use vector_lines::packets::two_bytes_of;
use vector_lines::{Settings, number_of};

// How a script is checked.
#[derive(Clone, Copy)]
pub struct Setup {
    // document 01's N
    pub size: usize,
    // the lengths of the region, of the known bits and of the password
    pub region: usize,
    pub known: usize,
    pub password: usize,
    // the expected checksum, if it is not the picture's own
    pub expected: Option<u16>,
}

impl Setup {
    // A region of 4,096 bytes, a bit for each of them and a whole password.
    pub fn new() -> Setup {
        Setup {
            size: 4096,
            region: 4096,
            known: 512,
            password: 256,
            expected: None,
        }
    }
}

impl Settings for Setup {
    fn set(&mut self, name: &[u8], value: &[u8]) -> bool {
        let (number, _) = number_of(value);
        match name {
            b"size" => {
                self.size = number;
                self.region = number;
                self.known = number / 8;
            }
            b"region" => self.region = number,
            b"known" => self.known = number,
            b"password" => self.password = number,
            b"expect" => self.expected = Some(two_bytes_of(value)),
            _ => {}
        }
        true
    }
}
