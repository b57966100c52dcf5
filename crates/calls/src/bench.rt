// The bench: a card and the memory that is lent to it, the orders of a line, and its settings.
use crate::answers;
use application::Version;
use byte_parts::behind;
use card::Card;
use loader::{Loader, Mode};
use std::alloc::{AllocError, Global};
use std::io;
use vector_lines::packets::{byte_of, two_bytes_of};
use vector_lines::{Settings, number_of, show};

// How much is lent to a call.
#[derive(Clone, Copy)]
pub struct Lent {
    // Document 01's N.
    pub size: usize,
    // The lengths of the lent region, password and reply buffer.
    pub region: usize,
    pub password: usize,
    pub reply: usize,
}

// A card, how it is called, and the memory of which a region and a password are lent.
#[derive(Drop)]
pub struct Bench {
    pub card: Card,
    pub lent: Lent,
    pub region: Vec<u8>,
    pub password: Vec<u8>,
}

impl Bench {
    // A locked card of 4,096 bytes and version 0.0.0, and the sensor record of zeros.
    pub fn new(alloc: Global) -> Result<Bench, AllocError> {
        let card = Card {
            loader: Loader {
                mode: Mode::Locked,
                expected: 0,
            },
            version: Version {
                xx: 0,
                yy: 0,
                zz: 0,
            },
            record: sensor_reader::values(&[0u8; 64]),
        };
        let lent = Lent {
            size: 4096,
            region: 4096,
            password: 256,
            reply: 72,
        };
        Ok(Bench {
            card,
            lent,
            region: vec![in alloc; 0; input_rooms::REGION]?,
            password: vec![in alloc; 0xFF; 300]?,
        })
    }

    // A message to the card, with just what is lent to it.
    pub fn call(&mut self, rt: &impl Print, message: &[u8]) -> io::Result<()> {
        let mut room = [answers::BEFORE; 72];
        let before = self.card;
        let lent = self.lent;
        let (Some(region), Some(password), Some(reply)) = (
            self.region.as_mut_slice().get_mut(..lent.region),
            self.password.as_slice().get(..lent.password),
            room.get_mut(..lent.reply),
        ) else {
            return show::text(rt, b" no memory of that length");
        };
        let sum = crc::checksum(crc::START, region);
        let called = card::call(before, lent.size, region, password, message, reply);
        let after = called.card;
        self.card = after;
        match called.answer {
            Err(why) => {
                let kept = after.loader.mode == before.loader.mode
                    && after.loader.expected == before.loader.expected
                    && crc::checksum(crc::START, region) == sum
                    && byte_parts::every(reply, answers::BEFORE);
                answers::refused(rt, why, kept)
            }
            Ok(said) => answers::replied(rt, said, after.loader.mode, region, reply),
        }
    }

    // The password in the front of its room, and its length.
    pub fn key(&mut self, rt: &impl Print, bytes: &[u8]) -> io::Result<()> {
        let count = bytes.len();
        little_endian::store(bytes, 0, &mut self.password);
        self.lent.password = count;
        print!(rt; " password of {count}")
    }

    // The card with the record of 64 bytes, and whether the record keeps its rule.
    pub fn record(&mut self, rt: &impl Print, bytes: &[u8]) -> io::Result<()> {
        let record = sensor_reader::values(bytes);
        self.card.record = record;
        if sensor_values::sound(record) {
            return show::text(rt, b" sound");
        }
        show::text(rt, b" breaks its rule")
    }

    // The card's mode, and the checksum of the region that is lent.
    pub fn state(&self, rt: &impl Print) -> io::Result<()> {
        show::mode(rt, self.card.loader.mode)?;
        match self.region.as_slice().get(..self.lent.region) {
            Some(region) => answers::region_checksum(rt, region),
            None => show::text(rt, b", no region of that length"),
        }
    }
}

// The mode that a word begins as.
fn mode_of(word: &[u8]) -> Mode {
    match word.first() {
        Some(b'a') => Mode::Application,
        Some(b'u') => Mode::Unlocked,
        _ => Mode::Locked,
    }
}

// The lowest byte of a number.
fn low_byte(number: usize) -> u8 {
    (number & 0xFF) as u8
}

// The version of three decimal numbers with points between.
fn version_of(word: &[u8]) -> Version {
    let (first, rest) = number_of(word);
    let (second, rest) = number_of(behind(rest, 1));
    let (third, _) = number_of(behind(rest, 1));
    Version {
        xx: low_byte(first),
        yy: low_byte(second),
        zz: low_byte(third),
    }
}

impl Settings for Bench {
    // An order is no setting's name.
    fn set(&mut self, name: &[u8], value: &[u8]) -> bool {
        let (number, _) = number_of(value);
        match name {
            b"call" | b"key" | b"record" => return false,
            b"fill" => self.region.fill(byte_of(value)),
            b"size" => {
                self.lent.size = number;
                self.lent.region = number;
            }
            b"region" => self.lent.region = number,
            b"password" => self.lent.password = number,
            b"reply" => self.lent.reply = number,
            b"mode" => self.card.loader.mode = mode_of(value),
            b"expect" => self.card.loader.expected = two_bytes_of(value),
            b"version" => self.card.version = version_of(value),
            b"tcrit" => self.card.record.status.tcrit = low_byte(number),
            _ => {}
        }
        true
    }
}
