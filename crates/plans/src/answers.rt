// Plans, answered.
use crate::packets;
use crate::packets::Packets;
use crate::rooms::Regions;
use std::io;
use vector_lines::show;

// What every byte of the output is before a text is planned.
pub const BEFORE: u8 = 0xA5;

// What every byte of the region is before the packets are sent.
const OLD: u8 = 0x5A;

// What a line asks for.
#[derive(Clone, Copy)]
pub struct Plan<'a> {
    // whether the packets are listed
    pub listed: bool,
    pub size: usize,
    pub entry: u32,
    pub password: &'a [u8],
    pub text: &'a [u8],
}

impl Plan<'_> {
    // The text planned over an output that every byte of is BEFORE.
    pub fn answer(&self, rt: &impl Print, out: &mut [u8], regions: &mut Regions) -> io::Result<()> {
        match planner::plan(self.text, self.password, self.entry, self.size, out) {
            Ok(n) => self.written(rt, n, out, regions),
            Err(refused) => show::refused_and_kept(rt, refused, out, BEFORE),
        }
    }

    // What was planned over the front of the output: its packets and its checksum, whether the rest of the output is
    // as it was, and what became of the packets.
    fn written(
        &self,
        rt: &impl Print,
        n: usize,
        out: &[u8],
        regions: &mut Regions,
    ) -> io::Result<()> {
        print!(rt; " planned {n} bytes,")?;
        let Some((script, rest)) = out.split_at_checked(n) else {
            return show::text(rt, b" above the output's length");
        };
        let Some(packets) = Packets::of(script) else {
            return show::text(rt, b" no script");
        };
        let count = packets.count;
        print!(rt; " {count} packets, checksum")?;
        show::checksum(rt, script)?;
        show::text(rt, b", rest")?;
        show::kept_as(rt, rest, BEFORE)?;
        self.send(rt, packets, regions)?;
        if self.listed {
            packets::list(rt, packets)?;
        }
        Ok(())
    }

    // Sends the packets over a region of the size to a loader that expects the checksum of the picture, which the
    // reader puts into another region.
    fn send(&self, rt: &impl Print, packets: Packets<'_>, regions: &mut Regions) -> io::Result<()> {
        let (Some(region), Some(picture)) = (
            regions.region.as_mut_slice().get_mut(..self.size),
            regions.picture.as_mut_slice().get_mut(..self.size),
        ) else {
            return show::text(rt, b" no region of that length");
        };
        region.fill(OLD);
        picture.fill(0);
        let _ = ti_txt::read(self.text, self.size, picture);
        let expected = crc::checksum(crc::START, picture);
        let sent = packets::send(packets, expected, self.password, region);
        let succeeded = sent.succeeded;
        print!(rt; "; sent: {succeeded} succeeded,")?;
        show::mode(rt, sent.mode)?;
        if *region == *picture {
            return show::text(rt, b", the picture");
        }
        show::text(rt, b", another region")
    }
}
