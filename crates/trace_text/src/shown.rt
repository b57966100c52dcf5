// What is shown of a packet: its line, or the lines of its cuts.
ghost use Rattle.std.specs.Prelude.{◌≡◌, suc, ◌<◌, ◌≤◌, length};
ghost use Rattle.little_endian.specs.Bytes.{PutBehind};
ghost use Rattle.loader.specs.Loader.{received_of};
ghost use Rattle.trace_lines.specs.Lines.{end_line, line_text};
ghost use Rattle.trace_text.specs.Trace.{Kind, Trace as OfTrace, Cuts as OfCuts, cut_lines, packet_lines};

use crate::card::Card;
use trace_lines::{Ending, Line, cut_line, end_line, packet_line};

// A line over the front of a buffer; the answer is its length.
fn append(line: &Line, out: &mut [u8]) -> usize
    requires { length (line_text line.now) ≤ length out.old }
    ensures { PutBehind (line_text line.now) 0 out.old result out.new }
{
    let bytes = line.as_bytes();
    little_endian::store(bytes, 0, out);
    bytes.len()
}

// The end line at an offset over the front of a buffer.
pub fn append_end(at: u16, ending: Ending, out: &mut [u8]) -> usize
    requires { length (end_line at ending) ≤ length out.old }
    ensures { PutBehind (end_line at ending) 0 out.old result out.new }
{
    append(&end_line(at, ending), out)
}

// A line for each place from 0 to the last at which a packet is cut, over the front of a buffer.
fn append_cuts(at: u16, card: &Card, packet: &[u8], last: usize, out: &mut [u8]) -> usize
    requires { (last < 65536)
        × (length (cut_lines at card.now.loader card.now.region packet.now (suc last)) ≤ length out.old) }
    ensures { PutBehind (cut_lines at card.now.loader card.now.region packet.now (suc last)) 0 out.old result out.new }
{
    let mut held = 0;
    for place in 0..=last {
        let region = card.cut_region(packet, place);
        let line = cut_line(at, place as u16, card.loader, &region);
        held += append(&line, &mut out[held..]);
    }
    held
}

// What is shown of a script's packets.
pub trait Shown {
    ghost kind: { Kind };

    // Runs a packet, with its lines put over the front of a buffer; the answer is their length.
    fn run(at: u16, card: &mut Card, packet: &[u8], out: &mut [u8]) -> usize
        requires packet { (5 ≤ length packet.now) × (length packet.now ≤ 65536) }
        requires room { length (packet_lines kind card.old.password card.old.loader card.old.region at packet.now) ≤ length out.old }
        ensures lines { PutBehind (packet_lines kind card.old.password card.old.loader card.old.region at packet.now)
            0 out.old result out.new }
        ensures loader { card.new.loader ≡ (received_of card.old.loader card.old.region card.old.password packet.now).loader }
        ensures region { card.new.region ≡ (received_of card.old.loader card.old.region card.old.password packet.now).region }
        ensures password { card.new.password ≡ card.old.password };
}

// One line.
pub struct Trace;

// A line for each place at which it can be cut.
pub struct Cuts;

impl Shown for Trace {
    ghost kind = { OfTrace };

    fn run(at: u16, card: &mut Card, packet: &[u8], out: &mut [u8]) -> usize {
        let reply = card.receive(packet);
        append(&packet_line(at, packet, reply), out)
    }
}

impl Shown for Cuts {
    ghost kind = { OfCuts };

    fn run(at: u16, card: &mut Card, packet: &[u8], out: &mut [u8]) -> usize {
        let work = power_cut::work(card.loader, &card.region, packet);
        let length = append_cuts(at, card, packet, work, out);
        card.receive(packet);
        length
    }
}
