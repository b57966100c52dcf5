// The walk over a script's packets.
ghost use Rattle.std.specs.Prelude.{◌≡◌, ◌||◌, ◌≤◌, eqb, length, drop};
ghost use Rattle.loader.specs.Loader.{is_application};
ghost use Rattle.little_endian.specs.Bytes.{PutBehind};
ghost use Rattle.script.specs.Script.{frames_of};
ghost use Rattle.trace_text.specs.Trace.{lines_at};

use crate::card::Card;
use crate::shown::{Shown, append_end};
use loader::Mode;
use trace_lines::Ending;

// Whether the walk ends before the next packet: the firmware started, or nothing is left.
fn is_over(mode: Mode, rest: &[u8]) -> bool
    ensures { result ≡ (is_application mode || eqb (length rest.now) 0) }
{
    mode == Mode::Application || rest.is_empty()
}

// The lines of the packets behind the head, run on a card, over the front of a buffer; the answer is
// their length.
pub fn append_packets<S: Shown>(script: &[u8], card: Card, out: &mut [u8]) -> usize
    requires script { (5 ≤ length script.now) × (length script.now ≤ 16384) }
    requires room { length (lines_at S.kind card.password card.loader card.region 5 (frames_of (drop 5 script.now))) ≤ length out.old }
    ensures { PutBehind (lines_at S.kind card.password card.loader card.region 5 (frames_of (drop 5 script.now)))
        0 out.old result out.new }
{
    let mut card = card;
    // Carried by hand: every line names the offset, and how long a packet is shows at its front alone.
    let mut at = 5;
    let mut held = 0;
    while !is_over(card.loader.mode, &script[at..]) {
        let Some(length) = script::front(&script[at..]) else {
            return held + append_end(at as u16, Ending::Cut, &mut out[held..]);
        };
        let end = at + length;
        held += S::run(at as u16, &mut card, &script[at..end], &mut out[held..]);
        at = end;
    }
    held + append_end(
        at as u16,
        Ending::InMode(card.loader.mode),
        &mut out[held..],
    )
}
