// The script of a line, made step by step; what its room does not hold is left out.
ghost use Rattle.std.specs.Prelude.{◌≡◌};

use byte_parts::{behind, front};
use std::io;
use vector_lines::room::Room;
use vector_lines::{cut, hex_of, number_of, packets, secret, show};

// Leaves out the last bytes, so many.
fn shorten(script: &mut Room, count: usize)
    ensures { script.new.size ≡ script.old.size }
{
    let kept = script.held.saturating_sub(count);
    script.keep(kept);
}

// Puts a byte over the one at a place, if there is one.
fn put_over(bytes: &mut [u8], at: usize, byte: u8) {
    if let Some(old) = bytes.get_mut(at) {
        *old = byte;
    }
}

// The text that a script is planned of, and its size.
#[derive(Clone, Copy)]
pub struct Planning<'a> {
    pub text: &'a [u8],
    pub size: usize,
}

impl Planning<'_> {
    // Puts the planner's script of the text, with the whole password. It is planned over what stands behind the script.
    fn put(&self, rt: &impl Print, entry: u32, script: &mut Room) -> io::Result<()>
        ensures { script.new.size ≡ script.old.size }
    {
        let secret = secret();
        let held = script.held;
        let out = &mut script.bytes[held..];
        match planner::plan(self.text, front(&secret, 256), entry, self.size, out) {
            Ok(n) => {
                script.hold_more(n);
                Ok(())
            }
            Err(_) => show::text(rt, b" no plan"),
        }
    }

    // Carries out a step.
    fn carry_out(&self, rt: &impl Print, step: &[u8], script: &mut Room) -> io::Result<()>
        ensures { script.new.size ≡ script.old.size }
    {
        let (name, rest) = cut(step, b' ');
        let (number, others) = number_of(rest);
        let more = behind(others, 1);
        match name {
            b"head" => script.put_whole(&script::head())?,
            b"plan" => self.put(rt, hex_of(rest), script)?,
            b"cut" => script.keep(number),
            b"less" => shorten(script, number),
            b"at" => put_over(&mut script.bytes, number, packets::byte_of(more)),
            b"again" if number == 0 => script.hold_more(number_of(more).0),
            b"again" => script.go_on(number, number_of(more).0)?,
            _ => packets::put(rt, step, script)?,
        }
        Ok(())
    }

    // Puts the script that steps make, with a comma and a space between them, into the room, which holds nothing else then.
    // What an earlier script had behind it is not gone: `again` with no byte puts it there once more.
    pub fn script_of(&self, rt: &impl Print, steps: &[u8], script: &mut Room) -> io::Result<()>
        ensures { script.new.size ≡ script.old.size }
    {
        script.keep(0);
        // A slice is split by one byte, and two stand between steps.
        let mut rest = steps;
        while !rest.is_empty() {
            let (step, others) = cut(rest, b',');
            self.carry_out(rt, step, script)?;
            rest = behind(others, 1);
        }
        Ok(())
    }
}
