// The commands that write a file: `plan` a script, `picture` a region. The public functions judge what is read; a file
// is written when they have answered, whole or not at all.
#![tactic(auto)]

pub mod picture;
pub mod plan;

ghost use Rattle.std.specs.Prelude.{◌≡◌};
ghost use Rattle.crc.specs.Crc.{checksum_of};

use arguments::{Name, Options};
use files::{Replacing, Rule};

// What a command may replace that has read two files: what it replaces by itself, or with --force any regular file.
fn rule(options: Options, second: Option<Name>, usual: Replacing) -> Rule {
    Rule {
        first: options.first,
        second,
        replacing: if options.force { Replacing::Any } else { usual },
    }
}

// The checksum of the picture of a text, which is put into a region for it. Where the text is refused, it
// is that of the region as it was.
pub fn image_checksum(text: &[u8], region: &mut [u8]) -> u16
    ensures { result ≡ checksum_of region.new }
{
    let _ = ti_txt::read(text, region.len(), region);
    crc::checksum(crc::START, region)
}

// The checksum that a card expects: the one asked for, or that of the picture of a text.
pub fn expected_checksum(asked: Option<u16>, text: &[u8], region: &mut [u8]) -> u16 {
    match asked {
        Some(sum) => sum,
        None => image_checksum(text, region),
    }
}
