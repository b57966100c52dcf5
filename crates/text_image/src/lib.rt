// The image of a firmware text: whether it is sound for a region, by document 01's refusals 1, 18, 3, 4
// and 5, each judged over the whole text before the next; and its bytes put into a region.
#![tactic(auto)]

ghost use Rattle.std.specs.Prelude.{◌≡◌, ◌≤◌, set};
ghost use Rattle.firmware_text.specs.Machine.{image_of};
ghost use Rattle.text_image.specs.Picture.{placed};
ghost use Rattle.text_image.specs.Rules.{judged, image_rules, rules_of};
ghost use Rattle.text_image.specs.Walk.{said};

use refusal::{Refusal, Refused};
use text_cursor::{Reading, Token};

// The length of the longest text that is read.
pub const LONGEST: usize = 1048576;

// What is said of a well-formed text by its first pair outside the region and the first whose address
// was given before.
fn conclude(outside: Option<usize>, repeated: Option<usize>) -> Result<(), Refused>
    ensures { judged result ≡ said outside repeated }
{
    if let Some(place) = outside {
        return Err(Refused {
            refusal: Refusal::AddressOutside,
            place,
        });
    }
    if let Some(place) = repeated {
        return Err(Refused {
            refusal: Refusal::AddressRepeated,
            place,
        });
    }
    Ok(())
}

// Whether the image of the text keeps its rules. The map has a bit for each address that was given.
fn judge_image(text: &[u8], size: usize) -> Result<(), Refused>
    requires { size ≤ 262144 }
    ensures { judged result ≡ image_rules size (image_of text.now) }
{
    let mut map = [0u8; 32768];
    let mut outside = None;
    let mut repeated = None;
    for token in Reading::of(text) {
        // opened in two steps, here and in each walk: of a case within a case the proof does not name the token
        let token = match token {
            Ok(token) => token,
            Err(place) => {
                return Err(Refused {
                    refusal: Refusal::TextMalformed,
                    place,
                });
            }
        };
        match token {
            Token::Byte { place, address, .. } => {
                if size as u64 <= address {
                    outside = outside.or(Some(place));
                } else if address_set::mark(&mut map, address as usize) {
                    repeated = repeated.or(Some(place));
                }
            }
            Token::Segment { .. } => {}
            Token::End => {}
        }
    }
    conclude(outside, repeated)
}

// Whether a text is sound for a region of the size.
pub fn judge(text: &[u8], size: usize) -> Result<(), Refused>
    ensures { judged result ≡ rules_of text.now size }
{
    if !region::size_good(size) {
        return Err(Refusal::RegionSize.into());
    }
    if LONGEST < text.len() {
        return Err(Refusal::TooLong.into());
    }
    judge_image(text, size)
}

// Stores a byte at an address that the region has.
fn store(region: &mut [u8], address: u64, value: u8)
    ensures { region.new ≡ set region.old address value }
{
    // of a `get_mut` too little is promised: not what the region is behind a None
    if address < region.len() as u64 {
        region[address as usize] = value;
    }
}

// Puts the bytes of a text at their addresses, as far as it is well-formed and the region has them.
pub fn place(text: &[u8], region: &mut [u8])
    ensures { region.new ≡ placed (image_of text.now) region.old }
{
    for token in Reading::of(text) {
        let Ok(token) = token else {
            return;
        };
        match token {
            Token::Byte { address, value, .. } => store(region, address, value),
            Token::Segment { .. } => {}
            Token::End => {}
        }
    }
}
