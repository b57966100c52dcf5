// The reader of firmware text (TI-TXT): it fills a lent region with the picture of a text's image, or
// refuses and changes nothing. Beside it stands what the checker needs of a text: whether a buffer is
// its picture, for which a bit for each address serves in place of a third region.
#![tactic(auto)]

ghost use Rattle.std.specs.Prelude.{◌≡◌, ◌&&◌, ◌<◌, ◌≤◌, ◌↔◌, IsTrue, length, get_or, replicate};
ghost use Rattle.region.specs.Same.{same};
ghost use Rattle.firmware_text.specs.Machine.{image_of};
ghost use Rattle.text_image.specs.Rules.{judged, image_rules, is_sound};
ghost use Rattle.ti_txt.specs.Answers.{outcome, read_of, is_picture_of};
ghost use Rattle.text_image.specs.Picture.{picture_of};
ghost use Rattle.ti_txt.specs.Compared.{BlankElsewhere};

use refusal::{Refusal, Refused};
use text_cursor::{Reading, Token};

// Sets every byte to 0xFF.
fn blank(region: &mut [u8])
    ensures { region.new ≡ replicate (length region.old) 0xFF }
{
    region.fill(0xFF);
}

// Fills the region, of the size, with the picture of the text, if the text is sound.
pub fn read(text: &[u8], size: usize, region: &mut [u8]) -> Result<(), Refused>
    ensures { outcome (judged result) region.new ≡ read_of text.now size region.old }
{
    if region.len() != size {
        return Err(Refusal::RegionSize.into());
    }
    text_image::judge(text, size)?;
    blank(region);
    text_image::place(text, region);
    Ok(())
}

// Whether the buffer has the value at the address.
fn holds(buffer: &[u8], address: u64, value: u8) -> bool
    ensures { IsTrue result ↔ ((address < length buffer.now) × (get_or buffer.now address 0 ≡ value)) }
{
    buffer.get(address as usize) == Some(&value)
}

// Whether each byte whose address is not in the map is 0xFF.
fn blank_elsewhere(buffer: &[u8], map: &[u8]) -> bool
    ensures { BlankElsewhere buffer.now map.now result }
{
    buffer.iter().enumerate().all(|(at, &value)| value == 0xFF || address_set::is_marked(map, at))
}

// Whether the image of the text keeps its rules and the buffer is its picture.
fn agrees(text: &[u8], buffer: &[u8]) -> bool
    requires { length buffer.now ≤ 262144 }
    ensures { result
        ≡ (is_sound (image_rules (length buffer.now) (image_of text.now))
        && same buffer.now (picture_of (length buffer.now) (image_of text.now))) }
{
    let mut map = [0u8; 32768];
    for token in Reading::of(text) {
        let Ok(token) = token else {
            return false;
        };
        match token {
            Token::Byte { address, value, .. } => {
                if !holds(buffer, address, value) {
                    return false;
                }
                if address_set::mark(&mut map, address as usize) {
                    return false;
                }
            }
            Token::Segment { .. } => {}
            Token::End => {}
        }
    }
    blank_elsewhere(buffer, &map)
}

// Whether the buffer is the picture of the text, which is sound for the buffer's length.
pub fn is_picture(text: &[u8], buffer: &[u8]) -> bool
    ensures { result ≡ is_picture_of text.now buffer.now }
{
    region::size_good(buffer.len()) && text.len() <= text_image::LONGEST && agrees(text, buffer)
}
