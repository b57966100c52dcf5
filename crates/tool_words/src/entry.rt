// The address at which a script starts the firmware.
use report::{Line, System};
use std::io;
use text_cursor::{Cursor, Token};

// Whether the image of a text has a byte at an address. Each token takes at least one byte of the text. The cursor is moved
// by hand, as each token hands back the one behind it: an iterator of tokens would be a type for this one walk.
fn gives(text: &[u8], wanted: u64) -> bool {
    let mut cursor = Cursor::new();
    for _ in text {
        match cursor.next(text) {
            Ok(Token::Byte { address, .. }) if address == wanted => return true,
            Ok(Token::Byte { cursor: next, .. } | Token::Segment { cursor: next, .. }) => {
                cursor = next
            }
            Ok(Token::End) | Err(_) => return false,
        }
    }
    false
}

// Says the entry address, and warns where the image of a text has no byte there: a card would start at erased flash.
pub fn print(rt: &impl System, text: &[u8], address: usize) -> io::Result<()> {
    Line::new().text("entry ").hex(address).print(rt)?;
    if !gives(text, address as u64) {
        Line::new()
            .text("cardtool: warning: the image gives no byte at the entry ")
            .hex(address)
            .complain(rt);
    }
    Ok(())
}
