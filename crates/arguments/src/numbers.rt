// Numbers that words give: hexadecimal digits, with 0x in front or not, and decimal ones. One that four bytes cannot hold is
// the greatest that they can, which is above every size and every region's addresses.

ghost use Rattle.std.specs.Prelude.{◌≤◌};

// The number of digits in a radix. A word without digits is none.
fn number_of(digits: &[u8], radix: u32) -> Option<u32>
    requires least { 2 ≤ radix }
    requires most { radix ≤ 36 }
{
    if digits.is_empty() {
        return None;
    }
    let mut value: u32 = 0;
    for &b in digits {
        let digit = char::from(b).to_digit(radix)?;
        value = value.saturating_mul(radix).saturating_add(digit);
    }
    Some(value)
}

// The number of a word in hexadecimal digits.
pub(crate) fn hex(word: &[u8]) -> Option<u32> {
    number_of(word.strip_prefix(b"0x").unwrap_or(word), 16)
}

// The number of a word in decimal digits.
pub(crate) fn decimal(word: &[u8]) -> Option<u32> {
    number_of(word, 10)
}
