// Firmware text (TI-TXT): which texts are well-formed, what image each denotes, and the reading of
// one hex digit. The layers above walk a text; what they promise is said in this crate's terms.
#![tactic(auto)]

ghost use Rattle.std.specs.Prelude.{◌≡◌, ◌&&◌, ◌<◌, leb, IfSome};
ghost use Rattle.firmware_text.specs.Digit.{digit, is_hex, value_of};

// Whether a byte stands between two others.
fn between(b: u8, low: u8, high: u8) -> bool
    ensures { result ≡ (leb low b && leb b high) }
{
    (low <= b) & (b <= high)
}

// Whether a byte is a hex digit in either letter case.
fn is_hex(b: u8) -> bool
    ensures { result ≡ is_hex b }
{
    between(b, 48, 57) | between(b, 65, 70) | between(b, 97, 102)
}

// The value of a hex digit in either letter case: a letter's low bits count from 1 and it has the bit of
// 64. Digits and letters come at random, so no branch tells them apart: the number 16, of no digit, makes
// one test of the three ranges. With a return of None from the ranges the reader took a quarter longer.
pub fn digit_of(b: u8) -> Option<u8>
    ensures value { value_of result ≡ digit b }
    ensures small { IfSome result (λ value. value < 16) }
{
    let value = if is_hex(b) { b % 16 + 9 * (b / 64) } else { 16 };
    if value < 16 { Some(value) } else { None }
}
