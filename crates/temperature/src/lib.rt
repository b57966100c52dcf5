// Temperatures: whole degrees from -128 to 127, which cross the bus as one byte, two's complement.
// A byte is never used as a temperature, nor a temperature as a byte, but through these functions.
#![tactic(auto)]

ghost use Rattle.std.specs.Prelude.{◌≡◌};
ghost use Rattle.temperature.specs.Temperature.{temperature_of, byte_of, greater_of};

// The temperature that a byte carries.
pub fn from_byte(b: u8) -> i8
    ensures { result ≡ temperature_of b }
{
    b.cast_signed()
}

// The byte that carries a temperature.
pub fn to_byte(t: i8) -> u8
    ensures { result ≡ byte_of t }
{
    t.cast_unsigned()
}

// The byte of the greater of two temperatures. They are compared as temperatures and not as bytes,
// of which a cold one's is the greater.
pub fn greater_byte(a: i8, b: i8) -> u8
    ensures { result ≡ byte_of (greater_of a b) }
{
    to_byte(a.max(b))
}
