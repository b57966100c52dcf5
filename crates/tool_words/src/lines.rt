// Lines that say one value.
use report::Line;
use std::convert::AsSlice;
use std::io;

// Prints a number behind its name.
pub fn number<W: AsSlice<u8> + Drop>(rt: &impl Print, name: W, n: usize) -> io::Result<()> {
    Line::new().text(name).decimal(n).print(rt)
}

// Prints a number of bytes behind what they are.
pub fn bytes<W: AsSlice<u8> + Drop>(rt: &impl Print, what: W, n: usize) -> io::Result<()> {
    Line::new().text(what).count(n, "byte").print(rt)
}

// Prints a checksum behind its name.
pub fn checksum<W: AsSlice<u8> + Drop>(rt: &impl Print, name: W, sum: u16) -> io::Result<()> {
    Line::new().text(name).checksum(sum).print(rt)
}
