// How the program is used, and its version.
use report::System;
use std::io;

// The usage.
const USAGE: &str =
    "usage: cardtool plan FIRMWARE.txt SCRIPT.bsx [--password FILE] [--entry HEX] [--size BYTES] [--force]
       cardtool check SCRIPT.bsx FIRMWARE.txt [--password FILE] [--size BYTES] [--expect HEX]
       cardtool cuts SCRIPT.bsx FIRMWARE.txt [--region FILE] [--password FILE] [--size BYTES] [--expect HEX]
       cardtool show SCRIPT.bsx
       cardtool image FIRMWARE.txt [--size BYTES]
       cardtool sums FIRMWARE.txt [--size BYTES]
       cardtool picture FIRMWARE.txt REGION.bin [--size BYTES] [--force]
       cardtool record FILE
       cardtool --help
       cardtool --version

plan     writes the script that puts the image of a firmware text into a card
check    says whether a script puts that image into every card, whatever its flash held
cuts     checks it, and says for each packet how a card comes up if the power fails there
show     lists the packets of a script
image    shows the image of a firmware text
sums     prints the checksums of its segments, the packets that ask a card for them, and the replies
picture  writes what the flash region then holds, byte for byte
record   prints a sensor record of 64 bytes

--password FILE  the loader's password, 256 bytes (without: all 0xFF)
--entry HEX      where the firmware starts (without: 201)
--size BYTES     the size of the flash region (without: 262144)
--expect HEX     the checksum that the card expects (without: the image's)
--region FILE    what the card's flash region held before (without: 0x00 throughout)
--force          replaces any regular file that stands (without: plan replaces a script, picture nothing)
--               what follows are files, whatever they begin with
An option's value may follow an equals sign: --size=4096.

Exit status: 0 pass or success, 1 refused, 2 wrong usage, or a file that cannot be read or written.
";

// Says how the program is used.
pub fn print(rt: &impl Print) -> io::Result<()> {
    rt.write_all(USAGE.as_bytes())
}

// Says the version of the program.
pub fn print_version(rt: &impl Print) -> io::Result<()> {
    rt.println("cardtool 0.4.0")
}

// Says on standard error how the program is used, where it was used wrongly.
pub fn complain(rt: &impl System) {
    rt.complain(USAGE.as_bytes());
}
