// Refusals in words.
use refusal::Refusal;
use report::Line;
use std::io;

// The cause of a refusal: the words of document 01's table.
fn cause(refusal: Refusal) -> &'static str {
    match refusal {
        Refusal::RegionSize => {
            "the size is not a multiple of 4096 from 4096 to 262144, or a region is not that long"
        }
        Refusal::PasswordLength => "the password is not 256 bytes",
        Refusal::TextMalformed => "the firmware text is malformed",
        Refusal::AddressOutside => "a data byte is outside the region",
        Refusal::AddressRepeated => "the address of a data byte was given before",
        Refusal::ScriptHead => "no script: its mark or version is wrong",
        Refusal::PacketCut => "the script ends inside a packet",
        Refusal::RefusedOverZeros => "a packet is refused over zeros",
        Refusal::PictureDiffers => {
            "the region is not the image's picture at a start, or bytes of it are unknown"
        }
        Refusal::BytesAfterStart => "bytes follow after the firmware started",
        Refusal::NotStarted => "the script ends and the firmware has not started",
        Refusal::OutputShort => "the output is too short",
        Refusal::EntryOutside => "the entry address is not below the size",
        Refusal::RequestUnknown => "the request is unknown",
        Refusal::RequestForOtherCard => "the request is for another card",
        Refusal::RecordUnsound => "the record breaks its rule, or is not 64 bytes",
        Refusal::TooLong => "text or script is too long",
        Refusal::CutBeyondWork => "the place of a cut is beyond the packet's work",
    }
}

// Says that something is refused: the number, and the cause in words.
pub fn refused(rt: &impl Print, refusal: Refusal) -> io::Result<()> {
    Line::new()
        .text("refused ")
        .decimal(usize::from(u8::from(refusal)))
        .text(": ")
        .text(cause(refusal))
        .print(rt)
}

// A line that begins with a place, in decimal and hex.
pub fn place(at: usize) -> Line {
    Line::new()
        .text("place ")
        .decimal(at)
        .text(" (")
        .hex(at)
        .text(")")
}
