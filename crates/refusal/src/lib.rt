// The refusals: those of document 01, one case for each row of its table but number 9, which is out of it
// and stays unused (T-08), and in the table's order, which is the order in which they are judged; then those
// of document 02, which says where each is judged. Every answer that refuses names one of these.
#![tactic(auto)]

#[derive(Clone, Copy, PartialEq, Eq, Debug)]
pub enum Refusal {
    // N is bad, or a region is not N long, or its known bits are not N/8.
    RegionSize,
    // The password is not 256 bytes.
    PasswordLength,
    // The planner's entry address is not below N.
    EntryOutside,
    // The text is above 1,048,576 or the script above 2,097,152 bytes.
    TooLong,
    // The text is malformed.
    TextMalformed,
    // A data byte is at address N or above.
    AddressOutside,
    // A data byte's address was given before.
    AddressRepeated,
    // The output or the reply buffer is too short.
    OutputShort,
    // The script's mark or version is wrong.
    ScriptHead,
    // The script ends inside a packet.
    PacketCut,
    // The region is not the picture at a start, or a byte of it is unknown.
    PictureDiffers,
    // A packet is refused over zeros.
    RefusedOverZeros,
    // Bytes follow after the firmware started.
    BytesAfterStart,
    // The script ends and the firmware has not started.
    NotStarted,
    // In application mode a request is empty, unknown or of wrong length.
    RequestUnknown,
    // The request is 0x01 or 0x06, which other cards answer.
    RequestForOtherCard,
    // The sensor record breaks its rule, or is not 64 bytes to read.
    RecordUnsound,
    // The place of a cut is beyond the packet's work: document 02's T-07, judged right after 2.
    CutBeyondWork,
}

// A refusal, and the place at which it is given: 0 where none is named, as the answers have it that the papers define; an
// Option would be undone by each of them.
#[derive(Clone, Copy, PartialEq, Eq, Debug)]
pub struct Refused {
    pub refusal: Refusal,
    pub place: usize,
}

// The papers' number of a refusal.
impl From<Refusal> for u8 {
    ghost use Rattle.std.specs.Prelude.{◌≡◌};
    ghost use Rattle.refusal.specs.Refusal.{number_of};

    ghost from_gives = { λ refusal number. number ≡ number_of refusal };

    fn from(refusal: Refusal) -> u8 {
        match refusal {
            Refusal::RegionSize => 1,
            Refusal::PasswordLength => 2,
            Refusal::EntryOutside => 14,
            Refusal::TooLong => 18,
            Refusal::TextMalformed => 3,
            Refusal::AddressOutside => 4,
            Refusal::AddressRepeated => 5,
            Refusal::OutputShort => 13,
            Refusal::ScriptHead => 6,
            Refusal::PacketCut => 7,
            Refusal::PictureDiffers => 10,
            Refusal::RefusedOverZeros => 8,
            Refusal::BytesAfterStart => 11,
            Refusal::NotStarted => 12,
            Refusal::RequestUnknown => 15,
            Refusal::RequestForOtherCard => 16,
            Refusal::RecordUnsound => 17,
            Refusal::CutBeyondWork => 21,
        }
    }
}

// A refusal for which no place is named.
impl From<Refusal> for Refused {
    ghost use Rattle.std.specs.Prelude.{◌≡◌};
    ghost use Rattle.refusal.specs.Refusal.{at_no_place};

    ghost from_gives = { λ refusal refused. refused ≡ at_no_place refusal };

    fn from(refusal: Refusal) -> Refused {
        Refused { refusal, place: 0 }
    }
}
