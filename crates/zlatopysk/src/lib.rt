// The public functions of documents 01 and 02, and `crc::joined`, for programs in C and Rust; bindings/c/zlatopysk.h
// declares them. Each takes what its namesake in the crates below takes, and writes its answer as numbers into memory that the
// caller lends, or answers a number alone. None asks anything of its input, and each contract fixes the answer and every lent
// byte. A slice is a pointer and a length, an array a pointer alone.
#![tactic(auto)]

mod numbers;

ghost use Rattle.std.specs.Prelude.{◌≡◌};
ghost use Rattle.crc.specs.Crc.{register_of, joined_of};
ghost use Rattle.ti_txt.specs.Answers.{read_of};
ghost use Rattle.planner.specs.Plan.{plan_of};
ghost use Rattle.delivery.specs.OneRegion.{one_of};
ghost use Rattle.card.specs.Call.{call_of};
ghost use Rattle.card.specs.Mains.{cut_of, restart_of};
ghost use Rattle.sensor_record.specs.Answers as records;
ghost use Rattle.sensor_record.specs.Power.{watts_of};
ghost use Rattle.record_layout.specs.Reading.{values_in};
ghost use Rattle.zlatopysk.specs.Lent.{left, left_both, read_left, plan_left, check_left, held_left, written_left};
ghost use Rattle.zlatopysk.specs.Lent.{card_of, call_left, cut_left, restart_left};

use application::Version;
use card::Card;
use loader::Loader;
use refusal::Refused;

// The register from a start over bytes: with the start 0xFFFF their checksum.
#[unsafe(no_mangle)]
pub extern "C" fn zlatopysk_checksum(start: u16, bytes: &[u8]) -> u16
    ensures { result ≡ register_of start bytes.now }
{
    crc::checksum(start, bytes)
}

// The checksum of joined bytes, from those of the two parts, which both started at 0xFFFF, and the number of the second's bytes.
#[unsafe(no_mangle)]
pub extern "C" fn zlatopysk_joined(first: u16, second: u16, count: u16) -> u16
    ensures { result ≡ joined_of first second count }
{
    crc::joined(first, second, count)
}

// Fills the region with the picture of the text.
#[unsafe(no_mangle)]
pub extern "C" fn zlatopysk_read(text: &[u8], size: usize, region: &mut [u8], answer: &mut [u64; 3])
    ensures { left answer.new region.new ≡ read_left (read_of text.now size region.old) }
{
    let verdict = ti_txt::read(text, size, region);
    *answer = numbers::of_read(verdict);
}

// The script of the text over the front of the output.
#[unsafe(no_mangle)]
pub extern "C" fn zlatopysk_plan(
    text: &[u8],
    password: &[u8],
    entry: u32,
    size: usize,
    out: &mut [u8],
    answer: &mut [u64; 3],
)
    ensures { left answer.new out.new
        ≡ plan_left (plan_of text.now password.now entry size out.old) }
{
    let planned = planner::plan(text, password, entry, size, out);
    *answer = numbers::of_plan(planned);
}

// Whether the script puts the text's image into every card.
#[unsafe(no_mangle)]
pub extern "C" fn zlatopysk_check(
    script: &[u8],
    text: &[u8],
    password: &[u8],
    expected: u16,
    size: usize,
    region: &mut [u8],
    known: &mut [u8],
    answer: &mut [u64; 4],
)
    ensures { left_both answer.new region.new known.new
        ≡ check_left (one_of script.now text.now password.now expected size
        region.old known.old) }
{
    let checked = checker::check(script, text, password, expected, size, region, known);
    *answer = numbers::of_check(checked);
}

// The card of a mode's number and what else is lent.
fn card_of(mode: u8, expected: u16, version: &[u8; 3], record: &[u8; 87]) -> Card
    ensures { result ≡ card_of mode expected version.now «record».now }
{
    let [xx, yy, zz] = *version;
    Card {
        loader: Loader {
            mode: numbers::mode_of(mode),
            expected,
        },
        version: Version { xx, yy, zz },
        record: record_layout::values(record),
    }
}

// One message to a card.
#[unsafe(no_mangle)]
pub extern "C" fn zlatopysk_call(
    mode: u8,
    expected: u16,
    version: &[u8; 3],
    record: &[u8; 87],
    size: usize,
    region: &mut [u8],
    password: &[u8],
    message: &[u8],
    reply: &mut [u8],
    called: &mut [u64; 4],
)
    ensures { left_both called.new region.new reply.new
        ≡ call_left (call_of (card_of mode expected version.now «record».now) size
        region.old password.now message.now reply.old) }
{
    let card = card_of(mode, expected, version, record);
    let after = card::call(card, size, region, password, message, reply);
    *called = numbers::of_call(after);
}

// A message to a card that loses its mains at a place of the message's work.
#[unsafe(no_mangle)]
pub extern "C" fn zlatopysk_cut(
    mode: u8,
    expected: u16,
    version: &[u8; 3],
    record: &[u8; 87],
    size: usize,
    region: &mut [u8],
    password: &[u8],
    message: &[u8],
    place: usize,
    answer: &mut [u64; 3],
)
    ensures { left answer.new region.new
        ≡ cut_left (cut_of (card_of mode expected version.now «record».now) size
        region.old password.now message.now place) }
{
    let card = card_of(mode, expected, version, record);
    let ended = card::cut(card, size, region, password, message, place);
    *answer = numbers::of_cut(ended);
}

// The mains come back.
#[unsafe(no_mangle)]
pub extern "C" fn zlatopysk_restart(
    mode: u8,
    expected: u16,
    version: &[u8; 3],
    record: &[u8; 87],
    size: usize,
    region: &[u8],
    restarted: &mut [u64; 2],
)
    ensures { restarted.new
        ≡ restart_left (restart_of (card_of mode expected version.now «record».now) size
        region.now) }
{
    let card = card_of(mode, expected, version, record);
    let after = card::restart(card, size, region);
    *restarted = numbers::of_restart(after);
}

// The values of a card's sensor record in 64 bytes.
#[unsafe(no_mangle)]
pub extern "C" fn zlatopysk_read_record(bytes: &[u8], record: &mut [u8; 87], answer: &mut [u64; 3])
    ensures { left answer.new «record».new
        ≡ held_left (records.read_of bytes.now) «record».old }
{
    match sensor_record::read(bytes) {
        Ok(values) => {
            *record = record_layout::bytes(values);
            *answer = [0; 3];
        }
        Err(why) => *answer = numbers::refused(Refused::from(why)),
    }
}

// The 64 bytes of a sensor record over the front of the output.
#[unsafe(no_mangle)]
pub extern "C" fn zlatopysk_write_record(record: &[u8; 87], out: &mut [u8], answer: &mut [u64; 3])
    ensures { left answer.new out.new
        ≡ written_left (records.write_of (values_in «record».now) out.old) }
{
    let values = record_layout::values(record);
    *answer = match sensor_record::write(values, out) {
        Ok(()) => [0; 3],
        Err(why) => numbers::refused(Refused::from(why)),
    };
}

// Total power in watts from the raw 12 V readings.
#[unsafe(no_mangle)]
pub extern "C" fn zlatopysk_total_power(volts: u16, amps: u16) -> u16
    ensures { result ≡ watts_of volts amps }
{
    sensor_record::total_power(volts, amps)
}
