// Application mode: the standard commands of source documents 001 and 004, answered from the version
// and the sensor record in the card's state. A message is decoded to a request first; then the request
// is answered, its reply over the front of a lent buffer, which stays as it was where it is too short.
#![tactic(auto)]

ghost use Rattle.std.specs.Prelude.{◌≡◌, Ok};
ghost use Rattle.application.specs.Request.{request_of, reads_record};
ghost use Rattle.application.specs.Response.{told, left, left_by, replied, reset_reply, reply_of, answer_of};

use refusal::Refusal;
use sensor_values::SensorRecord;
use temperature::greater_byte;

// The version xx.yy.zz of the firmware.
#[derive(Clone, Copy)]
pub struct Version {
    pub xx: u8,
    pub yy: u8,
    pub zz: u8,
}

// What a message asks for, by source documents 001 and 004.
#[derive(Clone, Copy)]
pub enum Request {
    // 0x02: the maximum board temperature.
    BoardTemperature,
    // 0x03: the board's power consumption.
    Power,
    // 0x04: the version of the firmware.
    FirmwareVersion,
    // 0x05: the maximum FPGA die temperature.
    FpgaTemperature,
    // 0x0F: reset the FPGA, with the kind of reset.
    Reset(u8),
    // 0x20: the sensor record.
    Sensors,
    // 0x31: whether firmware or loader runs.
    Status,
    // 0x32: enter the loader.
    EnterLoader,
    // 0x01 and 0x06, which other cards answer.
    OtherCard,
    // Empty, of another code, or of wrong length.
    Unknown,
}

// How a request that is not refused is answered.
#[derive(Clone, Copy)]
pub enum Response {
    // With so many bytes; the state stays.
    Replied(usize),
    // With no byte; the mode becomes locked.
    Locks,
}

// The request of a message: a bare code, or 0x0F and one byte more.
#[tactic(auto, unfolding(crate::specs::Request::request_of, crate::specs::Request::bare_of))]
pub fn request_of(message: &[u8]) -> Request
    ensures { result ≡ request_of message.now }
{
    match message {
        [0x01 | 0x06] => Request::OtherCard,
        [0x02] => Request::BoardTemperature,
        [0x03] => Request::Power,
        [0x04] => Request::FirmwareVersion,
        [0x05] => Request::FpgaTemperature,
        [0x0F, kind] => Request::Reset(*kind),
        [0x20] => Request::Sensors,
        [0x31] => Request::Status,
        [0x32] => Request::EnterLoader,
        _ => Request::Unknown,
    }
}

// Whether a request is answered from the sensor record.
fn reads_record(request: Request) -> bool
    ensures { result ≡ reads_record request }
{
    matches!(
        request,
        Request::BoardTemperature | Request::Power | Request::FpgaTemperature | Request::Sensors
    )
}

// A reply of these bytes, put over the front of a buffer.
fn put(new: &[u8], out: &mut [u8]) -> Response
    ensures { left (told (Ok result)) out.new ≡ left_by (replied new.now) out.old }
{
    little_endian::store(new, 0, out);
    Response::Replied(new.len())
}

// The answer to 0x0F: only the kinds 1, cold, and 2, warm, are known.
fn reset_reply(kind: u8) -> u8
    ensures { result ≡ reset_reply kind }
{
    if matches!(kind, 1 | 2) { 0x01 } else { 0x02 }
}

// The answer to a request, the record's rule not judged.
#[tactic(auto, unfolding(crate::specs::Response::reply_of))]
fn reply_to(
    version: Version,
    values: SensorRecord,
    request: Request,
    out: &mut [u8],
) -> Result<Response, Refusal>
    ensures { left (told result) out.new ≡ left_by (reply_of version values request) out.old }
{
    let board = values.sensors;
    let one = values.device1;
    let two = values.device2;
    match request {
        Request::BoardTemperature => Ok(put(&[greater_byte(board.inlet, board.outlet)], out)),
        Request::Power => Ok(put(&board.total_power.to_le_bytes(), out)),
        Request::FirmwareVersion => Ok(put(&[0, version.zz, version.yy, version.xx], out)),
        Request::FpgaTemperature => {
            let greater = greater_byte(one.fpga_temperature, two.fpga_temperature);
            Ok(put(&[greater], out))
        }
        Request::Reset(kind) => Ok(put(&[reset_reply(kind)], out)),
        Request::Sensors => Ok(put(&sensor_writer::bytes(values), out)),
        Request::Status => Ok(put(&[0x02], out)),
        Request::EnterLoader => Ok(Response::Locks),
        Request::OtherCard => Err(Refusal::RequestForOtherCard),
        Request::Unknown => Err(Refusal::RequestUnknown),
    }
}

// The answer to a message in application mode, its reply over the front of a buffer that has the room.
#[tactic(auto, unfolding(crate::specs::Response::answer_of))]
pub fn respond(
    version: Version,
    values: SensorRecord,
    message: &[u8],
    out: &mut [u8],
) -> Result<Response, Refusal>
    ensures { left (told result) out.new ≡ left_by (answer_of version values message.now) out.old }
{
    let request = request_of(message);
    if reads_record(request) && !sensor_values::sound(values) {
        return Err(Refusal::RecordUnsound);
    }
    reply_to(version, values, request, out)
}
