// The card's 64-byte sensor record (source document 004), read from bytes and written to bytes under
// the rule of its values; and total power from the raw 12 V readings. A refused call changes nothing.
#![tactic(auto)]

ghost use Rattle.std.specs.Prelude.{◌≡◌};
ghost use Rattle.sensor_record.specs.Answers.{answered, read_of, outcome, write_of};
ghost use Rattle.sensor_record.specs.Power.{watts_of};

use refusal::Refusal;
use sensor_values::SensorRecord;

// The length of a record.
const LENGTH: usize = 64;

// The record in 64 bytes that keep the rule.
#[tactic(auto, unfolding(crate::specs::Answers::read_of, sensor_values::specs::Reading::sound_bytes))]
pub fn read(bytes: &[u8]) -> Result<SensorRecord, Refusal>
    ensures { answered result ≡ read_of bytes.now }
{
    if bytes.len() != LENGTH || !sensor_reader::reserved_zero(bytes) {
        return Err(Refusal::RecordUnsound);
    }
    let values = sensor_reader::values(bytes);
    if !sensor_values::sound(values) {
        return Err(Refusal::RecordUnsound);
    }
    Ok(values)
}

// The 64 bytes of a record that keeps the rule, over the front of an output. A refusal changes nothing.
#[tactic(auto, unfolding(crate::specs::Answers::write_of))]
pub fn write(values: SensorRecord, out: &mut [u8]) -> Result<(), Refusal>
    ensures { outcome result out.new ≡ write_of values out.old }
{
    if out.len() < LENGTH {
        return Err(Refusal::OutputShort);
    }
    if !sensor_values::sound(values) {
        return Err(Refusal::RecordUnsound);
    }
    little_endian::store(&sensor_writer::bytes(values), 0, out);
    Ok(())
}

// Total power in watts from the raw 12 V readings.
pub fn total_power(volts: u16, amps: u16) -> u16
    ensures { result ≡ watts_of volts amps }
{
    (volts as u64 * amps as u64 / 640000) as u16
}
