// The values of a sensor record as 87 bytes, the form in which programs in C and Rust lend them: every value in the
// order of the structs, in its own number of bytes, low byte first, a temperature as its two's complement byte. Any
// 87 bytes are values and any values are such bytes; the rule of a record is not judged here.
#![tactic(auto)]

mod put;
mod take;

ghost use Rattle.std.specs.Prelude.{◌≡◌};
ghost use Rattle.record_layout.specs.Layout.{value_bytes};
ghost use Rattle.record_layout.specs.Reading.{values_in};

use sensor_values::SensorRecord;

// The values in 87 bytes.
#[tactic(auto, unfolding(crate::specs::Reading::values_in))]
pub fn values(bytes: &[u8; 87]) -> SensorRecord
    ensures { result ≡ values_in bytes.now }
{
    SensorRecord {
        status: take::status(bytes),
        security: take::security(bytes),
        sensors: take::sensors(bytes),
        device1: take::device(bytes, 33),
        device2: take::device(bytes, 50),
        module0: take::module(bytes, 67),
        module1: take::module(bytes, 77),
    }
}

// The 87 bytes of values, from which they are read back.
pub fn bytes(values: SensorRecord) -> [u8; 87]
    ensures bytes { result ≡ value_bytes values }
    ensures again { values_in result ≡ values }
{
    let mut out = [0u8; 87];
    put::status(values.status, &mut out);
    put::security(values.security, &mut out);
    little_endian::store(&sensor_writer::sensor_bytes(values.sensors), 17, &mut out);
    put::device(values.device1, 33, &mut out);
    put::device(values.device2, 50, &mut out);
    put::module(values.module0, 67, &mut out);
    put::module(values.module1, 77, &mut out);
    out
}
