// The 64 bytes of a sensor record's values, part by part. The rule of the values is not judged here.
#![tactic(auto)]

ghost use Rattle.std.specs.Prelude.{◌≡◌, ◌+◌, ◌≤◌, ◌<◌, ◌^◌, length};
ghost use Rattle.little_endian.specs.Bytes.{stored_at};
ghost use Rattle.sensor_values.specs.Layout.{packed, input_bytes};
ghost use Rattle.sensor_values.specs.Layout.{sensor_bytes, error_bytes, device_bytes, module_bytes, bytes_of};

use little_endian::Number;
use sensor_values::{
    BitField, BoardSensors, Device, ErrorCounters, InputSensor, NetworkModule, SensorRecord,
};

// Bit fields in one number, the first lowest: the number of the fields above is shifted past each, from the highest down.
fn packed(fields: &[BitField]) -> u32
    requires { packed fields.now < 2 ^ 32 }
    ensures { result ≡ packed fields.now }
{
    let mut number = 0u32;
    for i in 0..fields.len() {
        let field = fields[fields.len() - 1 - i];
        number = u32::from(field.value) + number.unbounded_shl(field.width);
    }
    number
}

// The 4 bytes of an input sensor.
#[tactic(auto, unfolding(sensor_values::specs::Layout::input_bytes))]
fn input_bytes(i: InputSensor) -> [u8; 4]
    ensures { result ≡ input_bytes i }
{
    let [current_low, current_high] = i.current.to_le_bytes();
    let [voltage_low, voltage_high] = i.voltage.to_le_bytes();
    [current_low, current_high, voltage_low, voltage_high]
}

// The 16 bytes of the board's sensors, by value: every layout of the values in which they stand so stores
// them at its own place.
pub fn sensor_bytes(s: BoardSensors) -> [u8; 16]
    ensures { result ≡ sensor_bytes s }
{
    let mut out = [0u8; 16];
    let temperatures = [
        temperature::to_byte(s.inlet),
        temperature::to_byte(s.outlet),
    ];
    little_endian::store(&temperatures, 0, &mut out);
    little_endian::store(&input_bytes(s.input_3v3), 2, &mut out);
    little_endian::store(&input_bytes(s.input_12v), 6, &mut out);
    little_endian::store(&input_bytes(s.input_aux), 10, &mut out);
    s.total_power.store_at(14, &mut out);
    out
}

// The 10 bytes of a device's error counters, by value for the same reason.
#[tactic(auto, unfolding(sensor_values::specs::Layout::error_bytes, little_endian::specs::Bytes::stored_at))]
pub fn error_bytes(e: ErrorCounters) -> [u8; 10]
    ensures { result ≡ error_bytes e }
{
    let mut out = [0u8; 10];
    e.ddr_uncorrectable.store_at(0, &mut out);
    e.ddr_correctable.store_at(2, &mut out);
    e.pcie_uncorrectable.store_at(4, &mut out);
    e.pcie_correctable.store_at(6, &mut out);
    out
}

// A device and a module ask for their room, since a part that does not fit whole is not stored.
fn device(d: Device, at: usize, out: &mut [u8])
    requires { at + 13 ≤ length out.old }
    ensures { out.new ≡ stored_at at (device_bytes d) out.old }
{
    // The low byte: a value too big for its bits may set more.
    let front = [
        (packed(&d.status.bits()) % 256) as u8,
        temperature::to_byte(d.fpga_temperature),
        temperature::to_byte(d.hbm_temperature),
    ];
    little_endian::store(&front, at, out);
    little_endian::store(&error_bytes(d.errors), at + 3, out);
}

fn module(m: NetworkModule, at: usize, out: &mut [u8])
    requires { at + 3 ≤ length out.old }
    ensures { out.new ≡ stored_at at (module_bytes m) out.old }
{
    little_endian::store(&[temperature::to_byte(m.temperature)], at, out);
    // The two low bytes, for the same reason as a device's one.
    let status = (packed(&m.status.bits()) % 65536) as u16;
    status.store_at(at + 1, out);
}

// The 64 bytes of a record. The last 8 are reserved, and stay 0.
pub fn bytes(values: SensorRecord) -> [u8; 64]
    ensures { result ≡ bytes_of values }
{
    let mut out = [0u8; 64];
    packed(&values.status.bits()).store_at(0, &mut out);
    packed(&values.security.bits()).store_at(4, &mut out);
    little_endian::store(&sensor_bytes(values.sensors), 8, &mut out);
    device(values.device1, 24, &mut out);
    device(values.device2, 37, &mut out);
    module(values.module0, 50, &mut out);
    module(values.module1, 53, &mut out);
    out
}
