// The values in the 64 bytes of a sensor record, part by part, by the offsets and bits of source
// document 004; and whether its reserved bits are 0. The rule of the values is not judged here.
#![tactic(auto)]

ghost use Rattle.std.specs.Prelude.{◌≡◌, ◌+◌, ◌≤◌, ◌<◌};
ghost use Rattle.sensor_values.specs.Reading.{◌bits◌to◌, status_of, flash_of, security_of, device_status_of, module_status_of};
ghost use Rattle.sensor_values.specs.Reading.{input_of, sensors_of, errors_of, device_of, module_of, record_of, reserved_zero};

use little_endian::Number;
use sensor_values::{
    BoardSensors, BoardStatus, Device, DeviceStatus, ErrorCounters, FlashControl, InputSensor,
    ModuleStatus, NetworkModule, SecurityStatus, SensorRecord,
};

// Some bits of a number, eight at most, named as the papers do: the highest, then the lowest.
fn bits(n: u32, high: u32, low: u32) -> u8
    requires ordered { low ≤ high }
    requires byte { high < low + 8 }
    requires inside { high < 32 }
    ensures { result ≡ n bits high to low }
{
    ((n >> low) % 2u32.pow(high - low + 1)) as u8
}

#[tactic(auto, unfolding(sensor_values::specs::Reading::status_of))]
fn status(n: u32) -> BoardStatus
    ensures { result ≡ status_of n }
{
    BoardStatus {
        tcrit: bits(n, 3, 0),
        power_good: bits(n, 7, 4),
        twarn: bits(n, 11, 8),
        hbm_cattrip: bits(n, 15, 12),
        module0_present: bits(n, 16, 16),
        module1_present: bits(n, 17, 17),
        aux_cable: bits(n, 18, 18),
        flash_writes: bits(n, 26, 19),
    }
}

// The control of a flash, whose four bits begin at a place.
fn flash(n: u32, low: u32) -> FlashControl
    requires { low + 4 ≤ 32 }
    ensures { result ≡ flash_of low n }
{
    FlashControl {
        recovery: bits(n, low, low),
        mode: bits(n, low + 2, low + 1),
        write_enable: bits(n, low + 3, low + 3),
    }
}

#[tactic(auto, unfolding(sensor_values::specs::Reading::security_of))]
fn security(n: u32) -> SecurityStatus
    ensures { result ≡ security_of n }
{
    SecurityStatus {
        spi_device: bits(n, 0, 0),
        flash1: flash(n, 1),
        flash2: flash(n, 6),
        authentication: bits(n, 14, 11),
        jtag: bits(n, 15, 15),
    }
}

#[tactic(auto, unfolding(sensor_values::specs::Reading::device_status_of))]
fn device_status(n: u8) -> DeviceStatus
    ensures { result ≡ device_status_of n }
{
    let n = u32::from(n);
    DeviceStatus {
        done: bits(n, 0, 0),
        init_b: bits(n, 1, 1),
        error_out: bits(n, 2, 2),
        error_status: bits(n, 3, 3),
        keep_alive: bits(n, 7, 4),
    }
}

#[tactic(auto, unfolding(sensor_values::specs::Reading::module_status_of))]
fn module_status(n: u16) -> ModuleStatus
    ensures { result ≡ module_status_of n }
{
    let n = u32::from(n);
    ModuleStatus {
        present: bits(n, 0, 0),
        interrupt: bits(n, 1, 1),
        low_power: bits(n, 2, 2),
        rate_select: bits(n, 6, 3),
        rx_loss: bits(n, 8, 7),
        tx_disable: bits(n, 10, 9),
        tx_fault: bits(n, 12, 11),
        power_enable: bits(n, 13, 13),
        over_current: bits(n, 14, 14),
    }
}

// The input sensor at a place, for every layout of the values in which its 4 bytes stand so. The place is
// a `u8`, so that no sum wraps and nothing is asked of callers.
#[tactic(auto, unfolding(sensor_values::specs::Reading::input_of))]
pub fn input(bytes: &[u8], at: u8) -> InputSensor
    ensures { result ≡ input_of at bytes.now }
{
    let at = usize::from(at);
    InputSensor {
        current: u16::number_at(bytes, at),
        voltage: u16::number_at(bytes, at + 2),
    }
}

#[tactic(auto, unfolding(sensor_values::specs::Reading::sensors_of))]
fn sensors(bytes: &[u8]) -> BoardSensors
    ensures { result ≡ sensors_of bytes.now }
{
    BoardSensors {
        inlet: temperature::from_byte(little_endian::byte_at(bytes, 8)),
        outlet: temperature::from_byte(little_endian::byte_at(bytes, 9)),
        input_3v3: input(bytes, 10),
        input_12v: input(bytes, 14),
        input_aux: input(bytes, 18),
        total_power: u16::number_at(bytes, 22),
    }
}

// A device's error counters at a place, in the same way.
#[tactic(auto, unfolding(sensor_values::specs::Reading::errors_of))]
pub fn errors(bytes: &[u8], at: u8) -> ErrorCounters
    ensures { result ≡ errors_of at bytes.now }
{
    let at = usize::from(at);
    ErrorCounters {
        ddr_uncorrectable: u16::number_at(bytes, at),
        ddr_correctable: u16::number_at(bytes, at + 2),
        pcie_uncorrectable: u16::number_at(bytes, at + 4),
        pcie_correctable: u32::number_at(bytes, at + 6),
    }
}

// `requires`: of the two places that it is called with, so that the sum is a `u8`.
#[tactic(auto, unfolding(sensor_values::specs::Reading::device_of))]
fn device(bytes: &[u8], at: u8) -> Device
    requires { at + 13 ≤ 64 }
    ensures { result ≡ device_of at bytes.now }
{
    let place = usize::from(at);
    Device {
        status: device_status(little_endian::byte_at(bytes, place)),
        fpga_temperature: temperature::from_byte(little_endian::byte_at(bytes, place + 1)),
        hbm_temperature: temperature::from_byte(little_endian::byte_at(bytes, place + 2)),
        errors: errors(bytes, at + 3),
    }
}

#[tactic(auto, unfolding(sensor_values::specs::Reading::module_of))]
fn module(bytes: &[u8], at: u8) -> NetworkModule
    ensures { result ≡ module_of at bytes.now }
{
    let at = usize::from(at);
    NetworkModule {
        temperature: temperature::from_byte(little_endian::byte_at(bytes, at)),
        status: module_status(u16::number_at(bytes, at + 1)),
    }
}

// The values in 64 bytes; a byte past the end counts as 0.
#[tactic(auto, unfolding(sensor_values::specs::Reading::record_of))]
pub fn values(bytes: &[u8]) -> SensorRecord
    ensures { result ≡ record_of bytes.now }
{
    SensorRecord {
        status: status(u32::number_at(bytes, 0)),
        security: security(u32::number_at(bytes, 4)),
        sensors: sensors(bytes),
        device1: device(bytes, 24),
        device2: device(bytes, 37),
        module0: module(bytes, 50),
        module1: module(bytes, 53),
    }
}

// Whether every reserved bit is 0.
#[tactic(auto, unfolding(sensor_values::specs::Reading::reserved_zero))]
pub fn reserved_zero(bytes: &[u8]) -> bool
    ensures { result ≡ reserved_zero bytes.now }
{
    let status = u32::number_at(bytes, 0);
    let security = u32::number_at(bytes, 4);
    let lower = u32::from(u16::number_at(bytes, 51));
    let upper = u32::from(u16::number_at(bytes, 54));
    bits(status, 31, 27) == 0
        && bits(security, 5, 5) == 0
        && bits(security, 10, 10) == 0
        && security >> 16 == 0
        && bits(lower, 15, 15) == 0
        && bits(upper, 15, 15) == 0
        && u32::number_at(bytes, 56) == 0
        && u32::number_at(bytes, 60) == 0
}
