// The parts of the values in 87 bytes. A part that stands at several places asks that its bytes are inside, since it
// takes them by index.
ghost use Rattle.std.specs.Prelude.{◌≡◌, ◌+◌, ◌≤◌};
ghost use Rattle.record_layout.specs.Reading.{status_in, flash_in, security_in, sensors_in};
ghost use Rattle.record_layout.specs.Reading.{device_status_in, device_in, module_status_in, module_in};

use little_endian::Number;
use sensor_values::{
    BoardSensors, BoardStatus, Device, DeviceStatus, FlashControl, ModuleStatus, NetworkModule,
    SecurityStatus,
};

#[tactic(auto, unfolding(crate::specs::Reading::status_in))]
pub fn status(bytes: &[u8; 87]) -> BoardStatus
    ensures { result ≡ status_in bytes.now }
{
    BoardStatus {
        tcrit: bytes[0],
        power_good: bytes[1],
        twarn: bytes[2],
        hbm_cattrip: bytes[3],
        module0_present: bytes[4],
        module1_present: bytes[5],
        aux_cable: bytes[6],
        flash_writes: bytes[7],
    }
}

// The control of a flash at a place.
fn flash(bytes: &[u8; 87], at: usize) -> FlashControl
    requires { at + 3 ≤ 87 }
    ensures { result ≡ flash_in at bytes.now }
{
    FlashControl {
        recovery: bytes[at],
        mode: bytes[at + 1],
        write_enable: bytes[at + 2],
    }
}

#[tactic(auto, unfolding(crate::specs::Reading::security_in))]
pub fn security(bytes: &[u8; 87]) -> SecurityStatus
    ensures { result ≡ security_in bytes.now }
{
    SecurityStatus {
        spi_device: bytes[8],
        flash1: flash(bytes, 9),
        flash2: flash(bytes, 12),
        authentication: bytes[15],
        jtag: bytes[16],
    }
}

#[tactic(auto, unfolding(crate::specs::Reading::sensors_in))]
pub fn sensors(bytes: &[u8; 87]) -> BoardSensors
    ensures { result ≡ sensors_in bytes.now }
{
    BoardSensors {
        inlet: temperature::from_byte(bytes[17]),
        outlet: temperature::from_byte(bytes[18]),
        input_3v3: sensor_reader::input(bytes, 19),
        input_12v: sensor_reader::input(bytes, 23),
        input_aux: sensor_reader::input(bytes, 27),
        total_power: u16::number_at(bytes, 31),
    }
}

fn device_status(bytes: &[u8; 87], at: usize) -> DeviceStatus
    requires { at + 5 ≤ 87 }
    ensures { result ≡ device_status_in at bytes.now }
{
    DeviceStatus {
        done: bytes[at],
        init_b: bytes[at + 1],
        error_out: bytes[at + 2],
        error_status: bytes[at + 3],
        keep_alive: bytes[at + 4],
    }
}

#[tactic(auto, unfolding(crate::specs::Reading::device_in))]
pub fn device(bytes: &[u8; 87], at: u8) -> Device
    requires { at + 17 ≤ 87 }
    ensures { result ≡ device_in at bytes.now }
{
    let place = usize::from(at);
    Device {
        status: device_status(bytes, place),
        fpga_temperature: temperature::from_byte(bytes[place + 5]),
        hbm_temperature: temperature::from_byte(bytes[place + 6]),
        errors: sensor_reader::errors(bytes, at + 7),
    }
}

fn module_status(bytes: &[u8; 87], at: usize) -> ModuleStatus
    requires { at + 9 ≤ 87 }
    ensures { result ≡ module_status_in at bytes.now }
{
    ModuleStatus {
        present: bytes[at],
        interrupt: bytes[at + 1],
        low_power: bytes[at + 2],
        rate_select: bytes[at + 3],
        rx_loss: bytes[at + 4],
        tx_disable: bytes[at + 5],
        tx_fault: bytes[at + 6],
        power_enable: bytes[at + 7],
        over_current: bytes[at + 8],
    }
}

#[tactic(auto, unfolding(crate::specs::Reading::module_in))]
pub fn module(bytes: &[u8; 87], at: usize) -> NetworkModule
    requires { at + 10 ≤ 87 }
    ensures { result ≡ module_in at bytes.now }
{
    NetworkModule {
        temperature: temperature::from_byte(bytes[at]),
        status: module_status(bytes, at + 1),
    }
}
