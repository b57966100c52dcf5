// The rule of a record, part by part.
ghost use Rattle.std.specs.Prelude.{◌≡◌, ◌^◌, ltb};
ghost use Rattle.sensor_values.specs.Rule.{fitting, status_fits, security_fits, device_fits, module_fits, fields};
ghost use Rattle.sensor_values.specs.Rule.{zeros, status_unused, sensors_unused, devices_unused, module_unused, unused};

use crate::{
    BitField, BoardSensors, BoardStatus, Device, NetworkModule, SecurityStatus, SensorRecord,
};

// Whether a value fits its bits.
fn fits(f: BitField) -> bool
    ensures { result ≡ ltb f.value (2 ^ f.width) }
{
    (f.value as u16) < 2u16.saturating_pow(f.width)
}

// Whether each value fits its bits.
fn fitting(bits: &[BitField]) -> bool
    ensures { result ≡ fitting bits.now }
{
    bits.iter().all(|f| fits(*f))
}

// Whether each number is 0.
fn zeros(numbers: &[u8]) -> bool
    ensures { result ≡ zeros numbers.now }
{
    numbers.iter().all(|n| *n == 0)
}

#[tactic(auto, unfolding(crate::specs::Rule::status_fits))]
fn status_fits(s: BoardStatus) -> bool
    ensures { result ≡ status_fits s }
{
    fitting(&s.bits())
}

// A flash mode of 3 fits its bits and is not valid.
#[tactic(auto, unfolding(crate::specs::Rule::security_fits))]
fn security_fits(s: SecurityStatus) -> bool
    ensures { result ≡ security_fits s }
{
    fitting(&s.bits()) && s.flash1.mode != 3 && s.flash2.mode != 3
}

#[tactic(auto, unfolding(crate::specs::Rule::device_fits, crate::specs::Rule::errors_fit))]
fn device_fits(d: Device) -> bool
    ensures { result ≡ device_fits d }
{
    fitting(&d.status.bits())
}

#[tactic(auto, unfolding(crate::specs::Rule::module_fits))]
fn module_fits(m: NetworkModule) -> bool
    ensures { result ≡ module_fits m }
{
    fitting(&m.status.bits())
}

// Whether each value fits its bits, and no flash mode is 3. Numbers of 16 and 32 bits and
// temperatures always fit.
#[tactic(auto, unfolding(crate::specs::Rule::fields, crate::specs::Rule::sensors_fit, crate::specs::Rule::input_fits))]
pub fn fields(values: SensorRecord) -> bool
    ensures { result ≡ fields values }
{
    status_fits(values.status)
        && security_fits(values.security)
        && device_fits(values.device1)
        && device_fits(values.device2)
        && module_fits(values.module0)
        && module_fits(values.module1)
}

#[tactic(auto, unfolding(crate::specs::Rule::status_unused))]
fn status_unused(s: BoardStatus) -> bool
    ensures { result ≡ status_unused s }
{
    zeros(&[
        s.twarn,
        s.hbm_cattrip,
        s.module0_present,
        s.module1_present,
        s.aux_cable,
    ])
}

#[tactic(auto, unfolding(crate::specs::Rule::sensors_unused))]
fn sensors_unused(s: BoardSensors) -> bool
    ensures { result ≡ sensors_unused s }
{
    [
        s.input_3v3.current,
        s.input_3v3.voltage,
        s.input_aux.current,
        s.input_aux.voltage,
    ] == [0; 4]
}

// Device 2 may set the two bits that device 1 leaves 0.
fn devices_unused(one: Device, two: Device) -> bool
    ensures { result ≡ devices_unused one two }
{
    let errors = zeros(&[one.status.error_status, one.status.error_out]);
    errors & (one.hbm_temperature == 0) & (two.hbm_temperature == 0)
}

fn module_unused(m: NetworkModule) -> bool
    ensures { result ≡ module_unused m }
{
    let status = zeros(&[
        m.status.present,
        m.status.interrupt,
        m.status.low_power,
        m.status.rate_select,
        m.status.rx_loss,
        m.status.tx_disable,
        m.status.tx_fault,
        m.status.power_enable,
        m.status.over_current,
    ]);
    (m.temperature == 0) & status
}

// Whether everything is 0 that the U30 leaves 0.
#[tactic(auto, unfolding(crate::specs::Rule::unused))]
pub fn unused(values: SensorRecord) -> bool
    ensures { result ≡ unused values }
{
    status_unused(values.status)
        && sensors_unused(values.sensors)
        && devices_unused(values.device1, values.device2)
        && module_unused(values.module0)
        && module_unused(values.module1)
}
