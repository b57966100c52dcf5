// The parts of values, each stored at its place of 87 bytes.
ghost use Rattle.std.specs.Prelude.{◌≡◌, ◌+◌, ◌≤◌, length};
ghost use Rattle.little_endian.specs.Bytes.{stored_at};
ghost use Rattle.record_layout.specs.Layout.{status_values, security_values, device_values, module_values};

use sensor_values::{BoardStatus, Device, NetworkModule, SecurityStatus};

#[tactic(auto, unfolding(crate::specs::Layout::status_values))]
pub fn status(s: BoardStatus, out: &mut [u8])
    ensures { out.new ≡ stored_at 0 (status_values s) out.old }
{
    let new = [
        s.tcrit,
        s.power_good,
        s.twarn,
        s.hbm_cattrip,
        s.module0_present,
        s.module1_present,
        s.aux_cable,
        s.flash_writes,
    ];
    little_endian::store(&new, 0, out);
}

#[tactic(auto, unfolding(crate::specs::Layout::security_values))]
pub fn security(s: SecurityStatus, out: &mut [u8])
    ensures { out.new ≡ stored_at 8 (security_values s) out.old }
{
    let new = [
        s.spi_device,
        s.flash1.recovery,
        s.flash1.mode,
        s.flash1.write_enable,
        s.flash2.recovery,
        s.flash2.mode,
        s.flash2.write_enable,
        s.authentication,
        s.jtag,
    ];
    little_endian::store(&new, 8, out);
}

pub fn device(d: Device, at: usize, out: &mut [u8])
    requires { at + 17 ≤ length out.old }
    ensures { out.new ≡ stored_at at (device_values d) out.old }
{
    let front = [
        d.status.done,
        d.status.init_b,
        d.status.error_out,
        d.status.error_status,
        d.status.keep_alive,
        temperature::to_byte(d.fpga_temperature),
        temperature::to_byte(d.hbm_temperature),
    ];
    little_endian::store(&front, at, out);
    little_endian::store(&sensor_writer::error_bytes(d.errors), at + 7, out);
}

#[tactic(auto, unfolding(crate::specs::Layout::module_values))]
pub fn module(m: NetworkModule, at: usize, out: &mut [u8])
    ensures { out.new ≡ stored_at at (module_values m) out.old }
{
    let new = [
        temperature::to_byte(m.temperature),
        m.status.present,
        m.status.interrupt,
        m.status.low_power,
        m.status.rate_select,
        m.status.rx_loss,
        m.status.tx_disable,
        m.status.tx_fault,
        m.status.power_enable,
        m.status.over_current,
    ];
    little_endian::store(&new, at, out);
}
