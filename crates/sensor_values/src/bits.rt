// The bit fields of each status word, from bit 0 up, reserved bits too: the rule and the writer go over the same lists.
ghost use Rattle.std.specs.Prelude.{◌≡◌};
ghost use Rattle.sensor_values.specs.Layout.{◌wide◌, status_bits, security_bits, device_status_bits, module_status_bits};

use crate::{BitField, BoardStatus, DeviceStatus, ModuleStatus, SecurityStatus};

fn wide(width: u32, value: u8) -> BitField
    ensures { result ≡ width wide value }
{
    BitField { width, value }
}

impl BoardStatus {
    // Bits 31 to 27 are reserved.
    pub fn bits(self) -> [BitField; 9]
        ensures { result ≡ status_bits self }
    {
        [
            wide(4, self.tcrit),
            wide(4, self.power_good),
            wide(4, self.twarn),
            wide(4, self.hbm_cattrip),
            wide(1, self.module0_present),
            wide(1, self.module1_present),
            wide(1, self.aux_cable),
            wide(8, self.flash_writes),
            wide(5, 0),
        ]
    }
}

impl SecurityStatus {
    // Bits 5, 10 and 31 to 16 are reserved.
    pub fn bits(self) -> [BitField; 12]
        ensures { result ≡ security_bits self }
    {
        [
            wide(1, self.spi_device),
            wide(1, self.flash1.recovery),
            wide(2, self.flash1.mode),
            wide(1, self.flash1.write_enable),
            wide(1, 0),
            wide(1, self.flash2.recovery),
            wide(2, self.flash2.mode),
            wide(1, self.flash2.write_enable),
            wide(1, 0),
            wide(4, self.authentication),
            wide(1, self.jtag),
            wide(16, 0),
        ]
    }
}

impl DeviceStatus {
    pub fn bits(self) -> [BitField; 5]
        ensures { result ≡ device_status_bits self }
    {
        [
            wide(1, self.done),
            wide(1, self.init_b),
            wide(1, self.error_out),
            wide(1, self.error_status),
            wide(4, self.keep_alive),
        ]
    }
}

impl ModuleStatus {
    // Bit 15 is reserved.
    pub fn bits(self) -> [BitField; 10]
        ensures { result ≡ module_status_bits self }
    {
        [
            wide(1, self.present),
            wide(1, self.interrupt),
            wide(1, self.low_power),
            wide(4, self.rate_select),
            wide(2, self.rx_loss),
            wide(2, self.tx_disable),
            wide(2, self.tx_fault),
            wide(1, self.power_enable),
            wide(1, self.over_current),
            wide(1, 0),
        ]
    }
}
