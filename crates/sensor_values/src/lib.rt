// The values of the card's sensor record (source document 004), and the rule that they keep. Every
// field of the source is here, those too that the U30 leaves 0. A value too big for its bits can be
// held, and breaks the rule.
#![tactic(auto)]

mod bits;
mod rule;

ghost use Rattle.std.specs.Prelude.{◌≡◌};
ghost use Rattle.sensor_values.specs.Rule.{sound};

// A bit field: how many bits wide it is, and its value.
#[derive(Clone, Copy, PartialEq, Eq)]
pub struct BitField {
    pub width: u32,
    pub value: u8,
}

// Board status information.
#[derive(Clone, Copy, PartialEq, Eq)]
pub struct BoardStatus {
    // Events of each kind, 0 to 15.
    pub tcrit: u8,
    pub power_good: u8,
    pub twarn: u8,
    pub hbm_cattrip: u8,
    // 1 if present.
    pub module0_present: u8,
    pub module1_present: u8,
    pub aux_cable: u8,
    // Hundreds of writes to the controller's flash.
    pub flash_writes: u8,
}

// The control of one device's flash.
#[derive(Clone, Copy, PartialEq, Eq)]
pub struct FlashControl {
    // 0: the primary flash is selected, 1: the recovery flash.
    pub recovery: u8,
    // 0: the device, two lines; 1: the controller, one line; 2: the device, four lines. 3 is not valid.
    pub mode: u8,
    // 0: write protect, 1: write enable.
    pub write_enable: u8,
}

// Board security status information.
#[derive(Clone, Copy, PartialEq, Eq)]
pub struct SecurityStatus {
    // 0: the controller is connected to device 1, 1: to device 2.
    pub spi_device: u8,
    pub flash1: FlashControl,
    pub flash2: FlashControl,
    // A bit for each flash that is authenticated: device 1 primary, recovery, device 2 primary, recovery.
    pub authentication: u8,
    // 1 if JTAG access is enabled.
    pub jtag: u8,
}

// One input sensor, raw: a unit of the 12 V input is 1.25 mA or 1.25 mV.
#[derive(Clone, Copy, PartialEq, Eq)]
pub struct InputSensor {
    pub current: u16,
    pub voltage: u16,
}

// The board's sensors. Temperatures are in degrees Celsius, total power is in watts.
#[derive(Clone, Copy, PartialEq, Eq)]
pub struct BoardSensors {
    pub inlet: i8,
    pub outlet: i8,
    pub input_3v3: InputSensor,
    pub input_12v: InputSensor,
    pub input_aux: InputSensor,
    pub total_power: u16,
}

// A device's status information: four pins, and its heartbeat's count, 0 to 15.
#[derive(Clone, Copy, PartialEq, Eq)]
pub struct DeviceStatus {
    pub done: u8,
    pub init_b: u8,
    pub error_out: u8,
    pub error_status: u8,
    pub keep_alive: u8,
}

// A device's advanced error counters.
#[derive(Clone, Copy, PartialEq, Eq)]
pub struct ErrorCounters {
    pub ddr_uncorrectable: u16,
    pub ddr_correctable: u16,
    pub pcie_uncorrectable: u16,
    pub pcie_correctable: u32,
}

// One device.
#[derive(Clone, Copy, PartialEq, Eq)]
pub struct Device {
    pub status: DeviceStatus,
    pub fpga_temperature: i8,
    pub hbm_temperature: i8,
    pub errors: ErrorCounters,
}

// A network module's status: two bits of rx_loss, tx_disable and tx_fault, four of rate_select, one of
// each other.
#[derive(Clone, Copy, PartialEq, Eq)]
pub struct ModuleStatus {
    pub present: u8,
    pub interrupt: u8,
    pub low_power: u8,
    pub rate_select: u8,
    pub rx_loss: u8,
    pub tx_disable: u8,
    pub tx_fault: u8,
    pub power_enable: u8,
    pub over_current: u8,
}

// One network module.
#[derive(Clone, Copy, PartialEq, Eq)]
pub struct NetworkModule {
    pub temperature: i8,
    pub status: ModuleStatus,
}

// The whole record.
#[derive(Clone, Copy, PartialEq, Eq)]
pub struct SensorRecord {
    pub status: BoardStatus,
    pub security: SecurityStatus,
    pub sensors: BoardSensors,
    pub device1: Device,
    pub device2: Device,
    pub module0: NetworkModule,
    pub module1: NetworkModule,
}

// Whether a record keeps the U30's rule.
#[tactic(auto, unfolding(crate::specs::Rule::sound))]
pub fn sound(values: SensorRecord) -> bool
    ensures { result ≡ sound values }
{
    rule::fields(values) && rule::unused(values)
}
