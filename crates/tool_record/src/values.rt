// A sensor record in words, on standard output: for each of its parts a list of names and values. What a U30 leaves
// 0 is left out.
use report::Line;
use sensor_values::{
    BoardSensors, BoardStatus, Device, FlashControl, SecurityStatus, SensorRecord,
};
use std::io;

// The column where a value begins.
const VALUE: usize = 36;

// A value of a record, by how it is shown.
#[derive(Clone, Copy)]
enum Value {
    Count(u32),
    Watts(u16),
    Temperature(i8),
    // Raw readings of the 12 V input, whose unit is 1.25 thousandths.
    Voltage(u16),
    Current(u16),
    // A choice among words, by its number.
    Choice(u8, &'static [&'static str]),
}

// A line with a raw reading of the 12 V input behind it.
fn reading(line: Line, raw: u16) -> Line {
    let parts = raw as usize * 125;
    line.decimal(parts / 100000)
        .text(".")
        .padded(parts % 100000, 5)
}

// A line with a temperature behind it.
fn temperature(line: Line, degrees: i8) -> Line {
    let sign = if degrees < 0 { "-" } else { "" };
    line.text(sign)
        .count(degrees.unsigned_abs() as usize, "degree")
        .text(" C")
}

impl Value {
    // A line with the value behind it.
    fn behind(self, line: Line) -> Line {
        match self {
            Value::Count(n) => line.decimal(n as usize),
            Value::Watts(n) => line.decimal(n as usize).text(" W"),
            Value::Temperature(degrees) => temperature(line, degrees),
            Value::Voltage(raw) => reading(line, raw).text(" V"),
            Value::Current(raw) => reading(line, raw).text(" A"),
            Value::Choice(n, words) => { line.text(words.get(n as usize).copied().unwrap_or("")) }
        }
    }
}

// Prints a part of a record: its name, and its values by theirs.
fn print_part(rt: &impl Print, part: &str, values: &[(&str, Value)]) -> io::Result<()> {
    Line::new().text(part).print(rt)?;
    for &(name, value) in values {
        let line = Line::new().text("  ").text(name).to(VALUE);
        value.behind(line).print(rt)?;
    }
    Ok(())
}

fn status(rt: &impl Print, s: BoardStatus) -> io::Result<()> {
    print_part(
        rt,
        "board status",
        &[
            ("TCRIT events", Value::Count(s.tcrit.into())),
            ("power good events", Value::Count(s.power_good.into())),
            (
                "writes to the controller's flash",
                Value::Count(s.flash_writes as u32 * 100),
            ),
        ],
    )
}

fn security(rt: &impl Print, s: SecurityStatus) -> io::Result<()> {
    print_part(
        rt,
        "board security",
        &[
            (
                "controller connected to",
                Value::Choice(s.spi_device, &["device 1", "device 2"]),
            ),
            (
                "JTAG access",
                Value::Choice(s.jtag, &["disabled", "enabled"]),
            ),
        ],
    )
}

// The flash of a device, and which of its two flashes are authenticated, by a bit each.
fn flash(rt: &impl Print, part: &str, f: FlashControl, bits: u8) -> io::Result<()> {
    let modes = &[
        "device, two lines",
        "controller, one line",
        "device, four lines",
        "not valid",
    ];
    print_part(
        rt,
        part,
        &[
            (
                "flash selected",
                Value::Choice(f.recovery, &["primary", "recovery"]),
            ),
            ("controlled by", Value::Choice(f.mode, modes)),
            (
                "write",
                Value::Choice(f.write_enable, &["protected", "enabled"]),
            ),
            (
                "authenticated",
                Value::Choice(
                    bits % 4,
                    &["none", "primary", "recovery", "primary and recovery"],
                ),
            ),
        ],
    )
}

fn sensors(rt: &impl Print, s: BoardSensors) -> io::Result<()> {
    let main = s.input_12v;
    let power = sensor_record::total_power(main.voltage, main.current);
    print_part(
        rt,
        "board sensors",
        &[
            ("inlet temperature", Value::Temperature(s.inlet)),
            ("outlet temperature", Value::Temperature(s.outlet)),
            ("12 V input voltage", Value::Voltage(main.voltage)),
            ("12 V input current", Value::Current(main.current)),
            ("power of the 12 V input", Value::Watts(power)),
            ("total power", Value::Watts(s.total_power)),
        ],
    )
}

fn device(rt: &impl Print, part: &str, d: Device) -> io::Result<()> {
    let pins = d.status;
    let errors = d.errors;
    print_part(
        rt,
        part,
        &[
            ("DONE pin", Value::Count(pins.done.into())),
            ("INIT_B pin", Value::Count(pins.init_b.into())),
            ("PS_ERROR_OUT pin", Value::Count(pins.error_out.into())),
            (
                "PS_ERROR_STATUS pin",
                Value::Count(pins.error_status.into()),
            ),
            ("heartbeat count", Value::Count(pins.keep_alive.into())),
            ("FPGA temperature", Value::Temperature(d.fpga_temperature)),
            (
                "DDR errors, uncorrectable",
                Value::Count(errors.ddr_uncorrectable.into()),
            ),
            (
                "DDR errors, correctable",
                Value::Count(errors.ddr_correctable.into()),
            ),
            (
                "PCIe errors, uncorrectable",
                Value::Count(errors.pcie_uncorrectable.into()),
            ),
            (
                "PCIe errors, correctable",
                Value::Count(errors.pcie_correctable),
            ),
        ],
    )
}

// Prints a record that keeps the U30's rule.
pub fn print(rt: &impl Print, r: SensorRecord) -> io::Result<()> {
    let access = r.security;
    Line::new().text("sensor record").print(rt)?;
    status(rt, r.status)?;
    security(rt, access)?;
    flash(
        rt,
        "flash of device 1",
        access.flash1,
        access.authentication,
    )?;
    flash(
        rt,
        "flash of device 2",
        access.flash2,
        access.authentication / 4,
    )?;
    sensors(rt, r.sensors)?;
    device(rt, "device 1", r.device1)?;
    device(rt, "device 2", r.device2)
}
