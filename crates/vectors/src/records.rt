// The sensor record, temperatures and total power.
use byte_parts::behind;
use little_endian::{Number, byte_at};
use refusal::Refusal;
use sensor_values::{
    BoardSensors, BoardStatus, Device, DeviceStatus, ErrorCounters, FlashControl, InputSensor,
    ModuleStatus, NetworkModule, SecurityStatus, SensorRecord,
};
use std::io;
use vector_lines::show;

// The temperatures that bytes carry.
pub fn temperatures(rt: &impl Print, bytes: &[u8]) -> io::Result<()> {
    for &byte in bytes {
        let degrees = temperature::from_byte(byte);
        print!(rt; " {degrees}")?;
    }
    Ok(())
}

// The greater of two temperatures.
pub fn greater(rt: &impl Print, bytes: &[u8]) -> io::Result<()> {
    let first = temperature::from_byte(byte_at(bytes, 0));
    let second = temperature::from_byte(byte_at(bytes, 1));
    let degrees = temperature::from_byte(temperature::greater_byte(first, second));
    print!(rt; " {degrees}")
}

// Total power from raw volts and raw amps.
pub fn power(rt: &impl Print, bytes: &[u8]) -> io::Result<()> {
    let watts = sensor_record::total_power(u16::number_at(bytes, 0), u16::number_at(bytes, 2));
    print!(rt; " {watts} W")
}

fn refused(rt: &impl Print, why: Refusal) -> io::Result<()> {
    let number = u8::from(why);
    print!(rt; " refused {number}")
}

fn status(rt: &impl Print, s: BoardStatus) -> io::Result<()> {
    show::text(rt, b" status")?;
    show::numbers(
        rt,
        &[
            s.tcrit,
            s.power_good,
            s.twarn,
            s.hbm_cattrip,
            s.module0_present,
            s.module1_present,
            s.aux_cable,
            s.flash_writes,
        ],
    )
}

fn security(rt: &impl Print, s: SecurityStatus) -> io::Result<()> {
    let one = s.flash1;
    let two = s.flash2;
    show::text(rt, b", security")?;
    show::numbers(
        rt,
        &[
            s.spi_device,
            one.recovery,
            one.mode,
            one.write_enable,
            two.recovery,
            two.mode,
            two.write_enable,
            s.authentication,
            s.jtag,
        ],
    )
}

fn sensors(rt: &impl Print, s: BoardSensors) -> io::Result<()> {
    let low = s.input_3v3;
    let main = s.input_12v;
    let aux = s.input_aux;
    show::text(rt, b", sensors")?;
    show::numbers(rt, &[s.inlet, s.outlet])?;
    show::numbers(
        rt,
        &[
            low.current,
            low.voltage,
            main.current,
            main.voltage,
            aux.current,
            aux.voltage,
            s.total_power,
        ],
    )
}

fn device(rt: &impl Print, d: Device) -> io::Result<()> {
    let s = d.status;
    let e = d.errors;
    show::text(rt, b", device")?;
    show::numbers(
        rt,
        &[s.done, s.init_b, s.error_out, s.error_status, s.keep_alive],
    )?;
    show::numbers(rt, &[d.fpga_temperature, d.hbm_temperature])?;
    show::numbers(
        rt,
        &[e.ddr_uncorrectable, e.ddr_correctable, e.pcie_uncorrectable],
    )?;
    show::numbers(rt, &[e.pcie_correctable])
}

fn module(rt: &impl Print, m: NetworkModule) -> io::Result<()> {
    let s = m.status;
    show::text(rt, b", module")?;
    show::numbers(rt, &[m.temperature])?;
    show::numbers(
        rt,
        &[
            s.present,
            s.interrupt,
            s.low_power,
            s.rate_select,
            s.rx_loss,
            s.tx_disable,
            s.tx_fault,
            s.power_enable,
            s.over_current,
        ],
    )
}

// The values of a record, each group's in the order of its bits.
fn values(rt: &impl Print, r: SensorRecord) -> io::Result<()> {
    status(rt, r.status)?;
    security(rt, r.security)?;
    sensors(rt, r.sensors)?;
    device(rt, r.device1)?;
    device(rt, r.device2)?;
    module(rt, r.module0)?;
    module(rt, r.module1)
}

// A record read.
pub fn read(rt: &impl Print, bytes: &[u8]) -> io::Result<()> {
    match sensor_record::read(bytes) {
        Ok(record) => values(rt, record),
        Err(why) => refused(rt, why),
    }
}

// Values of the board's status, in the order of its bits.
fn status_of(v: [u8; 28]) -> BoardStatus {
    BoardStatus {
        tcrit: v[1],
        power_good: v[2],
        twarn: v[3],
        hbm_cattrip: v[4],
        module0_present: v[5],
        module1_present: v[6],
        aux_cable: v[7],
        flash_writes: v[8],
    }
}

fn security_of(v: [u8; 28]) -> SecurityStatus {
    let flash1 = FlashControl {
        recovery: v[10],
        mode: v[11],
        write_enable: v[12],
    };
    let flash2 = FlashControl {
        recovery: v[13],
        mode: v[14],
        write_enable: v[15],
    };
    SecurityStatus {
        spi_device: v[9],
        flash1,
        flash2,
        authentication: v[16],
        jtag: v[17],
    }
}

// A device with the status of a list. Its other values show the order of their bytes.
fn device_of(v: [u8; 5]) -> Device {
    let status = DeviceStatus {
        done: v[0],
        init_b: v[1],
        error_out: v[2],
        error_status: v[3],
        keep_alive: v[4],
    };
    let errors = ErrorCounters {
        ddr_uncorrectable: 0x0102,
        ddr_correctable: 0x0304,
        pcie_uncorrectable: 0x0506,
        pcie_correctable: 0x0708090A,
    };
    Device {
        status,
        fpga_temperature: -2,
        hbm_temperature: 0,
        errors,
    }
}

fn no_module() -> NetworkModule {
    let status = ModuleStatus {
        present: 0,
        interrupt: 0,
        low_power: 0,
        rate_select: 0,
        rx_loss: 0,
        tx_disable: 0,
        tx_fault: 0,
        power_enable: 0,
        over_current: 0,
    };
    NetworkModule {
        temperature: 0,
        status,
    }
}

// The readings of source document 004's examples: -2 and 35 degrees, 12.5 A, 11.98 V and 288 W.
fn readings() -> BoardSensors {
    BoardSensors {
        inlet: -2,
        outlet: 35,
        input_3v3: InputSensor {
            current: 0,
            voltage: 0,
        },
        input_12v: InputSensor {
            current: 0x2710,
            voltage: 0x2570,
        },
        input_aux: InputSensor {
            current: 0,
            voltage: 0,
        },
        total_power: 288,
    }
}

// A record whose status, security and device status have the values of a list.
fn made(v: [u8; 28]) -> SensorRecord {
    let status = status_of(v);
    let security = security_of(v);
    let device1 = device_of([v[18], v[19], v[20], v[21], v[22]]);
    let device2 = device_of([v[23], v[24], v[25], v[26], v[27]]);
    SensorRecord {
        status,
        security,
        sensors: readings(),
        device1,
        device2,
        module0: no_module(),
        module1: no_module(),
    }
}

// A record written over bytes ee, and the output then.
fn write_over(rt: &impl Print, values: SensorRecord, out: &mut [u8]) -> io::Result<()> {
    match sensor_record::write(values, out) {
        Ok(()) => show::text(rt, b" written")?,
        Err(why) => refused(rt, why)?,
    }
    if byte_parts::every(out, 0xEE) {
        return show::text(rt, b", output as it was");
    }
    show::bytes(rt, out)
}

// Values written over so many bytes ee as the list's first number says, at most 72.
pub fn write(rt: &impl Print, bytes: &[u8]) -> io::Result<()> {
    let mut v = [0u8; 28];
    little_endian::store(bytes, 0, &mut v);
    let mut out = [0xEEu8; 72];
    match out.get_mut(..usize::from(byte_at(bytes, 0))) {
        Some(lent) => write_over(rt, made(v), lent),
        None => show::text(rt, b" no output of that length"),
    }
}

// Whether values are written as the bytes that they were read from.
fn written_again(values: SensorRecord, bytes: &[u8]) -> bool {
    let mut out = [0xEEu8; 64];
    sensor_record::write(values, &mut out).is_ok() && out.as_slice() == bytes
}

// Whether a record with one more bit set is read, and written as it was.
fn taken(base: [u8; 64], at: usize, bit: u8) -> bool {
    let mut bytes = base;
    let Some(byte) = bytes.get_mut(at) else {
        return false;
    };
    *byte |= 1 << (bit % 8);
    sensor_record::read(&bytes).is_ok_and(|values| written_again(values, &bytes))
}

fn mark(rt: &impl Print, base: [u8; 64], at: usize, bit: u8) -> io::Result<()> {
    if taken(base, at, bit) {
        return show::text(rt, b".");
    }
    show::text(rt, b"x")
}

// The bits of a byte, the highest first.
fn byte_map(rt: &impl Print, base: [u8; 64], at: usize) -> io::Result<()> {
    show::text(rt, b" ")?;
    for bit in (0..8u8).rev() {
        mark(rt, base, at, bit)?;
    }
    Ok(())
}

// The bits of a field at an offset, of so many bytes, the highest first.
fn field_map(rt: &impl Print, base: [u8; 64], bytes: &[u8]) -> io::Result<()> {
    let start = usize::from(byte_at(bytes, 0));
    let length = usize::from(byte_at(bytes, 1));
    for at in (start..start + length).rev() {
        byte_map(rt, base, at)?;
    }
    Ok(())
}

// Each bit of a field set in the record that follows offset and length, or in zeros if none follows.
pub fn bit_map(rt: &impl Print, bytes: &[u8]) -> io::Result<()> {
    let mut base = [0u8; 64];
    little_endian::store(behind(bytes, 2), 0, &mut base);
    field_map(rt, base, bytes)
}
