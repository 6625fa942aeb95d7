// The reply to a read: registers of one owner, the device or a sensor.

#![tactic(auto)]

ghost use Rattle.std.specs.Prelude.{◌≡◌, ◌+◌, ◌%◌, ◌≤◌, length};
ghost use Rattle.words.specs.Overlay.{overlay};
ghost use Rattle.registers.specs.Registers.{register_of};
ghost use Rattle.service.specs.Reads.{device_of, shown_from};
ghost use Rattle.reads.specs.Steps.{owned_body};

use registers::Device;
use sensors::Sensor;
use service::Arrival;
use state::Counters;

// The values that the device's registers show.
#[tactic(auto, unfolding(service::specs::Reads::device_of))]
pub fn device(c: Counters, technician: u16, volume: &[u16], arrival: Arrival) -> Device
    ensures { result ≡ device_of c technician volume.now arrival }
{
    Device {
        clock: arrival.clock,
        good: c.good,
        bad: c.bad,
        exceptions: c.exceptions,
        capacity: volume::capacity(volume.len()),
        used: volume::used(volume),
        technician,
    }
}

// A register by its owner, 0 for the device or a sensor's number, and its offset. An enum with a sensor in it cost each register 20 instructions.
#[tactic(auto, unfolding(registers::specs::Registers::register_of))]
#[inline(never)]
fn register_of(owner: u16, device: &Device, sensor: &Sensor, offset: u16) -> u16
    ensures { result ≡ register_of owner device.now sensor.now offset }
{
    if owner == 0 {
        return registers::device_register(device, offset);
    }
    registers::sensor_register(owner, sensor, offset)
}

// An owner's registers from an offset on, as many as there are words.
fn fill(words: &mut [u16], owner: u16, device: &Device, sensor: &Sensor, offset: u16)
    requires { offset + length words.old ≤ 65536 }
    ensures { words.new ≡ shown_from (register_of owner device.now sensor.now) offset (length words.old) }
{
    for i in 0..words.len() {
        words[i] = register_of(owner, device, sensor, offset + (i as u16));
    }
}

// The body of the reply to a read, from the values of the device and of the sensor that it names.
pub fn read(
    reply: &mut [u8],
    address: u8,
    device: &Device,
    sensor: &Sensor,
    start: u16,
    count: u16,
) -> usize
    requires { (256 ≤ length reply.old) × (count ≤ 125) × (start % 100 + count ≤ 100) }
    ensures value { result ≡ length (owned_body address device.now sensor.now start count) }
    ensures reply_after { reply.new ≡ overlay (owned_body address device.now sensor.now start count) reply.old }
{
    let mut words: [u16; 125] = [0; 125];
    let n = count as usize;
    fill(&mut words[..n], start / 100, device, sensor, start % 100);
    replies::put_read(reply, address, &words[..n])
}
