// What each register shows: the device's and the sensors'.

#![tactic(auto)]

ghost use Rattle.std.specs.Prelude.{◌≡◌, ◌/◌, ◌%◌};
ghost use Rattle.registers.specs.Registers.{mode_of, shown_coefficients, coefficient_register, point_register, shown_id, reading_register, parameter_register, head_register, sensor_register, device_register};

use coefficients::Coefficients;
use methods::Points;
use parameters::Quantity;
use readings::Reading;
use sensors::{Sensor, Setup};
use words::Halves;

// The values that the device's registers show.
#[derive(Clone, Copy)]
pub struct Device {
    pub clock: u32,
    pub good: u16,
    pub bad: u16,
    pub exceptions: u16,
    pub capacity: u16,
    pub used: u16,
    pub technician: u16,
}

// The command register reads 1 in mode, else 0.
#[tactic(auto, unfolding(crate::specs::Registers::mode_of))]
fn mode(setup: &Setup) -> u16
    ensures { result ≡ mode_of setup.now }
{
    u16::from(setup.procedure.calibrating)
}

// The coefficients that are shown: the trial ones in mode, else the active ones.
#[tactic(auto, unfolding(crate::specs::Registers::shown_coefficients))]
fn shown_coefficients(setup: &Setup) -> Coefficients
    ensures { result ≡ shown_coefficients setup.now }
{
    let settled = setup.active.calibration.coefficients();
    let trial = setup.procedure.trial;
    if !setup.procedure.calibrating {
        return settled;
    }
    trial
}

// Offsets 10 to 15, an arm for each as in the map: an index into the floats, worked out from the offset, is no plainer.
#[tactic(auto, unfolding(crate::specs::Registers::coefficient_register))]
fn coefficient_register(c: &Coefficients, offset: u16) -> u16
    ensures { result ≡ coefficient_register c.now offset }
{
    match offset {
        10 => floats::high_word(c.coefficient1),
        11 => floats::low_word(c.coefficient1),
        12 => floats::high_word(c.coefficient2),
        13 => floats::low_word(c.coefficient2),
        14 => floats::high_word(c.coefficient3),
        15 => floats::low_word(c.coefficient3),
        _ => 0,
    }
}

// Offsets 16 to 23.
#[tactic(auto, unfolding(crate::specs::Registers::point_register))]
fn point_register(p: &Points, offset: u16) -> u16
    ensures { result ≡ point_register p.now offset }
{
    match offset {
        16 => floats::high_word(p.x1),
        17 => floats::low_word(p.x1),
        18 => floats::high_word(p.y1),
        19 => floats::low_word(p.y1),
        20 => floats::high_word(p.x2),
        21 => floats::low_word(p.x2),
        22 => floats::high_word(p.y2),
        23 => floats::low_word(p.y2),
        _ => 0,
    }
}

// The id of parameter k; the level's is the one that is set.
#[tactic(auto, unfolding(crate::specs::Registers::shown_id))]
fn shown_id(sensor: u16, setup: &Setup, k: u16) -> u16
    ensures { result ≡ shown_id sensor setup.now k }
{
    if (sensor == 3) & (k == 2) {
        return setup.parameters.level;
    }
    Quantity::of(sensor, k).map_or(0, u16::from)
}

// The registers of a reading: 0 and 1 the value, 4 the quality.
#[tactic(auto, unfolding(crate::specs::Registers::reading_register))]
fn reading_register(r: Reading, part: u16) -> u16
    ensures { result ≡ reading_register r part }
{
    match part {
        0 => floats::high_word(r.value),
        1 => floats::low_word(r.value),
        _ => u16::from(r.quality),
    }
}

// One of the eight registers of parameter k. The reading is worked out for its own registers alone.
#[tactic(auto, unfolding(crate::specs::Registers::parameter_register))]
fn parameter_register(sensor: u16, s: &Sensor, k: u16, part: u16) -> u16
    ensures { result ≡ parameter_register sensor s.now k part }
{
    let setup = &s.setup;
    let p = setup.parameters.parameter(k);
    match part {
        2 => shown_id(sensor, setup, k),
        3 => p.units,
        5 => floats::high_word(p.sentinel),
        6 => floats::low_word(p.sentinel),
        7 => Quantity::of(sensor, k).map_or(0, Quantity::available_units),
        _ => reading_register(readings::reading_of(sensor, s, k), part),
    }
}

// Offsets 0 to 9.
#[tactic(auto, unfolding(crate::specs::Registers::head_register))]
fn head_register(sensor: u16, setup: &Setup, offset: u16) -> u16
    ensures { result ≡ head_register sensor setup.now offset }
{
    let active = &setup.active;
    let c = &active.calibration;
    match offset {
        0 => sensor,
        1 => c.time.high(),
        2 => c.time.low(),
        3 => active.next.high(),
        4 => active.next.low(),
        5 => mode(setup),
        6 => setup.procedure.method,
        7 => parameters::count(sensor),
        _ => 0,
    }
}

// A register of a sensor, by its offset; 0 where the map has none.
#[tactic(auto, unfolding(crate::specs::Registers::sensor_register))]
pub fn sensor_register(sensor: u16, s: &Sensor, offset: u16) -> u16
    ensures { result ≡ sensor_register sensor s.now offset }
{
    let setup = &s.setup;
    match offset {
        0..=9 => head_register(sensor, setup, offset),
        10..=15 => coefficient_register(&shown_coefficients(setup), offset),
        16..=23 => point_register(&setup.procedure.points, offset),
        30..=53 => parameter_register(sensor, s, (offset - 30) / 8 + 1, (offset - 30) % 8),
        _ => 0,
    }
}

// A register of the device; 0 where the map has none.
#[tactic(auto, unfolding(crate::specs::Registers::device_register))]
pub fn device_register(d: &Device, offset: u16) -> u16
    ensures { result ≡ device_register d.now offset }
{
    match offset {
        0 => 3,
        1 => 1,
        2 => d.clock.high(),
        3 => d.clock.low(),
        4 => d.good,
        5 => d.bad,
        6 => d.exceptions,
        7 => d.capacity,
        8 => d.used,
        9 => d.technician,
        _ => 0,
    }
}
