// The readings of the parameters: value and quality, with the conversion to the units that are set.

#![tactic(auto)]

ghost use Rattle.std.specs.Prelude.{◌≡◌};
ghost use Rattle.readings.specs.Readings.{number_of, height_of, resistivity_of, level_of_id, calibrated_of, pressure_of, level_of, conductivity_value, level_value, value_of, worked_from, graded_reading, reading_of};

use coefficients::Calibration;
use sensors::{Sample, Sensor, Setup};

// How good a reading is.
#[derive(Clone, Copy, Debug, PartialEq, Eq)]
pub enum Quality {
    Good,
    NotFinite,
    // In mode.
    Calibrating,
    // Never measured or not present.
    Absent,
}

// The number that a register shows.
impl From<Quality> for u16 {
    ghost from_gives = { λ quality number. number ≡ number_of quality };

    fn from(quality: Quality) -> u16 {
        match quality {
            Quality::Good => 0,
            Quality::NotFinite => 3,
            Quality::Calibrating => 6,
            Quality::Absent => 7,
        }
    }
}

// What a parameter shows; not finite and absent, the value is the sentinel.
#[derive(Clone, Copy)]
pub struct Reading {
    pub quality: Quality,
    pub value: f32,
}

// Sensors 1, 2 and 4: the first raw, calibrated; in mode the raw itself.
#[tactic(auto, unfolding(crate::specs::Readings::calibrated_of))]
pub fn calibrated(setup: &Setup, raw: f32) -> f32
    ensures { result ≡ calibrated_of setup.now raw }
{
    if setup.procedure.calibrating {
        return raw;
    }
    let c = &setup.active.calibration;
    c.coefficient1 + c.coefficient2 * raw
}

pub fn resistivity(conductivity: f32) -> f32
    ensures { result ≡ resistivity_of conductivity }
{
    if conductivity == 0.0 {
        return 10000000.0;
    }
    1000000.0 / conductivity
}

// Document 01: L(p), a pressure as a height of water.
fn height(p: f32) -> f32
    ensures { result ≡ height_of p }
{
    p * 0.70307 / 1.0
}

// The level by its id, out of mode: 3 depth, 4 drawdown, 5 elevation.
#[tactic(auto, unfolding(crate::specs::Readings::level_of_id))]
fn level_of_id(id: u16, pressure: f32, c: &Calibration) -> f32
    ensures { result ≡ level_of_id id pressure c.now }
{
    match id {
        4 => c.coefficient2 - height(pressure - c.coefficient3),
        5 => c.coefficient2 + height(pressure - c.coefficient3),
        _ => height(pressure),
    }
}

// The pressure with the offset taken off; in mode the raw itself.
#[tactic(auto, unfolding(crate::specs::Readings::pressure_of))]
pub fn pressure(setup: &Setup, raw: f32) -> f32
    ensures { result ≡ pressure_of setup.now raw }
{
    if setup.procedure.calibrating {
        return raw;
    }
    raw - setup.active.calibration.coefficient1
}

// The level; in mode the height of the pressure with the offset taken off.
#[tactic(auto, unfolding(crate::specs::Readings::level_of))]
pub fn level(setup: &Setup, raw: f32) -> f32
    ensures { result ≡ level_of setup.now raw }
{
    let c = &setup.active.calibration;
    let measured = raw - c.coefficient1;
    if setup.procedure.calibrating {
        return height(measured);
    }
    level_of_id(setup.parameters.level, measured, c)
}

// Sensor 1: temperature, conductivity, resistivity.
#[tactic(auto, unfolding(crate::specs::Readings::conductivity_value))]
fn conductivity_value(setup: &Setup, sample: &Sample, k: u16) -> f32
    ensures { result ≡ conductivity_value setup.now sample.now k }
{
    match k {
        1 => sample.raw2,
        2 => calibrated(setup, sample.raw1),
        _ => resistivity(calibrated(setup, sample.raw1)),
    }
}

// Sensor 3: pressure, level.
#[tactic(auto, unfolding(crate::specs::Readings::level_value))]
fn level_value(setup: &Setup, sample: &Sample, k: u16) -> f32
    ensures { result ≡ level_value setup.now sample.now k }
{
    match k {
        1 => pressure(setup, sample.raw1),
        _ => level(setup, sample.raw1),
    }
}

// The value of parameter k before its conversion.
#[tactic(auto, unfolding(crate::specs::Readings::value_of))]
pub fn value(sensor: u16, setup: &Setup, sample: &Sample, k: u16) -> f32
    ensures { result ≡ value_of sensor setup.now sample.now k }
{
    match sensor {
        1 => conductivity_value(setup, sample, k),
        3 => level_value(setup, sample, k),
        _ => calibrated(setup, sample.raw1),
    }
}

// The parameter that parameter k is worked from, itself where there is none.
#[tactic(auto, unfolding(crate::specs::Readings::worked_from))]
fn worked_from(sensor: u16, k: u16) -> u16
    ensures { result ≡ worked_from sensor k }
{
    if (sensor == 1) & (k == 3) {
        return 2;
    }
    if (sensor == 3) & (k == 2) {
        return 1;
    }
    k
}

// Quality and value: not present before not finite before in mode.
#[tactic(auto, unfolding(crate::specs::Readings::graded_reading))]
fn graded(present: bool, good: bool, calibrating: bool, shown: f32, sentinel: f32) -> Reading
    ensures { result ≡ graded_reading present good calibrating shown sentinel }
{
    if !present {
        return Reading {
            quality: Quality::Absent,
            value: sentinel,
        };
    }
    if !good {
        return Reading {
            quality: Quality::NotFinite,
            value: sentinel,
        };
    }
    if calibrating {
        return Reading {
            quality: Quality::Calibrating,
            value: shown,
        };
    }
    Reading {
        quality: Quality::Good,
        value: shown,
    }
}

// The reading of parameter k of a sensor.
#[tactic(auto, unfolding(crate::specs::Readings::reading_of))]
pub fn reading_of(sensor: u16, s: &Sensor, k: u16) -> Reading
    ensures { result ≡ reading_of sensor s.now k }
{
    let setup = &s.setup;
    let sample = &s.sample;
    let p = setup.parameters.parameter(k);
    let source = value(sensor, setup, sample, worked_from(sensor, k));
    let shown = parameters::convert(p.units, value(sensor, setup, sample, k));
    let good = floats::is_finite(source) & floats::is_finite(shown);
    let calibrating = setup.procedure.calibrating;
    graded(sample.present, good, calibrating, shown, p.sentinel)
}
