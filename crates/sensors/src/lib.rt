// The state of one sensor: what frames write and a calibration decides, and what measurements write. A sensor is known by its number, 1 to 4:
// registers, entries and programs in C have it so.

#![tactic(auto)]

ghost use Rattle.std.specs.Prelude.{◌≡◌};
ghost use Rattle.sensors.specs.Changes.{new_procedure, with_trial, with_parameter, restarted, calibrated_at, measured_of, measured_sensor, sensor_with_setup};
ghost use Rattle.sensors.specs.Sensors.{parameter_of, fresh_parameter, fresh_parameters, fresh_setup, powered_setup, fresh_sample, fresh_sensor, units_valid, level_valid, valid_procedure, valid_parameter, valid_parameters, valid_setup, valid_sensor};

use coefficients::{Calibration, Coefficients};
use entries::{calibration_valid, method_allowed, points_finite};
use methods::Points;
use parameters::Quantity;

// A parameter's units and its sentinel, the value that is shown where there is no reading.
#[repr(C)]
#[derive(Clone, Copy)]
pub struct Parameter {
    pub units: u16,
    pub sentinel: f32,
}

// The parameters of a sensor, and the id of the level. Those that the sensor doesn't have stay as when fresh. Three fields and no array:
// include/sonde.h has them so.
#[repr(C)]
#[derive(Clone, Copy)]
pub struct Parameters {
    pub level: u16,
    pub parameter1: Parameter,
    pub parameter2: Parameter,
    pub parameter3: Parameter,
}

// A calibration in progress. Document 01: mode on is `calibrating`, trial figures are `trial`.
#[repr(C)]
#[derive(Clone, Copy)]
pub struct Procedure {
    pub calibrating: bool,
    pub trial: Coefficients,
    pub method: u16,
    pub points: Points,
}

// The calibration in force. Document 01: figures in force with the last calibration are `calibration`, next calibration is `next`.
#[repr(C)]
#[derive(Clone, Copy)]
pub struct Active {
    pub calibration: Calibration,
    pub next: u32,
}

// What frames write and a calibration decides.
#[repr(C)]
#[derive(Clone, Copy)]
pub struct Setup {
    pub procedure: Procedure,
    pub active: Active,
    pub parameters: Parameters,
}

// Document 01: raw values, with present or not; not present until measured.
#[repr(C)]
#[derive(Clone, Copy)]
pub struct Sample {
    pub present: bool,
    pub raw1: f32,
    pub raw2: f32,
}

// The raw values that a measurement of a sensor which is present reads.
#[derive(Clone, Copy)]
pub struct Raws {
    pub raw1: f32,
    pub raw2: f32,
}

#[repr(C)]
#[derive(Clone, Copy)]
pub struct Sensor {
    pub setup: Setup,
    pub sample: Sample,
}

impl Parameter {
    // Parameter k of a sensor as it is when fresh; where there is none, units 0.
    #[tactic(auto, unfolding(crate::specs::Sensors::fresh_parameter))]
    pub fn fresh(sensor: u16, k: u16) -> Self
        ensures { result ≡ fresh_parameter sensor k }
    {
        Parameter {
            units: Quantity::of(sensor, k).map_or(0, Quantity::default_units),
            sentinel: 0.0,
        }
    }

    // Units that are listed and a finite sentinel.
    #[tactic(auto, unfolding(crate::specs::Sensors::valid_parameter))]
    fn is_valid(&self, sensor: u16, k: u16) -> bool
        ensures { result ≡ valid_parameter sensor k self.now }
    {
        floats::is_finite(self.sentinel) & units_valid(sensor, k, self.units)
    }
}

impl Parameters {
    #[tactic(auto, unfolding(crate::specs::Sensors::fresh_parameters))]
    pub fn fresh(sensor: u16) -> Self
        ensures { result ≡ fresh_parameters sensor }
    {
        Parameters {
            level: 3,
            parameter1: Parameter::fresh(sensor, 1),
            parameter2: Parameter::fresh(sensor, 2),
            parameter3: Parameter::fresh(sensor, 3),
        }
    }

    // Parameter 1, 2 or 3.
    #[tactic(auto, unfolding(crate::specs::Sensors::parameter_of))]
    pub fn parameter(&self, k: u16) -> Parameter
        ensures { result ≡ parameter_of self.now k }
    {
        match k {
            1 => self.parameter1,
            2 => self.parameter2,
            _ => self.parameter3,
        }
    }

    // Parameter 1, 2 or 3 replaced.
    #[tactic(auto, unfolding(crate::specs::Changes::with_parameter))]
    pub fn with_parameter(mut self, k: u16, p: Parameter) -> Self
        ensures { result ≡ with_parameter self k p }
    {
        match k {
            1 => self.parameter1 = p,
            2 => self.parameter2 = p,
            _ => self.parameter3 = p,
        }
        self
    }

    #[tactic(auto, unfolding(crate::specs::Sensors::valid_parameters))]
    fn is_valid(&self, sensor: u16) -> bool
        ensures { result ≡ valid_parameters sensor self.now }
    {
        level_valid(sensor, self.level)
            & self.parameter1.is_valid(sensor, 1)
            & self.parameter2.is_valid(sensor, 2)
            & self.parameter3.is_valid(sensor, 3)
    }
}

impl Procedure {
    // As a calibration begins and ends: trial coefficients c, method 0 and points +0.0.
    #[tactic(auto, unfolding(crate::specs::Changes::new_procedure))]
    pub fn new(calibrating: bool, c: Coefficients) -> Self
        ensures { result ≡ new_procedure calibrating c }
    {
        Procedure {
            calibrating,
            trial: c,
            method: 0,
            points: Points {
                x1: 0.0,
                y1: 0.0,
                x2: 0.0,
                y2: 0.0,
            },
        }
    }

    #[tactic(auto, unfolding(crate::specs::Sensors::valid_procedure))]
    fn is_valid(&self, sensor: u16) -> bool
        ensures { result ≡ valid_procedure sensor self.now }
    {
        self.trial.is_finite() & points_finite(self.points) & method_allowed(sensor, self.method)
    }
}

impl Setup {
    #[tactic(auto, unfolding(crate::specs::Sensors::fresh_setup))]
    pub fn fresh(sensor: u16) -> Self
        ensures { result ≡ fresh_setup sensor }
    {
        let c = Coefficients::defaults(sensor);
        Setup {
            procedure: Procedure::new(false, c),
            active: Active {
                calibration: c.calibration(0),
                next: 0,
            },
            parameters: Parameters::fresh(sensor),
        }
    }

    // As after a power-up: the replayed calibration, all else as when fresh.
    #[tactic(auto, unfolding(crate::specs::Sensors::powered_setup))]
    pub fn powered(sensor: u16, c: Calibration) -> Self
        ensures { result ≡ powered_setup sensor c }
    {
        Setup {
            procedure: Procedure::new(false, c.coefficients()),
            active: Active {
                calibration: c,
                next: 0,
            },
            parameters: Parameters::fresh(sensor),
        }
    }

    // Document 01: what a sound sonde asks of one sensor, its raw values left out.
    #[tactic(auto, unfolding(crate::specs::Sensors::valid_setup))]
    pub fn is_valid(&self, sensor: u16) -> bool
        ensures { result ≡ valid_setup sensor self.now }
    {
        calibration_valid(sensor, self.active.calibration)
            & self.procedure.is_valid(sensor)
            & self.parameters.is_valid(sensor)
    }

    // Mode on or off; the trial coefficients are those in force again, method 0 and points +0.0.
    #[tactic(auto, unfolding(crate::specs::Changes::restarted))]
    #[inline(never)]
    pub fn restart(mut self, calibrating: bool) -> Self
        ensures { result ≡ restarted self calibrating }
    {
        self.procedure = Procedure::new(calibrating, self.active.calibration.coefficients());
        self
    }

    // Other trial coefficients.
    pub fn with_trial(mut self, c: Coefficients) -> Self
        ensures { result ≡ with_trial self c }
    {
        self.procedure.trial = c;
        self
    }

    // The coefficients come into force and are the trial ones, calibrated at the clock; no next calibration is set.
    #[tactic(auto, unfolding(crate::specs::Changes::calibrated_at))]
    pub fn calibrate(self, c: Coefficients, clock: u32) -> Self
        ensures { result ≡ calibrated_at self c clock }
    {
        let mut s = self.with_trial(c);
        s.active.calibration = c.calibration(clock);
        s.active.next = 0;
        s
    }
}

impl Sample {
    pub fn fresh() -> Self
        ensures { result ≡ fresh_sample }
    {
        Sample {
            present: false,
            raw1: 0.0,
            raw2: 0.0,
        }
    }

    // A measurement. The second raw is read for sensor 1 only; not present, none is read and the old ones stay.
    #[tactic(auto, unfolding(crate::specs::Changes::measured_of))]
    pub fn measure(mut self, sensor: u16, raws: Option<Raws>) -> Self
        ensures { result ≡ measured_of self sensor raws }
    {
        self.present = raws.is_some();
        if let Some(read) = raws {
            self.raw1 = read.raw1;
            if sensor == 1 {
                self.raw2 = read.raw2;
            }
        }
        self
    }
}

impl Sensor {
    #[tactic(auto, unfolding(crate::specs::Sensors::fresh_sensor))]
    pub fn fresh(sensor: u16) -> Self
        ensures { result ≡ fresh_sensor sensor }
    {
        Sensor {
            setup: Setup::fresh(sensor),
            sample: Sample::fresh(),
        }
    }

    #[tactic(auto, unfolding(crate::specs::Sensors::valid_sensor))]
    pub fn is_valid(&self, sensor: u16) -> bool
        ensures { result ≡ valid_sensor sensor self.now }
    {
        self.setup.is_valid(sensor)
            & floats::is_finite(self.sample.raw1)
            & floats::is_finite(self.sample.raw2)
    }

    // A measurement; the setup stays.
    #[tactic(auto, unfolding(crate::specs::Changes::measured_sensor))]
    pub fn measure(mut self, sensor: u16, raws: Option<Raws>) -> Self
        ensures { result ≡ measured_sensor self sensor raws }
    {
        self.sample = self.sample.measure(sensor, raws);
        self
    }

    // A new setup; the sample stays.
    #[tactic(auto, unfolding(crate::specs::Changes::sensor_with_setup))]
    pub fn with_setup(mut self, setup: Setup) -> Self
        ensures { result ≡ sensor_with_setup self setup }
    {
        self.setup = setup;
        self
    }
}

// The units of a parameter that the sensor has are listed; others aren't looked at.
#[tactic(auto, unfolding(crate::specs::Sensors::units_valid))]
fn units_valid(sensor: u16, k: u16, units: u16) -> bool
    ensures { result ≡ units_valid sensor k units }
{
    Quantity::of(sensor, k).is_none_or(|quantity| quantity.allows(units))
}

// The level's id is listed; of a sensor without a level it isn't looked at.
#[tactic(auto, unfolding(crate::specs::Sensors::level_valid))]
fn level_valid(sensor: u16, level: u16) -> bool
    ensures { result ≡ level_valid sensor level }
{
    if sensor == 3 {
        return parameters::level_allowed(level);
    }
    true
}
