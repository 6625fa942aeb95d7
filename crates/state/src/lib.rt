// The state of a sonde: an address, the technician's number, four sensors and the message counters. It goes in and comes back by value.

#![tactic(auto)]

ghost use Rattle.std.specs.Prelude.{◌≡◌};
ghost use Rattle.journal.specs.Journal.{IsSensor};
ghost use Rattle.state.specs.Sonde.{incremented, fresh_counters, counted, fresh_sonde, powered_sensor, powered_sonde, address_valid, valid_sonde, measured_at};

use coefficients::Calibration;
use journal::Calibrations;
use sensors::{Raws, Sample, Sensor, Setup};

// Messages that were good, bad, and refused by a code. Each stops at 65535.
#[repr(C)]
#[derive(Clone, Copy)]
pub struct Counters {
    pub good: u16,
    pub bad: u16,
    pub exceptions: u16,
}

// Sensor s is element s - 1. The technician's number is any; 0 means not given.
#[repr(C)]
#[derive(Clone, Copy)]
pub struct Sonde {
    pub address: u8,
    pub technician: u16,
    pub sensors: [Sensor; 4],
    pub counters: Counters,
}

// One more, up to 65535.
#[tactic(auto, unfolding(crate::specs::Sonde::incremented))]
fn increment(n: u16) -> u16
    ensures { result ≡ incremented n }
{
    n.saturating_add(1)
}

// How a frame counts. A refused one is also a good one; another's isn't counted.
#[derive(Clone, Copy, Debug, PartialEq, Eq)]
pub enum Event {
    Uncounted,
    Bad,
    Good,
    Exception,
}

impl Counters {
    #[tactic(auto, unfolding(crate::specs::Sonde::fresh_counters))]
    pub fn fresh() -> Self
        ensures { result ≡ fresh_counters }
    {
        Counters {
            good: 0,
            bad: 0,
            exceptions: 0,
        }
    }

    pub fn count(mut self, event: Event) -> Self
        ensures { result ≡ counted event self }
    {
        match event {
            Event::Uncounted => {}
            Event::Bad => self.bad = increment(self.bad),
            Event::Good => self.good = increment(self.good),
            Event::Exception => {
                self.good = increment(self.good);
                self.exceptions = increment(self.exceptions);
            }
        }
        self
    }
}

// Whether a sonde can have the address.
#[tactic(auto, unfolding(crate::specs::Sonde::address_valid))]
pub fn address_valid(address: u8) -> bool
    ensures { result ≡ address_valid address }
{
    (1 <= address) & (address <= 247)
}

// A sensor as it is after a power-up: fresh, but for the replayed calibration.
#[tactic(auto, unfolding(crate::specs::Sonde::powered_sensor))]
fn powered_sensor(sensor: u16, c: Calibration) -> Sensor
    ensures { result ≡ powered_sensor sensor c }
{
    Sensor {
        setup: Setup::powered(sensor, c),
        sample: Sample::fresh(),
    }
}

impl Sonde {
    #[tactic(auto, unfolding(crate::specs::Sonde::fresh_sonde))]
    pub fn fresh(address: u8) -> Self
        ensures { result ≡ fresh_sonde address }
    {
        Sonde {
            address,
            technician: 0,
            sensors: [
                Sensor::fresh(1),
                Sensor::fresh(2),
                Sensor::fresh(3),
                Sensor::fresh(4),
            ],
            counters: Counters::fresh(),
        }
    }

    // A sonde after a power-up, with the calibrations that replay gives.
    #[tactic(auto, unfolding(crate::specs::Sonde::powered_sonde))]
    pub fn powered(address: u8, c: Calibrations) -> Self
        ensures { result ≡ powered_sonde address c }
    {
        Sonde {
            address,
            technician: 0,
            sensors: [
                powered_sensor(1, c.sensor1),
                powered_sensor(2, c.sensor2),
                powered_sensor(3, c.sensor3),
                powered_sensor(4, c.sensor4),
            ],
            counters: Counters::fresh(),
        }
    }

    // Document 01: sound.
    #[tactic(auto, unfolding(crate::specs::Sonde::valid_sonde, crate::specs::Sonde::sensor_at))]
    pub fn is_valid(&self) -> bool
        ensures { result ≡ valid_sonde self.now }
    {
        address_valid(self.address)
            & self.sensors[0].is_valid(1)
            & self.sensors[1].is_valid(2)
            & self.sensors[2].is_valid(3)
            & self.sensors[3].is_valid(4)
    }

    // A measurement of a sensor.
    #[tactic(auto, unfolding(crate::specs::Sonde::measured_at, crate::specs::Sonde::with_sensor, crate::specs::Sonde::sensor_at))]
    pub fn measure(mut self, sensor: u16, raws: Option<Raws>) -> Self
        requires { IsSensor sensor }
        ensures { result ≡ measured_at self sensor raws }
    {
        let i = (sensor as usize) - 1;
        self.sensors[i] = self.sensors[i].measure(sensor, raws);
        self
    }
}
