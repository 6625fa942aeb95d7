// The coefficients of a sensor, the limits that an update has to keep, and a calibration: coefficients and their time.

#![tactic(auto)]

ghost use Rattle.std.specs.Prelude.{◌≡◌};
ghost use Rattle.floats.specs.Floats.{within as within_of};
ghost use Rattle.coefficients.specs.Coefficients.{values_of, all_finite, same_coefficients, same_calibration, calibration_of, coefficients_of, defaults_of, in_limits};

// Document 01: figures 1, 2 and 3.
#[repr(C)]
#[derive(Clone, Copy)]
pub struct Coefficients {
    pub coefficient1: f32,
    pub coefficient2: f32,
    pub coefficient3: f32,
}

// Coefficients with the time of their calibration. Document 01: figures in force with last calibration. The three stand here again, and not as
// one field, since the struct is C's.
#[repr(C)]
#[derive(Clone, Copy)]
pub struct Calibration {
    pub coefficient1: f32,
    pub coefficient2: f32,
    pub coefficient3: f32,
    pub time: u32,
}

impl Coefficients {
    // The coefficients that a sensor has when fresh; those of sensors 1, 2 and 4 are the same.
    #[tactic(auto, using(floats::proofs::Words::one), unfolding(crate::specs::Coefficients::defaults_of))]
    pub fn defaults(sensor: u16) -> Self
        ensures { result ≡ defaults_of sensor }
    {
        if sensor == 3 {
            return Coefficients {
                coefficient1: 0.0,
                coefficient2: 0.0,
                coefficient3: 0.0,
            };
        }
        Coefficients {
            coefficient1: 0.0,
            coefficient2: 1.0,
            coefficient3: 0.0,
        }
    }

    // In their order.
    pub fn values(self) -> [f32; 3]
        ensures { result ≡ values_of self }
    {
        [self.coefficient1, self.coefficient2, self.coefficient3]
    }

    #[tactic(auto, using(floats::proofs::Bools::three), unfolding(crate::specs::Coefficients::all_finite))]
    pub fn is_finite(self) -> bool
        ensures { result ≡ all_finite self }
    {
        floats::all_finite(self.values())
    }

    // Equality in every bit, where a derived one would take the zeros for one.
    #[tactic(auto, using(floats::proofs::Bools::three), unfolding(crate::specs::Coefficients::same_coefficients))]
    pub fn same_bits(self, other: Coefficients) -> bool
        ensures { result ≡ same_coefficients self other }
    {
        floats::all_same(self.values(), other.values())
    }

    // These coefficients, calibrated at a time.
    pub fn calibration(self, time: u32) -> Calibration
        ensures { result ≡ calibration_of self time }
    {
        Calibration {
            coefficient1: self.coefficient1,
            coefficient2: self.coefficient2,
            coefficient3: self.coefficient3,
            time,
        }
    }
}

impl Calibration {
    pub fn coefficients(self) -> Coefficients
        ensures { result ≡ coefficients_of self }
    {
        Coefficients {
            coefficient1: self.coefficient1,
            coefficient2: self.coefficient2,
            coefficient3: self.coefficient3,
        }
    }

    // Equality in every bit, the time's too.
    #[tactic(auto, unfolding(crate::specs::Coefficients::same_calibration))]
    pub fn same_bits(self, other: Calibration) -> bool
        ensures { result ≡ same_calibration self other }
    {
        let mine = self.coefficients();
        let others = other.coefficients();
        mine.same_bits(others) & (self.time == other.time)
    }
}

fn within(low: f32, high: f32, x: f32) -> bool
    ensures { result ≡ within_of low high x }
{
    (low <= x) & (x <= high)
}

// The table of limits; a number that is no sensor has none. A match of numbers, since a sensor is a word of the volume and of C's structs.
#[tactic(auto, unfolding(crate::specs::Coefficients::in_limits))]
#[inline(never)]
pub fn in_limits(sensor: u16, c: Coefficients) -> bool
    ensures { result ≡ in_limits sensor c }
{
    match sensor {
        1 => within(-100.0, 100.0, c.coefficient1)
            & within(0.25, 4.0, c.coefficient2)
            & floats::is_plus_zero(c.coefficient3),
        2 => within(-0.2, 0.2, c.coefficient1)
            & within(0.85, 1.20, c.coefficient2)
            & floats::is_plus_zero(c.coefficient3),
        3 => within(-10.0, 10.0, c.coefficient1)
            & within(-10000.0, 10000.0, c.coefficient2)
            & within(-10.0, 2000.0, c.coefficient3),
        4 => within(-100.0, 100.0, c.coefficient1)
            & within(0.125, 8.0, c.coefficient2)
            & floats::is_plus_zero(c.coefficient3),
        _ => false,
    }
}
