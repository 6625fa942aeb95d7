// The methods of calibration, and the verdict on an update by one of them.

#![tactic(auto)]

ghost use Rattle.std.specs.Prelude.{◌≡◌, Ok};
ghost use Rattle.methods.specs.Methods.{method_of, method_number, values_of, points_of, candidate_of, verdict_of, judged_of, code_by};
ghost use Rattle.methods.specs.declared.Rejection.TheVariants.{Undefined as UndefinedBy};

use coefficients::{Coefficients, in_limits};
use refusals::codes::Code;

// What a technician notes at a point: x is the sensor's reading, y the standard's value.
#[repr(C)]
#[derive(Clone, Copy)]
pub struct Points {
    pub x1: f32,
    pub y1: f32,
    pub x2: f32,
    pub y2: f32,
}

impl Points {
    // In their order.
    pub fn values(self) -> [f32; 4]
        ensures { result ≡ values_of self }
    {
        [self.x1, self.y1, self.x2, self.y2]
    }
}

// Direct carries the three trial coefficients, one point x1 and y1, two points x1, y1, x2 and y2.
#[derive(Clone, Copy)]
pub enum Method {
    Direct(f32, f32, f32),
    OnePoint(f32, f32),
    TwoPoints(f32, f32, f32, f32),
}

// Why a method's points give no candidate.
#[derive(Clone, Copy, Debug, PartialEq, Eq)]
pub enum Undefined {
    // One point with x1 equal to 0.
    ZeroX,
    // Two points with x1 equal to x2.
    SameX,
}

// Why an update is not accepted.
#[derive(Clone, Copy)]
pub enum Rejection {
    // The candidate is finite, and only its limits refuse it.
    OutsideLimits(Coefficients),
    NotFinite,
    Undefined(Undefined),
}

impl From<Undefined> for Rejection {
    ghost from_gives = { λ cause rejection. rejection ≡ UndefinedBy cause };

    fn from(cause: Undefined) -> Rejection {
        Rejection::Undefined(cause)
    }
}

// The code that refuses the update.
impl From<Rejection> for Code {
    ghost from_gives = { λ rejection code. code ≡ code_by rejection };

    fn from(rejection: Rejection) -> Code {
        match rejection {
            Rejection::OutsideLimits(_) => Code::InvalidCalibration,
            Rejection::NotFinite => Code::InvalidCalibration,
            Rejection::Undefined(_) => Code::InvalidCalibration,
        }
    }
}

// The method that a method register's number names: 1 and 2, else direct. No `From`: it is made of three values.
#[tactic(auto, unfolding(crate::specs::Methods::method_of))]
pub fn method_of(number: u16, trial: Coefficients, points: Points) -> Method
    ensures { result ≡ method_of number trial points }
{
    match number {
        1 => Method::OnePoint(points.x1, points.y1),
        2 => Method::TwoPoints(points.x1, points.y1, points.x2, points.y2),
        _ => Method::Direct(trial.coefficient1, trial.coefficient2, trial.coefficient3),
    }
}

// A method's number in registers and journals.
impl From<Method> for u16 {
    ghost from_gives = { λ m number. number ≡ method_number m };

    fn from(m: Method) -> u16 {
        match m {
            Method::Direct(_, _, _) => 0,
            Method::OnePoint(_, _) => 1,
            Method::TwoPoints(_, _, _, _) => 2,
        }
    }
}

// The points that a method uses; the others are +0.0.
pub fn points_of(m: Method) -> Points
    ensures { result ≡ points_of m }
{
    match m {
        Method::Direct(_, _, _) => Points {
            x1: 0.0,
            y1: 0.0,
            x2: 0.0,
            y2: 0.0,
        },
        Method::OnePoint(x1, y1) => Points {
            x1,
            y1,
            x2: 0.0,
            y2: 0.0,
        },
        Method::TwoPoints(x1, y1, x2, y2) => Points { x1, y1, x2, y2 },
    }
}

// What a method gives before it is judged.
#[tactic(auto, unfolding(crate::specs::Methods::candidate_of))]
#[inline(never)]
pub fn candidate_of(m: Method) -> Result<Coefficients, Undefined>
    ensures { result ≡ candidate_of m }
{
    match m {
        Method::Direct(a, b, c) => Ok(Coefficients {
            coefficient1: a,
            coefficient2: b,
            coefficient3: c,
        }),
        Method::OnePoint(x1, y1) => {
            if x1 == 0.0 {
                return Err(Undefined::ZeroX);
            }
            Ok(Coefficients {
                coefficient1: 0.0,
                coefficient2: y1 / x1,
                coefficient3: 0.0,
            })
        }
        Method::TwoPoints(x1, y1, x2, y2) => {
            if x1 == x2 {
                return Err(Undefined::SameX);
            }
            let m = (y1 - y2) / (x1 - x2);
            Ok(Coefficients {
                coefficient1: y1 - m * x1,
                coefficient2: m,
                coefficient3: 0.0,
            })
        }
    }
}

// The verdict on coefficients for a sensor.
#[tactic(auto, unfolding(crate::specs::Methods::verdict_of))]
pub fn verdict_on(sensor: u16, c: Coefficients) -> Result<Coefficients, Rejection>
    ensures { result ≡ verdict_of sensor (Ok c) }
{
    if !c.is_finite() {
        return Err(Rejection::NotFinite);
    }
    if in_limits(sensor, c) {
        Ok(c)
    } else {
        Err(Rejection::OutsideLimits(c))
    }
}

// The verdict on an update of a sensor by a method.
#[tactic(auto, unfolding(crate::specs::Methods::judged_of, crate::specs::Methods::verdict_of))]
pub fn judge(sensor: u16, m: Method) -> Result<Coefficients, Rejection>
    ensures { result ≡ judged_of sensor m }
{
    let c = candidate_of(m)?;
    verdict_on(sensor, c)
}
