// What a write of one whole field does: to a sensor's setup, or to the device.

#![tactic(auto)]

ghost use Rattle.std.specs.Prelude.{◌≡◌, ◌≤◌};
ghost use Rattle.writes.specs.Writes.{next_written, method_written, trial_at, point_at, with_sentinel, with_float, float_written, level_written, units_written, parameter_written, field_written, write_of, write_to};

use coefficients::Coefficients;
use commands::{Context, Written, command};
use entries::method_allowed;
use fields::{Access, Field};
use methods::Points;
use parameters::Quantity;
use refusals::codes::Code;
use sensors::{Parameters, Setup};
use words::Halves;

// The next calibration's time.
#[tactic(auto, unfolding(crate::specs::Writes::next_written))]
fn write_next(mut s: Setup, high: u16, low: u16) -> Written
    ensures { result ≡ next_written s high low }
{
    s.active.next = u32::join(high, low);
    Written::Stored(s)
}

#[tactic(auto, unfolding(crate::specs::Writes::method_written))]
fn write_method(sensor: u16, mut s: Setup, value: u16) -> Written
    ensures { result ≡ method_written sensor s value }
{
    if !method_allowed(sensor, value) {
        return Written::Refused(Code::WriteValue);
    }
    s.procedure.method = value;
    Written::Stored(s)
}

// The trial coefficients with the one at this offset replaced.
#[tactic(auto, unfolding(crate::specs::Writes::trial_at))]
fn trial_at(mut c: Coefficients, offset: u16, x: f32) -> Coefficients
    ensures { result ≡ trial_at c offset x }
{
    match offset {
        10 => c.coefficient1 = x,
        12 => c.coefficient2 = x,
        _ => c.coefficient3 = x,
    }
    c
}

// The points with the value at this offset replaced.
#[tactic(auto, unfolding(crate::specs::Writes::point_at))]
fn point_at(mut p: Points, offset: u16, x: f32) -> Points
    ensures { result ≡ point_at p offset x }
{
    match offset {
        16 => p.x1 = x,
        18 => p.y1 = x,
        20 => p.x2 = x,
        _ => p.y2 = x,
    }
    p
}

// The parameters with the sentinel of parameter k replaced.
#[tactic(auto, unfolding(crate::specs::Writes::with_sentinel))]
fn with_sentinel(q: Parameters, k: u16, x: f32) -> Parameters
    ensures { result ≡ with_sentinel q k x }
{
    let mut p = q.parameter(k);
    p.sentinel = x;
    q.with_parameter(k, p)
}

// The setup with the float at this offset replaced: a trial coefficient, a value of the points, or a sentinel.
#[tactic(auto, unfolding(crate::specs::Writes::with_float))]
fn with_float(mut s: Setup, offset: u16, x: f32) -> Setup
    ensures { result ≡ with_float s offset x }
{
    let mut p = s.procedure;
    if offset < 16 {
        return s.with_trial(trial_at(p.trial, offset, x));
    }
    if offset < 30 {
        let points = point_at(p.points, offset, x);
        p.points = points;
        s.procedure = p;
        return s;
    }
    let q = with_sentinel(s.parameters, (offset - 30) / 8 + 1, x);
    s.parameters = q;
    s
}

#[tactic(auto, unfolding(crate::specs::Writes::float_written))]
fn write_float(s: Setup, offset: u16, high: u16, low: u16) -> Written
    ensures { result ≡ float_written s offset high low }
{
    match floats::float_of(high, low) {
        Some(x) => Written::Stored(with_float(s, offset, x)),
        None => Written::Refused(Code::WriteValue),
    }
}

// The id of the level.
#[tactic(auto, unfolding(crate::specs::Writes::level_written))]
fn write_level(mut s: Setup, value: u16) -> Written
    ensures { result ≡ level_written s value }
{
    if !parameters::level_allowed(value) {
        return Written::Refused(Code::WriteValue);
    }
    s.parameters.level = value;
    Written::Stored(s)
}

#[tactic(auto, unfolding(crate::specs::Writes::units_written))]
fn write_units(sensor: u16, mut s: Setup, k: u16, value: u16) -> Written
    ensures { result ≡ units_written sensor s k value }
{
    let quantity = Quantity::of(sensor, k);
    if !quantity.is_some_and(|quantity| quantity.allows(value)) {
        return Written::Refused(Code::WriteValue);
    }
    let mut p = s.parameters.parameter(k);
    p.units = value;
    s.parameters = s.parameters.with_parameter(k, p);
    Written::Stored(s)
}

// A register of a parameter. No field that can be written is at a part other than 2, 3 and 5.
#[tactic(auto, unfolding(crate::specs::Writes::parameter_written))]
fn write_parameter(sensor: u16, s: Setup, offset: u16, high: u16, low: u16) -> Written
    requires { 30 ≤ offset }
    ensures { result ≡ parameter_written sensor s offset high low }
{
    let part = (offset - 30) % 8;
    match part {
        2 => write_level(s, high),
        3 => write_units(sensor, s, (offset - 30) / 8 + 1, high),
        5 => write_float(s, offset, high, low),
        _ => Written::Refused(Code::WriteValue),
    }
}

// The field at this offset, once the mode allows the write. No field that can be written is at an offset outside these ranges.
#[tactic(auto, unfolding(crate::specs::Writes::field_written))]
fn write_field(sensor: u16, s: Setup, offset: u16, high: u16, low: u16, context: Context) -> Written
    ensures { result ≡ field_written sensor s offset high low context }
{
    match offset {
        3 => write_next(s, high, low),
        5 => command(sensor, s, high, context),
        6 => write_method(sensor, s, high),
        10..=23 => write_float(s, offset, high, low),
        30..=53 => write_parameter(sensor, s, offset, high, low),
        _ => Written::Refused(Code::WriteValue),
    }
}

// The write of a sensor's field that isn't read-only, its value in one word (`high`) or in two.
#[tactic(auto, unfolding(crate::specs::Writes::write_of))]
fn write_sensor(
    sensor: u16,
    s: Setup,
    field: Field,
    high: u16,
    low: u16,
    context: Context,
) -> Written
    ensures { result ≡ write_of sensor s field high low context }
{
    let calibrating = s.procedure.calibrating;
    if (field.access == Access::Modal) & !calibrating {
        return Written::Refused(Code::SensorMode);
    }
    write_field(sensor, s, field.offset, high, low, context)
}

// The write of an owner's field that isn't read-only: the device's one is the technician's number, which any word is; else a sensor's.
#[tactic(auto, unfolding(crate::specs::Writes::write_to, crate::specs::Writes::device_written))]
#[inline(never)]
pub fn write(owner: u16, s: Setup, field: Field, high: u16, low: u16, context: Context) -> Written
    ensures { result ≡ write_to owner s field high low context }
{
    if owner == 0 {
        return Written::Technician(high);
    }
    write_sensor(owner, s, field, high, low, context)
}
