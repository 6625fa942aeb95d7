// The commands of a calibration, and what a write answers: refused by a code, the setup that a failed update leaves, the new setup, for an accepted
// update the new setup and the entry to append, or the device's new technician number.

#![tactic(auto)]

ghost use Rattle.std.specs.Prelude.{◌≡◌};
ghost use Rattle.commands.specs.Commands.{context_of, updated, commanded, code_of, setup_after, technician_after};

use entries::{Entry, entry_of};
use methods::{Rejection, judge, method_of};
use refusals::codes::Code;
use registers::Device;
use sensors::Setup;

// What an update takes from outside the sensor's setup: the time, whether the journal has room for an entry, and the technician's number.
#[derive(Clone, Copy)]
pub struct Context {
    pub clock: u32,
    pub spare: bool,
    pub technician: u16,
}

// The device's values have all of it.
pub fn context_of(device: Device) -> Context
    ensures { result ≡ context_of device }
{
    Context {
        clock: device.clock,
        spare: device.used < device.capacity,
        technician: device.technician,
    }
}

#[derive(Clone, Copy)]
pub enum Written {
    Refused(Code),
    // An update that is refused for its limits alone (0x97), with its candidate in the trial coefficients.
    Failed(Setup),
    Stored(Setup),
    Updated(Setup, Entry),
    // The device's technician number; no sensor's setup changes.
    Technician(u16),
}

// The code that refuses the write, if one does.
pub fn code_of(w: Written) -> Option<Code>
    ensures { result ≡ code_of w }
{
    match w {
        Written::Refused(code) => Some(code),
        Written::Failed(_) => Some(Code::InvalidCalibration),
        _ => None,
    }
}

// The setup that an answer leaves of the one before.
pub fn setup_after(w: Written, s: Setup) -> Setup
    ensures { result ≡ setup_after s w }
{
    match w {
        Written::Refused(_) => s,
        Written::Failed(t) => t,
        Written::Stored(t) => t,
        Written::Updated(t, _) => t,
        Written::Technician(_) => s,
    }
}

// The technician's number that an answer leaves of the one before.
pub fn technician_after(w: Written, technician: u16) -> u16
    ensures { result ≡ technician_after technician w }
{
    match w {
        Written::Technician(n) => n,
        _ => technician,
    }
}

// Command 0xE001.
#[tactic(auto, unfolding(crate::specs::Commands::updated))]
fn update(sensor: u16, s: Setup, context: Context) -> Written
    ensures { result ≡ updated sensor s context }
{
    let p = s.procedure;
    let calibrating = p.calibrating;
    if !calibrating {
        return Written::Refused(Code::SensorMode);
    }
    let m = method_of(p.method, p.trial, p.points);
    match judge(sensor, m) {
        Ok(c) => {
            let spare = context.spare;
            if !spare {
                return Written::Refused(Code::JournalFull);
            }
            Written::Updated(
                s.calibrate(c, context.clock),
                entry_of(sensor, m, c, context.clock, context.technician),
            )
        }
        Err(Rejection::OutsideLimits(c)) => Written::Failed(s.with_trial(c)),
        Err(rejection) => Written::Refused(Code::from(rejection)),
    }
}

// The command register.
#[tactic(auto, unfolding(crate::specs::Commands::commanded))]
pub fn command(sensor: u16, s: Setup, value: u16, context: Context) -> Written
    ensures { result ≡ commanded sensor s value context }
{
    let calibrating = s.procedure.calibrating;
    match value {
        0xE000 => {
            if calibrating {
                return Written::Stored(s);
            }
            Written::Stored(s.restart(true))
        }
        0xE001 => update(sensor, s, context),
        0xE002 => {
            if calibrating {
                return Written::Stored(s.restart(false));
            }
            Written::Stored(s)
        }
        _ => Written::Refused(Code::WriteValue),
    }
}
