// What a frame asks for: whether it is taken, its plan, and the sensor that it names.

#![tactic(auto)]

ghost use Rattle.std.specs.Prelude.{◌≡◌, ◌-◌, ◌<◌, ◌≤◌};
ghost use Rattle.admission.specs.Steps.{admitted, owner_of, judged_of};

use modbus::Header;
use plans::Plan;
use ports::Port;
use refusals::numbers::Refusal;

// What a frame asks for, with its header.
#[derive(Clone, Copy)]
pub struct Judged {
    pub header: Header,
    pub plan: Plan,
}

// The port of a frame that is taken at all, by the port's number, the framing, the bytes of its reply buffer and whether the sonde and its volume
// agree.
#[tactic(auto, unfolding(crate::specs::Steps::admitted))]
pub fn admit(number: u8, ascii: bool, room: usize, agreed: bool) -> Result<Port, Refusal>
    ensures { result ≡ admitted number ascii room agreed }
{
    let port = Port::of(number).ok_or(Refusal::NoPort)?;
    if room < framing::room(ascii) {
        return Err(Refusal::ShortReply);
    }
    if !agreed {
        return Err(Refusal::Disagreement);
    }
    Ok(port)
}

// The place of an owner's sensor; the device has none, and gets the first.
fn index(owner: u16) -> usize
    ensures { result ≡ owner - 1 }
{
    if owner == 0 {
        return 0;
    }
    (owner as usize) - 1
}

// The place of the sensor that a frame names; the first where it names none.
pub fn sensor_index(judged: Judged) -> usize
    requires { owner_of judged.plan ≤ 4 }
    ensures { (result ≡ owner_of judged.plan - 1) × (result < 4) }
{
    let plan = judged.plan;
    match plan {
        Plan::Reading { start, count: _ } => index(start / 100),
        Plan::Writing {
            owner,
            field: _,
            value: _,
        } => index(owner),
        _ => 0,
    }
}

// What the body that a frame carries, which came by this port, asks of the sonde with this address; no bytes are a bad frame's.
#[tactic(auto, unfolding(framing::specs::Steps::carried_by))]
#[inline(never)]
pub fn judge(own: u8, port: Port, body: &[u8]) -> Judged
    ensures { result ≡ judged_of own port body.now }
{
    let header = modbus::header_of(body);
    if body.len() == 0 {
        return Judged {
            header,
            plan: Plan::Bad,
        };
    }
    Judged {
        header,
        plan: plans::plan_of(own, port, header, body),
    }
}
