// What comes of a frame, from the parts of the sonde that it needs. The frame call is put together in `sonde`.

#![tactic(auto)]

ghost use Rattle.std.specs.Prelude.{◌≡◌, ◌≤◌, length};
ghost use Rattle.words.specs.Overlay.{overlay};
ghost use Rattle.words.specs.Bytes.{Bytes};
ghost use Rattle.framing.specs.Framing.{room_in};
ghost use Rattle.framing.specs.Steps.{carried_by};
ghost use Rattle.plans.proofs.Plans.{Facts};
ghost use Rattle.replies.specs.Reply.{reply_of};
ghost use Rattle.service.specs.Reads.{device_of};
ghost use Rattle.service.specs.Frame.{port_in};
ghost use Rattle.admission.specs.Steps.{judged_of};
ghost use Rattle.execution.specs.Steps.{effect_of};
ghost use Rattle.frames.specs.Steps.{step_of, step_for, served_of};

use admission::Judged;
use execution::Effect;
use modbus::Header;
use plans::Plan;
use sensors::{Sensor, Setup};
use service::Arrival;
use state::{Counters, Event};

// What comes of a frame: how it counts, the length of its reply, the setup that it leaves the sensor that it names, if it changes it,
// and the technician's number that it leaves.
#[derive(Clone, Copy)]
pub struct Served {
    pub event: Event,
    pub length: u16,
    pub change: Option<Setup>,
    pub technician: u16,
}

// A frame that changes nothing but the counters.
fn counted(event: Event, size: usize, technician: u16) -> Effect
    ensures { result ≡ record { event = event; size = size; change = None; technician = technician } }
{
    Effect {
        event,
        size,
        change: None,
        technician,
    }
}

// What comes of a plan.
#[inline(always)]
fn answer(
    plan: Plan,
    reply: &mut [u8],
    volume: &mut [u16],
    own: u8,
    counters: Counters,
    technician: u16,
    sensor: &Sensor,
    header: Header,
    body: &[u8],
    arrival: Arrival,
) -> Effect
    requires { (256 ≤ length reply.old) × (length body.now ≤ 254) × Facts body.now plan }
    ensures value { result ≡ effect_of (step_of own (device_of counters technician volume.old arrival) sensor.now header body.now volume.old plan) }
    ensures reply_after { reply.new ≡ overlay (step_of own (device_of counters technician volume.old arrival) sensor.now header body.now volume.old plan).body reply.old }
    ensures volume_after { volume.new ≡ (step_of own (device_of counters technician volume.old arrival) sensor.now header body.now volume.old plan).volume }
{
    match plan {
        Plan::Bad => counted(Event::Bad, 0, technician),
        Plan::Foreign => counted(Event::Uncounted, 0, technician),
        Plan::BroadcastRead => counted(Event::Good, 0, technician),
        Plan::Refused(code) => counted(
            Event::Exception,
            execution::refuse(reply, header, u8::from(code)),
            technician,
        ),
        Plan::Reading { start, count } => counted(
            Event::Good,
            reads::read(
                reply,
                own,
                &reads::device(counters, technician, volume, arrival),
                sensor,
                start,
                count,
            ),
            technician,
        ),
        Plan::Writing {
            owner,
            field,
            value,
        } => execution::write(
            reply,
            volume,
            header,
            body,
            &reads::device(counters, technician, volume, arrival),
            owner,
            sensor,
            field,
            value,
        ),
    }
}

// What comes of a frame whose body was judged. Of the sonde it needs the address, the counters, the technician's number and the sensor
// that the frame names.
#[inline(never)]
pub fn serve(
    judged: Judged,
    body: &[u8],
    reply: &mut [u8],
    volume: &mut [u16],
    own: u8,
    counters: Counters,
    technician: u16,
    sensor: &Sensor,
    arrival: Arrival,
) -> Served
    requires { (room_in arrival.ascii ≤ length reply.old) × (length body.now ≤ 254) × (judged ≡ judged_of own (port_in arrival) body.now) }
    ensures value { result ≡ served_of arrival.ascii (step_for own (port_in arrival) (device_of counters technician volume.old arrival) sensor.now (carried_by body.now) volume.old) }
    ensures reply_after { reply.new ≡ overlay (reply_of arrival.ascii (step_for own (port_in arrival) (device_of counters technician volume.old arrival) sensor.now (carried_by body.now) volume.old).body) reply.old }
    ensures volume_after { volume.new ≡ (step_for own (port_in arrival) (device_of counters technician volume.old arrival) sensor.now (carried_by body.now) volume.old).volume }
    ensures bytes { Bytes (step_for own (port_in arrival) (device_of counters technician volume.old arrival) sensor.now (carried_by body.now) volume.old).body }
{
    let plan = judged.plan;
    let effect = answer(
        plan,
        reply,
        volume,
        own,
        counters,
        technician,
        sensor,
        judged.header,
        body,
        arrival,
    );
    let event = effect.event;
    let change = effect.change;
    let after = effect.technician;
    Served {
        event,
        length: replies::seal(arrival.ascii, reply, effect.size),
        change,
        technician: after,
    }
}
