// The ten calls. The frame call is put together here: a function in between that takes a sonde and hands it back would cost a copy of it. `sonde_c`
// exports them for programs in C.

#![tactic(auto)]

ghost use Rattle.std.specs.Prelude.{◌≡◌};
ghost use Rattle.journal.specs.Stores.{append_up_to};
ghost use Rattle.page.specs.Print.{printed, print_of};
ghost use Rattle.recovery.specs.Salvage.{salvaged, salvage_of};
ghost use Rattle.rtu.specs.Rounds.{crc_word};
ghost use Rattle.service.specs.Calls.{begun, fresh_of, begin_of, power_up_of, measure_of, audit_of};
ghost use Rattle.service.specs.Frame.{arrival, outcome, frame_of};
ghost use Rattle.service.specs.Framings.{AnswersBytes};

use entries::Entry;
use page::SondePrint;
use recovery::SondeSalvage;
use refusals::numbers;
use service::{Arrival, SondeAudit, SondeFrame, SondeMade};
use state::Sonde;

pub fn sonde_fresh(address: u8) -> SondeMade
    ensures { result ≡ fresh_of address }
{
    calls::fresh(address)
}

pub fn sonde_begin(sonde: Sonde, volume: &mut [u16]) -> SondeMade
    ensures { begun result volume.new ≡ begin_of sonde volume.old }
{
    calls::begin(sonde, volume)
}

pub fn sonde_power_up(address: u8, volume: &[u16]) -> SondeMade
    ensures { result ≡ power_up_of address volume.now }
{
    calls::power_up(address, volume)
}

pub fn sonde_measure(sonde: Sonde, sensor: u8, present: bool, raw1: f32, raw2: f32) -> SondeMade
    ensures { result ≡ measure_of sonde sensor present raw1 raw2 }
{
    calls::measure(sonde, sensor, present, raw1, raw2)
}

// The numbers come first. Then what the frame carries is judged and answered from the parts of the sonde that it needs, and what it changes is put
// into the sonde once. An ASCII frame is decoded into bytes of the call's own; the body of an RTU frame is a part of it. Its port says how long a frame
// may be, and a read.
pub fn sonde_frame(
    mut sonde: Sonde,
    frame: &[u8],
    reply: &mut [u8],
    volume: &mut [u16],
    clock: u32,
    ascii: bool,
    port: u8,
) -> SondeFrame
    ensures as_defined { outcome result reply.new volume.new ≡ frame_of sonde frame.now reply.old volume.old (arrival clock ascii port) }
    ensures answers_bytes { AnswersBytes sonde frame.now reply.old volume.old (arrival clock ascii port) }
{
    let agreed = consistency::agrees(&sonde, volume);
    let carrier = match admission::admit(port, ascii, reply.len(), agreed) {
        Ok(carrier) => carrier,
        Err(refusal) => {
            return SondeFrame {
                number: u8::from(refusal),
                length: 0,
                sonde,
            };
        }
    };
    let mut decoded: [u8; 255] = [0; 255];
    let n = framing::decode(carrier, ascii, frame, &mut decoded);
    let body = framing::body(carrier, ascii, frame, &decoded[..n]);
    let judged = admission::judge(sonde.address, carrier, body);
    let i = admission::sensor_index(judged);
    let counters = sonde.counters;
    let technician = sonde.technician;
    let served = frames::serve(
        judged,
        body,
        reply,
        volume,
        sonde.address,
        counters,
        technician,
        &sonde.sensors[i],
        Arrival { clock, ascii, port },
    );
    let event = served.event;
    let after = sonde.counters.count(event);
    sonde.counters = after;
    sonde.technician = served.technician;
    let length = served.length;
    if let Some(setup) = served.change {
        let t = sonde.sensors[i].with_setup(setup);
        sonde.sensors[i] = t;
    }
    SondeFrame {
        number: numbers::DONE,
        length,
        sonde,
    }
}

pub fn sonde_audit(sonde: Sonde, volume: &[u16]) -> SondeAudit
    ensures { result ≡ audit_of sonde volume.now }
{
    calls::audit(sonde, volume)
}

pub fn sonde_print(volume: &[u16], page: &mut [u8]) -> SondePrint
    ensures { printed result page.new ≡ print_of volume.now page.old }
{
    printing::print(volume, page)
}

pub fn sonde_append(volume: &mut [u16], entry: Entry, stores: usize)
    ensures { volume.new ≡ append_up_to stores volume.old entry }
{
    recording::append(volume, entry, stores);
}

pub fn sonde_salvage(volume: &mut [u16]) -> SondeSalvage
    ensures { salvaged result volume.new ≡ salvage_of volume.old }
{
    salvage::salvage(volume)
}

pub fn sonde_crc_round(sum: u16, word: u16) -> u16
    ensures { result ≡ crc_word sum word }
{
    rtu::crc::round(sum, word)
}
