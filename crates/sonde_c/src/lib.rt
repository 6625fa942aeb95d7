// The ten calls of `sonde` under their names for programs in C, as include/sonde.h declares them. A slice is a pointer and a length there.

#![tactic(auto)]

ghost use Rattle.std.specs.Prelude.{◌≡◌};
ghost use Rattle.journal.specs.Stores.{append_up_to};
ghost use Rattle.page.specs.Print.{printed, print_of};
ghost use Rattle.recovery.specs.Salvage.{salvaged, salvage_of};
ghost use Rattle.rtu.specs.Rounds.{crc_word};
ghost use Rattle.service.specs.Calls.{begun, fresh_of, begin_of, power_up_of, measure_of, audit_of};
ghost use Rattle.service.specs.Frame.{arrival, outcome, frame_of};
ghost use Rattle.service.specs.Framings.{AnswersBytes};

use entries::Entry;
use page::SondePrint;
use recovery::SondeSalvage;
use service::{SondeAudit, SondeFrame, SondeMade};
use state::Sonde;

#[unsafe(no_mangle)]
pub extern "C" fn sonde_fresh(address: u8) -> SondeMade
    ensures { result ≡ fresh_of address }
{
    sonde::sonde_fresh(address)
}

#[unsafe(no_mangle)]
pub extern "C" fn sonde_begin(sonde: Sonde, volume: &mut [u16]) -> SondeMade
    ensures { begun result volume.new ≡ begin_of sonde volume.old }
{
    sonde::sonde_begin(sonde, volume)
}

#[unsafe(no_mangle)]
pub extern "C" fn sonde_power_up(address: u8, volume: &[u16]) -> SondeMade
    ensures { result ≡ power_up_of address volume.now }
{
    sonde::sonde_power_up(address, volume)
}

#[unsafe(no_mangle)]
pub extern "C" fn sonde_measure(
    sonde: Sonde,
    sensor: u8,
    present: bool,
    raw1: f32,
    raw2: f32,
) -> SondeMade
    ensures { result ≡ measure_of sonde sensor present raw1 raw2 }
{
    sonde::sonde_measure(sonde, sensor, present, raw1, raw2)
}

#[unsafe(no_mangle)]
pub extern "C" fn sonde_frame(
    sonde: Sonde,
    frame: &[u8],
    reply: &mut [u8],
    volume: &mut [u16],
    clock: u32,
    ascii: bool,
    port: u8,
) -> SondeFrame
    ensures as_defined { outcome result reply.new volume.new ≡ frame_of sonde frame.now reply.old volume.old (arrival clock ascii port) }
    ensures answers_bytes { AnswersBytes sonde frame.now reply.old volume.old (arrival clock ascii port) }
{
    sonde::sonde_frame(sonde, frame, reply, volume, clock, ascii, port)
}

#[unsafe(no_mangle)]
pub extern "C" fn sonde_audit(sonde: Sonde, volume: &[u16]) -> SondeAudit
    ensures { result ≡ audit_of sonde volume.now }
{
    sonde::sonde_audit(sonde, volume)
}

#[unsafe(no_mangle)]
pub extern "C" fn sonde_print(volume: &[u16], page: &mut [u8]) -> SondePrint
    ensures { printed result page.new ≡ print_of volume.now page.old }
{
    sonde::sonde_print(volume, page)
}

#[unsafe(no_mangle)]
pub extern "C" fn sonde_append(volume: &mut [u16], entry: Entry, stores: usize)
    ensures { volume.new ≡ append_up_to stores volume.old entry }
{
    sonde::sonde_append(volume, entry, stores);
}

#[unsafe(no_mangle)]
pub extern "C" fn sonde_salvage(volume: &mut [u16]) -> SondeSalvage
    ensures { salvaged result volume.new ≡ salvage_of volume.old }
{
    sonde::sonde_salvage(volume)
}

#[unsafe(no_mangle)]
pub extern "C" fn sonde_crc_round(sum: u16, word: u16) -> u16
    ensures { result ≡ crc_word sum word }
{
    sonde::sonde_crc_round(sum, word)
}
