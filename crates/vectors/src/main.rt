// The library's CRC-16 compared with that of a table: the checksums of published frames, of every byte, and of messages of every length, and the
// round of every sum. What the program prints is held to its file stdout.

#![tactic(auto)]

mod table; // CRC-16 by a table

ghost use Rattle.std.specs.Iterator.{IsFinite};

use ports::Port;
use std::io;
use text::tally::{Summary, Tally, Verdict};
use words::Halves;

// The checksum that a frame carries, its last two bytes, low byte first; 0 where it has no two.
fn sent(frame: &[u8]) -> u16 {
    match frame {
        [.., low, high] => u16::join(*high, *low),
        _ => 0,
    }
}

// The frame of one line: the library, the table and the frame itself have one checksum, and the library takes the frame. What is printed is the
// verdict, both checksums, and the line as it was read.
fn compare_frame(rt: &impl Print, line: &[u8]) -> io::Result<bool> {
    let mut space = [0u8; 260];
    let n = text::decode(line, &mut space);
    let frame = &space[..n];
    let body = rtu::frame::body(frame);
    let longest = Port::Serial.limits().longest;
    let library = rtu::crc::crc16(body);
    let table = table::crc16(body);
    let agrees = (library == table)
        & (library == sent(frame))
        & rtu::frame::is_good(longest, frame);
    print!(rt; "{}{library:04x} {table:04x}  ", Verdict(agrees))?;
    rt.write_all(line)?;
    println!(rt)?;
    Ok(agrees)
}

// Every frame of the input.
fn compare_frames(rt: &impl Print, input: &[u8]) -> io::Result<Tally> {
    let mut tally = Tally::none();
    for line in input.split(|c| *c == b'\n') {
        if !text::is_passed_over(line) {
            tally = tally.with(compare_frame(rt, line)?);
        }
    }
    Ok(tally)
}

// Whether the library and the table give a message one checksum.
fn is_same(message: &[u8]) -> bool {
    rtu::crc::crc16(message) == table::crc16(message)
}

// Comparisons, counted.
fn counted<I: Iterator<Item = bool>>(comparisons: I) -> Tally
    requires can { I.can_next comparisons }
    requires ends { IsFinite (I.remaining comparisons) }
{
    comparisons.fold(Tally::none(), |tally, agrees| tally.with(agrees))
}

// Every byte as a message of its own, each of which takes another entry of the table.
fn sweep_bytes() -> Tally {
    counted((0..=255u8).map(|b| is_same(&[b])))
}

// 256 bytes, of which no two are equal.
fn pattern() -> [u8; 256] {
    std::array::from_fn(|i| ((i * 37 + 11) % 256) as u8)
}

// The first bytes of the pattern as a message, at every length.
fn sweep_lengths() -> Tally {
    let message = pattern();
    counted((0..=256usize).map(|n| is_same(&message[..n])))
}

// Whether the round of a sum and a word is the table's step of the low byte and then of the high byte.
fn is_round(sum: u16, word: u16) -> bool {
    rtu::crc::round(sum, word) == table::step(table::step(sum, word.low()), word.high())
}

// Every sum, each with a word of its own.
fn sweep_sums() -> Tally {
    counted((0..=0xFFFFu16).map(|sum| is_round(sum, sum.wrapping_mul(40503))))
}

fn print(rt: &impl Print, tally: Tally, what: &str) -> io::Result<()> {
    println!(rt; "{}", Summary { tally, what })
}

fn main(rt: HostRuntime) -> io::Result<()> {
    let mut space = [0u8; 131072];
    let n = text::read_full(&mut rt.reader(), &mut space)?;
    if n == space.len() {
        return text::print_cut_off(&rt);
    }
    let frames = compare_frames(&rt, &space[..n])?;
    print(&rt, sweep_bytes(), "messages of one byte, every byte")?;
    print(
        &rt,
        sweep_lengths(),
        "messages of one pattern, every length from 0 to 256",
    )?;
    print(&rt, sweep_sums(), "rounds, every sum")?;
    print(&rt, frames, "frames")
}
