// The library's answers to dialogues compared with those of tests/dialogues/reference.py, which writes them. What the program prints is held
// to its file stdout.

#![tactic(auto)]

mod play; // lines of calls and answers
mod scene; // the sonde of a dialogue

use std::io;
use text::tally::Summary;

fn main(rt: HostRuntime) -> io::Result<()> {
    let mut space = [0u8; 196608];
    let n = text::read_full(&mut rt.reader(), &mut space)?;
    if n == space.len() {
        return text::print_cut_off(&rt);
    }
    let tally = play::play_all(&rt, &space[..n])?;
    println!(rt;
        "{}",
        Summary {
            tally,
            what: "dialogues"
        }
    )
}
