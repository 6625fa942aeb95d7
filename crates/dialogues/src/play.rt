// Dialogues, played through the calls and compared with the answers that stand in them. tests/dialogues/reference.py says what their
// lines mean.
ghost use Rattle.std.specs.Prelude.{length};
ghost use Rattle.std.specs.Iterator.{at_most};

use crate::scene::{Answer, Scene};
use std::io;
use text::tally::{Tally, Verdict};

// The words of the volume: two entries more than a capacity counts.
const WORDS: usize = 24112;

// A dialogue in play.
#[derive(Clone, Copy)]
struct Run {
    scene: Scene,
    tally: Tally,
}

// An answer that differs: the line, the number, the reply's length or the entries in use, and so many bytes of the reply.
fn print_difference(rt: &impl Print, line: &[u8], scene: Scene, reply: &[u8]) -> io::Result<()> {
    print!(rt; "{}", Verdict(false))?;
    rt.write_all(line)?;
    print!(rt;
        "\n    for {:02x} {:04x}",
        scene.given.number, scene.given.count
    )?;
    for byte in reply.get(..scene.given.count as usize).unwrap_or(&[]) {
        print!(rt; " {byte:02x}")?;
    }
    println!(rt)
}

// Whether the last call gave what a line says.
fn compare(
    rt: &impl Print,
    scene: Scene,
    answer: Answer,
    line: &[u8],
    spelled: &[u8],
    reply: &[u8],
) -> io::Result<bool> {
    let agrees = scene.agrees(answer, spelled, reply);
    if !agrees {
        print_difference(rt, line, scene, reply)?;
    }
    Ok(agrees)
}

// One line: a call, an answer to compare, or neither. The longest spells the 515 characters of an ASCII frame that is too long by a byte.
fn turn(
    rt: &impl Print,
    mut run: Run,
    line: &[u8],
    reply: &mut [u8],
    volume: &mut [u16],
) -> io::Result<Run> {
    if text::is_passed_over(line) {
        return Ok(run);
    }
    let name_end = text::find(line, 0, b' ');
    let mut space = [0u8; 520];
    let n = text::decode(&line[name_end..], &mut space);
    let spelled = &space[..n];
    let scene = run.scene;
    match Answer::try_from(text::character(line, 0)) {
        Ok(answer) => {
            let agrees = compare(rt, scene, answer, line, spelled, reply)?;
            run.tally = run.tally.with(agrees);
        }
        Err(call) => run.scene = scene.call(call, spelled, reply, volume),
    }
    Ok(run)
}

// The lines of a dialogue after its name.
fn play(rt: &impl Print, lines: &[u8]) -> io::Result<Tally> {
    let mut volume = [0u16; WORDS];
    let mut reply = [0u8; 513];
    let mut run = Run {
        scene: Scene::start(),
        tally: Tally::none(),
    };
    for line in lines.split(|c| *c == b'\n') {
        run = turn(rt, run, line, &mut reply, &mut volume)?;
    }
    Ok(run.tally)
}

// The verdict on a dialogue, its line as it was read, and how many answers were compared.
fn print_dialogue(rt: &impl Print, tally: Tally, line: &[u8]) -> io::Result<()> {
    print!(rt; "{}", Verdict(tally.differ == 0))?;
    rt.write_all(line)?;
    println!(rt; ": {} answers", tally.compared)
}

// The parts of a text: a new one begins with each line that begins with `*`.
#[derive(Drop)]
struct Parts<'a>(&'a [u8]);

impl<'a> Iterator for Parts<'a> {
    type Item = &'a [u8];

    ghost remaining = { λ s. at_most (length s.0.now) };

    fn next(&mut self) -> Option<&'a [u8]> {
        if self.0.is_empty() {
            return None;
        }
        let end = text::part_end(self.0, 0, b'*');
        let part = &self.0[..end];
        self.0 = self.0.get(end + 1..).unwrap_or(&[]);
        Some(part)
    }
}

// Every dialogue of a text.
pub fn play_all(rt: &impl Print, input: &[u8]) -> io::Result<Tally> {
    let mut tally = Tally::none();
    for part in Parts(input) {
        if text::character(part, 0) == b'*' {
            let (name, lines) = part.split_at(text::find(part, 0, b'\n'));
            let played = play(rt, lines)?;
            print_dialogue(rt, played, name)?;
            tally = tally.with(played.differ == 0);
        }
    }
    Ok(tally)
}
