// A sonde in a dialogue, and the calls that the dialogue's lines make on it.
ghost use Rattle.std.specs.Prelude.{◌≤◌};

use coefficients::Calibration;
use entries::Entry;
use methods::Points;
use service::SondeMade;
use state::Sonde;
use text::character;
use words::Halves;

// What a call gave: its number, and the length of a frame's reply, the entries in use of an audit, the words that a salvage changed, or a word
// of the volume.
#[derive(Clone, Copy, PartialEq, Eq)]
pub struct Given {
    pub number: u8,
    pub count: u16,
}

// How a line says what the last call gave: `<` by the reply's bytes, `=` by the number, with the entries in use for an audit, the words that a
// salvage changed and the word that was looked at.
#[derive(Clone, Copy)]
pub enum Answer {
    Reply,
    Given,
}

// By the first character of a line; that of any other line comes back.
impl TryFrom<u8> for Answer {
    type Error = u8;

    fn try_from(name: u8) -> Result<Answer, u8> {
        match name {
            b'<' => Ok(Answer::Reply),
            b'=' => Ok(Answer::Given),
            _ => Err(name),
        }
    }
}

// The sonde, the clock and the port of its frames, how many words its volume has, how many bytes of the reply buffer its frames are lent, and
// what the last call gave.
#[derive(Clone, Copy)]
pub struct Scene {
    pub sonde: Sonde,
    pub clock: u32,
    pub port: u8,
    pub words: usize,
    pub room: usize,
    pub given: Given,
}

// The word that begins at a byte; bytes that aren't there are 0.
fn word(spelled: &[u8], at: usize) -> u16
    requires { at ≤ 64 }
{
    u16::join(character(spelled, at), character(spelled, at + 1))
}

// The time that begins at a byte.
fn time(spelled: &[u8], at: usize) -> u32
    requires { at ≤ 62 }
{
    u32::join(word(spelled, at), word(spelled, at + 2))
}

// The first n of a buffer, as a call is lent them: none if it has fewer.
fn lent<T>(buffer: &mut [T], n: usize) -> &mut [T] {
    match buffer.get_mut(..n) {
        Some(part) => part,
        None => &mut [],
    }
}

// The float that begins at a byte; an infinity stands for whatever isn't finite.
fn float(spelled: &[u8], at: usize) -> f32
    requires { at ≤ 62 }
{
    floats::float_of(word(spelled, at), word(spelled, at + 2)).unwrap_or(f32::INFINITY)
}

// The calibration of a line's entry.
fn calibration(spelled: &[u8]) -> Calibration {
    Calibration {
        coefficient1: float(spelled, 11),
        coefficient2: float(spelled, 15),
        coefficient3: float(spelled, 19),
        time: time(spelled, 7),
    }
}

// The points of a line's entry.
fn points(spelled: &[u8]) -> Points {
    Points {
        x1: float(spelled, 23),
        y1: float(spelled, 27),
        x2: float(spelled, 31),
        y2: float(spelled, 35),
    }
}

// The entry of a line, whose first byte says how many of its stores are made.
fn entry(spelled: &[u8]) -> Entry {
    Entry {
        sensor: word(spelled, 1),
        method: word(spelled, 3),
        technician: word(spelled, 5),
        calibration: calibration(spelled),
        points: points(spelled),
    }
}

impl Scene {
    pub fn start() -> Scene {
        Scene {
            sonde: Sonde::fresh(1),
            clock: 0,
            port: 1,
            words: 0,
            room: 513,
            given: Given {
                number: 0,
                count: 0,
            },
        }
    }

    // What a call gave that left the sonde as it was.
    fn gave(mut self, number: u8, count: u16) -> Scene {
        self.given = Given { number, count };
        self
    }

    // The sonde that a call made; where it was refused, the sonde before it goes on.
    fn made(mut self, made: SondeMade) -> Scene {
        if made.number != 0 {
            return self.gave(made.number, 0);
        }
        let sonde = made.sonde;
        self.sonde = sonde;
        self.gave(0, 0)
    }

    fn set_clock(mut self, spelled: &[u8]) -> Scene {
        self.clock = time(spelled, 0);
        self
    }

    fn set_port(mut self, spelled: &[u8]) -> Scene {
        self.port = character(spelled, 0);
        self
    }

    fn set_room(mut self, spelled: &[u8]) -> Scene {
        self.room = word(spelled, 0) as usize;
        self
    }

    fn begin(mut self, spelled: &[u8], volume: &mut [u16]) -> Scene {
        let part = lent(volume, word(spelled, 0) as usize);
        let words = part.len();
        let begun = sonde::sonde_begin(self.sonde, part);
        if begun.number == 0 {
            self.words = words;
        }
        self.made(begun)
    }

    fn power_up(self, spelled: &[u8], volume: &mut [u16]) -> Scene {
        self.made(sonde::sonde_power_up(character(spelled, 0), lent(volume, self.words)))
    }

    fn measure(self, spelled: &[u8]) -> Scene {
        let present = character(spelled, 1) != 0;
        self.made(sonde::sonde_measure(
            self.sonde,
            character(spelled, 0),
            present,
            float(spelled, 2),
            float(spelled, 6),
        ))
    }

    fn audit(self, volume: &mut [u16]) -> Scene {
        let a = sonde::sonde_audit(self.sonde, lent(volume, self.words));
        self.gave(a.number, a.entries)
    }

    fn append(self, spelled: &[u8], volume: &mut [u16]) -> Scene {
        let stores = character(spelled, 0) as usize;
        sonde::sonde_append(lent(volume, self.words), entry(spelled), stores);
        self.gave(0, 0)
    }

    fn salvage(self, volume: &mut [u16]) -> Scene {
        let s = sonde::sonde_salvage(lent(volume, self.words));
        self.gave(s.number, s.changed)
    }

    // A word of the volume becomes another; nothing where it has no such word.
    fn damage(self, spelled: &[u8], volume: &mut [u16]) -> Scene {
        if let Some(x) = lent(volume, self.words).get_mut(word(spelled, 0) as usize) {
            *x = word(spelled, 2);
        }
        self.gave(0, 0)
    }

    // A word of the volume; 0 for one that it doesn't have.
    fn look(self, spelled: &[u8], volume: &mut [u16]) -> Scene {
        let at = word(spelled, 0) as usize;
        self.gave(0, lent(volume, self.words).get(at).copied().unwrap_or(0))
    }

    fn frame(mut self, sent: &[u8], reply: &mut [u8], volume: &mut [u16], ascii: bool) -> Scene {
        let f = sonde::sonde_frame(
            self.sonde,
            sent,
            lent(reply, self.room),
            lent(volume, self.words),
            self.clock,
            ascii,
            self.port,
        );
        let sonde = f.sonde;
        self.sonde = sonde;
        self.gave(f.number, f.length)
    }

    // The call of a line, by its first character, on the bytes that the line spells. A line of another form is number 255, which no
    // call gives. An enum of the calls would be a second list of the characters.
    pub fn call(self, name: u8, spelled: &[u8], reply: &mut [u8], volume: &mut [u16]) -> Scene {
        match name {
            b'c' => self.set_clock(spelled),
            b'f' => self.made(sonde::sonde_fresh(character(spelled, 0))),
            b'b' => self.begin(spelled, volume),
            b'p' => self.power_up(spelled, volume),
            b'm' => self.measure(spelled),
            b'a' => self.audit(volume),
            b's' => self.salvage(volume),
            b'e' => self.append(spelled, volume),
            b'w' => self.look(spelled, volume),
            b'd' => self.damage(spelled, volume),
            b'r' => self.set_room(spelled),
            b'v' => self.set_port(spelled),
            b'>' => self.frame(spelled, reply, volume, false),
            b':' => self.frame(spelled, reply, volume, true),
            _ => self.gave(255, 0),
        }
    }

    // Whether the last call gave what a line says.
    pub fn agrees(self, answer: Answer, spelled: &[u8], reply: &[u8]) -> bool {
        match answer {
            Answer::Reply => {
                (self.given.number == 0) & (reply.get(..self.given.count as usize) == Some(spelled))
            }
            Answer::Given => {
                self.given
                    == Given {
                        number: character(spelled, 0),
                        count: word(spelled, 1),
                    }
            }
        }
    }
}
