// The numbers that a call gives, in the order of documents 01 and 02.
ghost use Rattle.std.specs.Prelude.{◌≡◌};
ghost use Rattle.refusals.specs.Numbers.{number_of, given};

// What a call is refused by.
#[derive(Clone, Copy, Debug, PartialEq, Eq)]
pub enum Refusal {
    // Address not 1..247.
    InvalidAddress,
    // Fewer words than one entry wants.
    ShortVolume,
    // Reply buffer too short.
    ShortReply,
    // Sonde or volume not valid, or calibrations that differ from replay. Document 01: unsound.
    Disagreement,
    // Sensor not 1..4.
    NoSensor,
    // A raw that isn't finite.
    RawNotFinite,
    // Page too short.
    ShortPage,
    // A volume that no choice of its chain words makes valid.
    BeyondSalvage,
    // A port that is neither of the two.
    NoPort,
}

// Success; a frame that is refused by a code gives it too.
pub const DONE: u8 = 0;

impl From<Refusal> for u8 {
    ghost from_gives = { λ refusal number. number ≡ number_of refusal };

    fn from(refusal: Refusal) -> u8 {
        match refusal {
            Refusal::InvalidAddress => 1,
            Refusal::ShortVolume => 2,
            Refusal::ShortReply => 3,
            Refusal::Disagreement => 4,
            Refusal::NoSensor => 5,
            Refusal::RawNotFinite => 6,
            Refusal::ShortPage => 7,
            Refusal::BeyondSalvage => 8,
            Refusal::NoPort => 9,
        }
    }
}

// The number of a call that was carried out, or refused.
pub fn number_of(outcome: Result<(), Refusal>) -> u8
    ensures { result ≡ given outcome }
{
    match outcome {
        Ok(()) => DONE,
        Err(refusal) => u8::from(refusal),
    }
}
