// The codes of an exception reply, in document 01's order. The first three have the names of the Modbus standard, the others those of source
// document 001 where it has one.
ghost use Rattle.std.specs.Prelude.{◌≡◌};
ghost use Rattle.refusals.specs.Codes.{byte_of};

// What a frame is refused by.
#[derive(Clone, Copy, Debug, PartialEq, Eq)]
pub enum Code {
    // Another function.
    IllegalFunction,
    // Length, byte count or count wrong.
    IllegalDataValue,
    // A register that is absent.
    IllegalDataAddress,
    // Not exactly one whole field.
    FieldMismatch,
    ReadOnly,
    // A field that is writable in mode only, or an update, with mode off.
    SensorMode,
    // A float that isn't finite, or a value that isn't listed.
    WriteValue,
    // An update whose candidate isn't accepted.
    InvalidCalibration,
    // An update with no entry spare.
    JournalFull,
}

// The byte that a reply carries.
impl From<Code> for u8 {
    ghost from_gives = { λ code byte. byte ≡ byte_of code };

    fn from(code: Code) -> u8 {
        match code {
            Code::IllegalFunction => 1,
            Code::IllegalDataValue => 3,
            Code::IllegalDataAddress => 2,
            Code::FieldMismatch => 0x80,
            Code::ReadOnly => 0xC2,
            Code::SensorMode => 0x92,
            Code::WriteValue => 0x84,
            Code::InvalidCalibration => 0x97,
            Code::JournalFull => 0xC0,
        }
    }
}
