// The ports by which frames come, and what each of them carries: one table of limits for the test of a frame and for the reader of its request.

#![tactic(auto)]

ghost use Rattle.std.specs.Prelude.{◌≡◌};
ghost use Rattle.ports.specs.Ports.{limits, port_of};

// Where a frame came from, and where its reply goes.
#[derive(Clone, Copy, Debug, PartialEq, Eq)]
pub enum Port {
    Serial,
    Radio,
}

// What a port carries.
#[derive(Clone, Copy)]
pub struct Limits {
    // Bytes of the longest RTU frame, its checksum among them.
    pub longest: usize,
    // Registers of the longest read.
    pub registers: u16,
    // Whether ASCII frames are taken.
    pub ascii: bool,
}

impl Port {
    // By the number that a call gives; any other number is no port's.
    #[tactic(auto, unfolding(crate::specs::Ports::port_of))]
    pub fn of(number: u8) -> Option<Port>
        ensures { result ≡ port_of number }
    {
        match number {
            1 => Some(Port::Serial),
            2 => Some(Port::Radio),
            _ => None,
        }
    }

    pub fn limits(self) -> Limits
        ensures { result ≡ limits self }
    {
        match self {
            Port::Serial => Limits {
                longest: 256,
                registers: 125,
                ascii: true,
            },
            Port::Radio => Limits {
                longest: 64,
                registers: 29,
                ascii: false,
            },
        }
    }
}
