// What the six calls of document 01 take and hand back. The definitions of the calls are in specs/, their code in the crates above; there is none here.

#![tactic(auto)]

use state::Sonde;

// When and how a frame came: the clock, in whole seconds, its framing, ASCII or RTU, by the flag that the call in C has, and the number of its port,
// 1 serial or 2 radio; any other is refused.
#[derive(Clone, Copy)]
pub struct Arrival {
    pub clock: u32,
    pub ascii: bool,
    pub port: u8,
}

// What fresh, begin, power-up and measure hand back.
#[repr(C)]
#[derive(Clone, Copy)]
pub struct SondeMade {
    pub number: u8,
    pub sonde: Sonde,
}

// What a frame hands back; the reply's bytes are in the lent buffer.
#[repr(C)]
#[derive(Clone, Copy)]
pub struct SondeFrame {
    pub number: u8,
    pub length: u16,
    pub sonde: Sonde,
}

// What an audit hands back: the entries in use.
#[repr(C)]
#[derive(Clone, Copy)]
pub struct SondeAudit {
    pub number: u8,
    pub entries: u16,
}
