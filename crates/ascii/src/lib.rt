// The ASCII framing of Modbus: a colon, the body and its LRC in capital hexadecimal digits, CR, LF. Nothing here knows what a body says.

#![tactic(auto)]

pub mod digits; // hexadecimal digits, and bytes spelt in place
pub mod frame; // a frame read, a body made a frame
pub mod sum; // the LRC
