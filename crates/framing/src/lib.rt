// Both framings as one: what a frame carries, a body made a frame, and the room that a reply needs. The host says with each frame which
// framing it has, ASCII or RTU, and by which port it came. Above, number 3 and the reply's sealing ask for the framing, through these functions, and
// nothing else.

#![tactic(auto)]

ghost use Rattle.std.specs.Prelude.{◌≡◌, false, cond, ◌≤◌, length, take};
ghost use Rattle.words.specs.Overlay.{overlay};
ghost use Rattle.framing.specs.Framing.{body_of, carried_in, framed_in, room_in};
ghost use Rattle.framing.specs.Steps.{decoded_in, decoded_into};

use ports::Port;

// The bytes that a reply's buffer must have.
#[tactic(auto, unfolding(crate::specs::Framing::room_in))]
pub fn room(ascii: bool) -> usize
    ensures { result ≡ room_in ascii }
{
    if ascii {
        return 513;
    }
    256
}

// Decodes an ASCII frame into lent bytes, and gives its body's length: 0 for a bad frame, as every one is where the port carries no ASCII. The body
// of an RTU frame is a part of it, so nothing is decoded.
#[inline(never)]
pub fn decode(port: Port, ascii: bool, frame: &[u8], bytes: &mut [u8]) -> usize
    requires { 255 ≤ length bytes.old }
    ensures value { result ≡ length (decoded_in port ascii frame.now) }
    ensures body { take result bytes.new ≡ decoded_in port ascii frame.now }
    ensures bytes_after { bytes.new ≡ decoded_into port ascii frame.now bytes.old }
{
    if ascii & port.limits().ascii {
        return ascii::frame::decode(frame, bytes);
    }
    0
}

// The body that an RTU frame carries; no bytes where it is bad.
#[tactic(auto, unfolding(crate::specs::Framing::carried_in))]
fn rtu_body(port: Port, frame: &[u8]) -> &[u8]
    ensures { result.now ≡ body_of (carried_in port false frame.now) }
{
    if rtu::frame::is_good(port.limits().longest, frame) {
        return rtu::frame::body(frame);
    }
    &frame[..0]
}

// The body that a frame carries, where `decoded` is what `decode` made of it; no bytes where it is bad.
#[inline(never)]
pub fn body<'a>(port: Port, ascii: bool, frame: &'a [u8], decoded: &'a [u8]) -> &'a [u8]
    ensures { result.now ≡ cond ascii decoded.now (body_of (carried_in port false frame.now)) }
{
    if ascii {
        return decoded;
    }
    rtu_body(port, frame)
}

// Makes a frame of the body in the first n bytes of a buffer, in place, and gives the frame's length.
pub fn seal(ascii: bool, buffer: &mut [u8], n: usize) -> u16
    requires { (n ≤ 254) × (room_in ascii ≤ length buffer.old) }
    ensures value { result ≡ length (framed_in ascii (take n buffer.old)) }
    ensures buffer_after { buffer.new ≡ overlay (framed_in ascii (take n buffer.old)) buffer.old }
{
    if ascii {
        return ascii::frame::seal(buffer, n);
    }
    rtu::frame::seal(buffer, n)
}
