// A frame: a colon, a body and its LRC in digits, CR, LF.
ghost use Rattle.std.specs.Prelude.{◌≡◌, ◌+◌, ◌*◌, ◌≤◌, length, take};
ghost use Rattle.words.specs.Overlay.{overlay};
ghost use Rattle.ascii.specs.Ascii.{ascii_framed, enclosed as enclosed_of};
ghost use Rattle.ascii.specs.Steps.{good_body, decoded_over};

use crate::digits::{read, spell};
use crate::sum::lrc;

// A colon first, CR and LF last, and an even number of characters between them.
fn enclosed(frame: &[u8]) -> bool
    requires { 2 ≤ length frame.now }
    ensures { result ≡ enclosed_of frame.now }
{
    let n = frame.len();
    (n % 2 == 1) & (frame[0] == 58) & (frame[n - 2] == 13) & (frame[n - 1] == 10)
}

// Decodes a frame into lent bytes, and gives the body's length: 0 for a bad frame.
pub fn decode(frame: &[u8], bytes: &mut [u8]) -> usize
    requires { 255 ≤ length bytes.old }
    ensures value { result ≡ length (good_body frame.now) }
    ensures body { take result bytes.new ≡ good_body frame.now }
    ensures bytes_after { bytes.new ≡ decoded_over frame.now bytes.old }
{
    let n = frame.len();
    if n < 9 {
        return 0;
    }
    let size = (n - 3) / 2;
    if 255 < size {
        return 0;
    }
    if !enclosed(frame) {
        return 0;
    }
    let end = n - 2;
    if read(&frame[1..end], bytes) == 0 {
        return size - 1;
    }
    0
}

// Makes a frame of the body in the first n bytes of a buffer, in place, and gives the frame's length in characters.
pub fn seal(buffer: &mut [u8], n: usize) -> u16
    requires { (n ≤ 254) × (2 * n + 5 ≤ length buffer.old) }
    ensures value { result ≡ 2 * n + 5 }
    ensures buffer_after { buffer.new ≡ overlay (ascii_framed (take n buffer.old)) buffer.old }
{
    let sum = lrc(&buffer[..n]);
    buffer[n] = sum;
    spell(buffer, n + 1);
    buffer[0] = 58;
    buffer[2 * n + 3] = 13;
    buffer[2 * n + 4] = 10;
    (2 * n + 5) as u16
}
