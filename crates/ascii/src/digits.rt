// Capital hexadecimal digits.
ghost use Rattle.std.specs.Prelude.{◌≡◌, ◌+◌, ◌*◌, ◌/◌, ◌%◌, ◌<◌, ◌≤◌, length, take};
ghost use Rattle.std.proofs.lemmas.List.Edits.{sets};
ghost use Rattle.words.specs.Overlay.{overlay};
ghost use Rattle.ascii.specs.Ascii.{hex_of};
ghost use Rattle.ascii.specs.Steps.{Values, stored_of, read_of};

// The digits of 0 to 15.
const DIGITS: [u8; 16] = *b"0123456789ABCDEF";

// What each character says as a digit; 16 for a character that is none. A table: branches on the characters are often predicted wrongly.
fn values() -> [u8; 256]
    ensures { Values result }
{
    let digits = DIGITS;
    let mut values = [16u8; 256];
    for i in 0usize..16 {
        values[digits[i] as usize] = i as u8;
    }
    values
}

// Spells the first n bytes of a buffer in place, from byte 1 on. The last byte goes first, so that no byte is lost.
pub fn spell(buffer: &mut [u8], n: usize)
    requires { 2 * n + 1 ≤ length buffer.old }
    ensures { buffer.new ≡ sets buffer.old 1 (hex_of (take n buffer.old)) }
{
    let digits = DIGITS;
    let mut k = n;
    while 0 < k {
        k -= 1;
        let b = buffer[k];
        buffer[2 * k + 1] = digits[(b / 16) as usize];
        buffer[2 * k + 2] = digits[(b % 16) as usize];
    }
}

// Stores the bytes that pairs of digits say, from the start of a buffer on. Gives their sum, 256 where a character is no digit: that is tested once,
// after the loop.
pub fn read(chars: &[u8], bytes: &mut [u8]) -> u16
    requires { (length chars.now % 2 ≡ 0) × (length chars.now / 2 ≤ length bytes.old) }
    ensures value { result ≡ read_of chars.now }
    ensures bytes_after { bytes.new ≡ overlay (stored_of chars.now) bytes.old }
{
    let values = values();
    let mut all: u8 = 0;
    let mut sum: u16 = 0;
    for i in 0..chars.len() / 2 {
        let first = chars[2 * i];
        let second = chars[2 * i + 1];
        let high = values[first as usize];
        let low = values[second as usize];
        all = all | high | low;
        let b = (high % 16) * 16 | low;
        bytes[i] = b;
        sum = (sum + (b as u16)) % 256;
    }
    if 15 < all {
        return 256;
    }
    sum
}
