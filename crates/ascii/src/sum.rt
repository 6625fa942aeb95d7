// The LRC of Modbus ASCII: the two's complement of the sum of the bytes.
ghost use Rattle.std.specs.Prelude.{◌≡◌};
ghost use Rattle.ascii.specs.Ascii.{lrc_of};

pub fn lrc(bytes: &[u8]) -> u8
    ensures { result ≡ lrc_of bytes.now }
{
    let mut sum: u16 = 0;
    for i in 0..bytes.len() {
        sum = (sum + (bytes[i] as u16)) % 256;
    }
    ((256 - sum) % 256) as u8
}
