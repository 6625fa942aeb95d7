// Columns of characters, written from the right into a part of a buffer.

#![tactic(auto)]

ghost use Rattle.std.specs.Prelude.{◌≡◌, ◌+◌, ◌≤◌, ◌<◌, length};
ghost use Rattle.std.proofs.lemmas.List.Edits.{sets};
ghost use Rattle.words.specs.Digits.{hex_digit};
ghost use Rattle.columns.specs.Columns.{last, last_or, cells, number, hex};

// The character of a digit.
#[tactic(auto, unfolding(words::specs::Digits::hex_digit))]
fn digit(d: u32) -> u8
    requires { d < 16 }
    ensures { result ≡ hex_digit d }
{
    if d < 10 {
        return 48 + d as u8;
    }
    55 + d as u8
}

// The last decimal digit of a number.
#[tactic(auto, unfolding(crate::specs::Columns::last))]
pub fn last_digit(n: u32) -> u8
    ensures { result ≡ last 10 n }
{
    digit(n % 10)
}

// The last digit of a number in base BASE, and ZERO for the number 0.
#[tactic(auto, unfolding(crate::specs::Columns::last, crate::specs::Columns::last_or))]
fn last_or<const BASE: u32, const ZERO: u8>(n: u32) -> u8
    requires { (1 ≤ BASE) × (BASE ≤ 16) }
    ensures { result ≡ last_or ZERO BASE n }
{
    if n == 0 {
        return ZERO;
    }
    digit(n % BASE)
}

// A number in base BASE, from the right: where nothing is left of it, ZERO. Each base has its own code, which divides by a constant.
fn put_cells<const BASE: u32, const ZERO: u8>(buffer: &mut [u8], at: usize, width: usize, n: u32)
    requires base { (1 ≤ BASE) × (BASE ≤ 16) }
    requires room { at + width ≤ length buffer.old }
    ensures { buffer.new ≡ sets buffer.old at (cells BASE (last_or ZERO BASE) width n) }
{
    let mut rest = n;
    for k in (0..width).rev() {
        buffer[at + k] = last_or::<BASE, ZERO>(rest);
        rest = rest / BASE;
    }
}

// A number in decimal, right-aligned with blanks. Of a number that doesn't fit the column its last digits are shown.
#[tactic(auto, using(crate::proofs::Stores::number_none, crate::proofs::Stores::number_first))]
pub fn put_number(buffer: &mut [u8], at: usize, width: usize, n: u32)
    requires { at + width ≤ length buffer.old }
    ensures { buffer.new ≡ sets buffer.old at (number width n) }
{
    if width == 0 {
        return;
    }
    let front = width - 1;
    buffer[at + front] = last_digit(n);
    put_cells::<10, b' '>(buffer, at, front, n / 10);
}

// A number in capital hexadecimal digits, with zeros in front.
#[tactic(auto, using(crate::proofs::Stores::hex_is))]
#[inline(never)]
pub fn put_hex(buffer: &mut [u8], at: usize, width: usize, n: u32)
    requires { at + width ≤ length buffer.old }
    ensures { buffer.new ≡ sets buffer.old at (hex width n) }
{
    put_cells::<16, b'0'>(buffer, at, width, n);
}
