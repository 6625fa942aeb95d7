// Text that a program reads: its lines, and the bytes that a line spells.

#![tactic(auto)]

pub mod tally; // comparisons, counted

ghost use Rattle.std.specs.Prelude.{◌≡◌, ◌==◌, ◌+◌, ◌-◌, ◌≤◌, ◌<◌, length, take, drop, IfOk, IfSome};
ghost use Rattle.std.specs.List.{position_or_len};
ghost use Rattle.std.specs.Io.KnownBytes.{Consumes, IsAtEnd};
ghost use Rattle.text.specs.Text.{IsPrefixLen, character_at, find_of, part_end_of, is_passed_over};
ghost use Rattle.text.specs.Hex.{digit_of, pair_of, past_space, decoded_of};

use std::io;
use std::io::Read;

// How many characters stand before the first that is `c`, or before the end.
fn before(text: &[u8], c: u8) -> usize
    ensures value { result ≡ position_or_len (λ x. x == c) text.now }
    ensures upper_bound { result ≤ length text.now }
{
    text.iter().take_while(|x| **x != c).count()
}

// Where a character first stands from a place on, or the end of the text.
#[tactic(auto, unfolding(crate::specs::Text::find_of))]
pub fn find(text: &[u8], at: usize, c: u8) -> usize
    ensures value { result ≡ find_of text.now at c }
    ensures lower_bound { at ≤ result }
    ensures upper_bound { result ≤ at + (length text.now - at) }
{
    match text.get(at..) {
        Some(rest) => at + before(rest, c),
        None => at,
    }
}

// Where the part that a place is in ends: at the line feed before a line that begins with `mark`, or at the end of the text.
#[tactic(auto, using(crate::proofs::Found::part_end, crate::proofs::Found::part_here, crate::proofs::Found::part_on))]
pub fn part_end(text: &[u8], at: usize, mark: u8) -> usize
    ensures value { result ≡ part_end_of text.now at mark }
    ensures lower_bound { at ≤ result }
    ensures upper_bound { result ≤ at + (length text.now - at) }
{
    for end in at..text.len() {
        if (text[end] == b'\n') & (character(text, end + 1) == mark) {
            return end;
        }
    }
    at.max(text.len())
}

// The character at a place of a line, and 0 past its end.
#[tactic(auto, unfolding(crate::specs::Text::character_at))]
pub fn character(line: &[u8], at: usize) -> u8
    ensures { result ≡ character_at line.now at }
{
    line.get(at).copied().unwrap_or(0)
}

// Whether a line has nothing to play or compare: it is empty, or begins with `#`.
#[tactic(auto, unfolding(crate::specs::Text::is_passed_over))]
pub fn is_passed_over(line: &[u8]) -> bool
    ensures { result ≡ is_passed_over line.now }
{
    let initial = character(line, 0);
    (initial == 0) | (initial == b'#')
}

// The value of a hexadecimal digit.
#[tactic(auto, unfolding(crate::specs::Hex::digit_of, crate::specs::Hex::is_between))]
fn digit(c: u8) -> Option<u8>
    ensures value { result ≡ digit_of c }
    ensures upper_bound { IfSome result (λ d. d ≤ 15) }
{
    match c {
        b'0'..=b'9' => Some(c - b'0'),
        b'A'..=b'F' => Some(c - b'A' + 10),
        b'a'..=b'f' => Some(c - b'a' + 10),
        _ => None,
    }
}

// The byte that two digits spell.
#[tactic(auto, unfolding(crate::specs::Hex::pair_of))]
fn pair(high: u8, low: u8) -> Option<u8>
    ensures { result ≡ pair_of high low }
{
    Some(digit(high)? * 16 + digit(low)?)
}

// A place of a line, or the next where a space stands there.
#[tactic(auto, using(crate::proofs::Decoded::there), unfolding(crate::specs::Hex::past_space))]
fn past_space(line: &[u8], at: usize) -> usize
    ensures value { result ≡ past_space line.now at }
    ensures upper_bound { result ≤ at + 1 }
{
    if character(line, at) == b' ' {
        return at + 1;
    }
    at
}

// Puts the bytes that a line spells at its start, each in two digits with or without a space in front, at the start of `out`, as many as it
// holds, and gives how many they are, as `Read::read` does: a slice of `out` as the result would leave nothing to say of the rest of it.
#[tactic(auto, unfolding(crate::specs::Hex::decoded_of))]
pub fn decode(line: &[u8], out: &mut [u8]) -> usize
    ensures prefix_len { IsPrefixLen result out.new }
    ensures out_after { take result out.new ≡ decoded_of line.now (length out.old) }
    ensures out_unchanged { drop result out.new ≡ drop result out.old }
{
    let mut at: usize = 0;
    for n in 0..out.len() {
        let from = past_space(line, at);
        let Some(byte) = pair(character(line, from), character(line, from + 1)) else {
            return n;
        };
        out[n] = byte;
        at = from + 2;
    }
    out.len()
}

// Reads until a buffer is full or the input ends, and gives how many bytes were read: they stand at its start, in order, and where they don't fill it nothing is left.
// `read_exact` refuses an input that ends sooner, and `read_to_end` has no most.
pub fn read_full<R: Read>(reader: &mut R, bytes: &mut [u8]) -> io::Result<usize>
    ensures prefix_len { IfOk result (λ n. IsPrefixLen n bytes.new) }
    ensures read { IfOk result (λ n. Consumes (R.remaining reader.old) (R.remaining reader.new) (take n bytes.new)) }
    ensures ended { IfOk result (λ n. n < length bytes.old → IsAtEnd (R.remaining reader.new)) }
{
    let mut n = 0;
    while n < bytes.len() {
        let count = reader.read(&mut bytes[n..])?;
        if count == 0 {
            return Ok(n);
        }
        n += count;
    }
    Ok(n)
}

// What a program prints whose input fills its buffer.
pub fn print_cut_off(rt: &impl Print) -> io::Result<()> {
    println!(rt; "the input fills its buffer and may be cut off")
}
