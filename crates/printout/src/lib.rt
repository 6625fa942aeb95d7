// What the program `printer` writes for the bytes that it has read.

#![tactic(auto)]

ghost use Rattle.std.specs.Prelude.{◌≡◌, ◌*◌, ◌≤◌, length, IfNone, IfSome};
ghost use Rattle.std.proofs.lemmas.List.Edits.{sets};
ghost use Rattle.words.specs.Bytes.{words_of};
ghost use Rattle.words.specs.Overlay.{overlay};
ghost use Rattle.printout.specs.Printout.{unsound, printout_of};

use printing::put_page;
use words::Halves;

// The most bytes of a file that is printed, its words, and the most bytes that are written for a file: the lines of 1000 entries.
pub const MOST_BYTES: usize = 48128;

const MOST_WORDS: usize = 24064;

pub const MOST_WRITTEN: usize = 53212;

// The words of a file, from the start of a buffer.
fn put_words(words: &mut [u16], bytes: &[u8])
    requires { length bytes.now ≤ 2 * length words.old }
    ensures { words.new ≡ sets words.old 0 (words_of bytes.now) }
{
    for i in 0..bytes.len() / 2 {
        words[i] = u16::join(bytes[2 * i], bytes[2 * i + 1]);
    }
}

// "UNSOUND" and LF, and their length.
#[tactic(auto, unfolding(words::specs::Overlay::overlay, columns::specs::Text::characters))]
fn put_unsound(out: &mut [u8]) -> usize
    requires { 8 ≤ length out.old }
    ensures { (out.new ≡ overlay unsound out.old) × (result ≡ 8) }
{
    out[..8].copy_from_slice(b"UNSOUND\n");
    8
}

// The page of a file that has one, by words of the caller's, and its length.
#[tactic(auto, using(crate::proofs::Left::odd_file, crate::proofs::Left::long_file))]
fn put_file(bytes: &[u8], words: &mut [u16], out: &mut [u8]) -> Option<u32>
    requires { (24064 ≤ length words.old) × (53212 ≤ length out.old) }
    ensures refused { IfNone result ((printout_of bytes.now ≡ unsound) × (out.new ≡ out.old)) }
    ensures printed { IfSome result (λ n. (out.new ≡ overlay (printout_of bytes.now) out.old) × (n ≡ length (printout_of bytes.now)) × (n ≤ 53212)) }
{
    let size = bytes.len();
    if size % 2 != 0 {
        return None;
    }
    if MOST_BYTES < size {
        return None;
    }
    put_words(words, bytes);
    put_page(&words[..size / 2], out).ok()
}

// What is written for a file of these bytes: the page, or UNSOUND. It stands at the start of the lent buffer, and its length comes back: a slice of the buffer as the
// result would leave nothing to say of the rest of it.
#[tactic(auto, using(crate::proofs::Left::unsound_length))]
pub fn printout(bytes: &[u8], out: &mut [u8]) -> usize
    requires { 53212 ≤ length out.old }
    ensures out_after { out.new ≡ overlay (printout_of bytes.now) out.old }
    ensures value { (result ≡ length (printout_of bytes.now)) × (result ≤ 53212) }
{
    let mut words = [0u16; MOST_WORDS];
    match put_file(bytes, &mut words, out) {
        Some(length) => length as usize,
        None => put_unsound(out),
    }
}
