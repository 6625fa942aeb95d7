// Bodies of replies, written into a lent buffer; bytes past a body stay as they were. They get their framing once, at the end.

#![tactic(auto)]

ghost use Rattle.std.specs.Prelude.{◌≡◌, ◌+◌, ◌*◌, ◌≤◌, length, take};
ghost use Rattle.std.proofs.lemmas.List.Edits.{sets};
ghost use Rattle.words.specs.Bytes.{bytes_of};
ghost use Rattle.words.specs.Overlay.{overlay};
ghost use Rattle.framing.specs.Framing.{room_in};
ghost use Rattle.replies.specs.Reply.{marked_of, read_body, written_body, exception_body, reply_of};

use words::Halves;

// Words from byte 3 on.
fn put_words(reply: &mut [u8], words: &[u16])
    requires { 3 + 2 * length words.now ≤ length reply.old }
    ensures { reply.new ≡ sets reply.old 3 (bytes_of words.now) }
{
    for (i, word) in words.iter().enumerate() {
        reply[3 + 2 * i] = word.high();
        reply[4 + 2 * i] = word.low();
    }
}

// To function 3: the words that were read.
pub fn put_read(reply: &mut [u8], address: u8, words: &[u16]) -> usize
    requires { (256 ≤ length reply.old) × (length words.now ≤ 125) }
    ensures value { result ≡ length (read_body address words.now) }
    ensures reply_after { reply.new ≡ overlay (read_body address words.now) reply.old }
{
    let size = 2 * words.len();
    reply[0] = address;
    reply[1] = 3;
    reply[2] = size as u8;
    put_words(reply, words);
    3 + size
}

// Bytes from the start on, one by one: `copy_from_slice` calls memmove, which the library doesn't ask of its host.
fn put_bytes(reply: &mut [u8], bytes: &[u8])
    requires { length bytes.now ≤ length reply.old }
    ensures { reply.new ≡ sets reply.old 0 bytes.now }
{
    for (i, byte) in bytes.iter().enumerate() {
        reply[i] = *byte;
    }
}

// To a write: the request, of function 16 its first six bytes (address, function, start, count).
#[tactic(auto, using(crate::proofs::Stores::from_start), unfolding(crate::specs::Reply::written_body, words::specs::Overlay::overlay))]
pub fn put_written(reply: &mut [u8], function: u8, body: &[u8]) -> usize
    requires { (256 ≤ length reply.old) × (6 ≤ length body.now) × (length body.now ≤ 254) }
    ensures value { result ≡ length (written_body function body.now) }
    ensures reply_after { reply.new ≡ overlay (written_body function body.now) reply.old }
{
    let echoed = if function == 16 { &body[..6] } else { body };
    put_bytes(reply, echoed);
    echoed.len()
}

// A function's number in an exception reply.
#[tactic(auto, unfolding(crate::specs::Reply::marked_of))]
fn marked(function: u8) -> u8
    ensures { result ≡ marked_of function }
{
    function | 0x80
}

// To a request that is refused by a code.
pub fn put_exception(reply: &mut [u8], address: u8, function: u8, code: u8) -> usize
    requires { 256 ≤ length reply.old }
    ensures value { result ≡ length (exception_body address function code) }
    ensures reply_after { reply.new ≡ overlay (exception_body address function code) reply.old }
{
    reply[0] = address;
    reply[1] = marked(function);
    reply[2] = code;
    3
}

// The reply's body in the first n bytes gets its framing; no body is no reply.
#[tactic(auto, using(crate::proofs::Stores::from_start, framing::proofs::Sealed::room_least), unfolding(crate::specs::Reply::reply_of, words::specs::Overlay::overlay))]
pub fn seal(ascii: bool, reply: &mut [u8], n: usize) -> u16
    requires { (n ≤ 254) × (room_in ascii ≤ length reply.old) }
    ensures value { result ≡ length (reply_of ascii (take n reply.old)) }
    ensures reply_after { reply.new ≡ overlay (reply_of ascii (take n reply.old)) reply.old }
{
    if n == 0 {
        return 0;
    }
    framing::seal(ascii, reply, n)
}
