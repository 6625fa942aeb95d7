// What a body of bytes asks for: functions 3, 6, 16 and 22. Nothing here knows which registers exist or what they mean.

#![tactic(auto)]

ghost use Rattle.std.specs.Prelude.{◌≡◌, get_or};
ghost use Rattle.modbus.specs.Request.{header_of, request_of, read_of, write_one_of, write_many_of, write_mask_of};

use refusals::codes::Code;

// The first two bytes of a body.
#[derive(Clone, Copy)]
pub struct Header {
    pub address: u8,
    pub function: u8,
}

// What a write gives its registers.
#[derive(Clone, Copy)]
pub enum Value {
    // Functions 6 and 16, the first two words; a second that isn't sent is 0.
    Words { word1: u16, word2: u16 },
    // Function 22.
    Mask { and_mask: u16, or_mask: u16 },
}

#[derive(Clone, Copy)]
pub enum Request {
    Read {
        start: u16,
        count: u16,
    },
    // A mask is a write of one register.
    Write {
        start: u16,
        count: u16,
        value: Value,
    },
}

// A byte of a body; 0 past its end.
fn byte_at(body: &[u8], i: usize) -> u8
    ensures { result ≡ get_or body.now i 0 }
{
    body.get(i).copied().unwrap_or(0)
}

pub fn header_of(body: &[u8]) -> Header
    ensures { result ≡ header_of body.now }
{
    Header {
        address: byte_at(body, 0),
        function: byte_at(body, 1),
    }
}

// What a body with this function asks for, a read of at most so many registers. Another function is refused; so is one whose length, byte count or
// count is wrong.
#[tactic(auto, unfolding(crate::specs::Request::request_of))]
pub fn decode_request(registers: u16, function: u8, body: &[u8]) -> Result<Request, Code>
    ensures { result ≡ request_of registers function body.now }
{
    match function {
        3 => decode_read(registers, body),
        6 => decode_write_one(body),
        16 => decode_write_many(body),
        22 => decode_write_mask(body),
        _ => Err(Code::IllegalFunction),
    }
}

// Function 3: start and count.
#[tactic(auto, unfolding(crate::specs::Request::read_of))]
fn decode_read(registers: u16, body: &[u8]) -> Result<Request, Code>
    ensures { result ≡ read_of registers body.now }
{
    if body.len() != 6 {
        return Err(Code::IllegalDataValue);
    }
    let start = words::word_at(body, 2);
    let count = words::word_at(body, 4);
    if !(1..=registers).contains(&count) {
        return Err(Code::IllegalDataValue);
    }
    Ok(Request::Read { start, count })
}

// Function 6: register and value.
#[tactic(auto, unfolding(crate::specs::Request::write_one_of))]
fn decode_write_one(body: &[u8]) -> Result<Request, Code>
    ensures { result ≡ write_one_of body.now }
{
    if body.len() != 6 {
        return Err(Code::IllegalDataValue);
    }
    let start = words::word_at(body, 2);
    let word1 = words::word_at(body, 4);
    Ok(Request::Write {
        start,
        count: 1,
        value: Value::Words { word1, word2: 0 },
    })
}

// Function 16: start, count, byte count and the values.
#[tactic(auto, unfolding(crate::specs::Request::write_many_of))]
fn decode_write_many(body: &[u8]) -> Result<Request, Code>
    ensures { result ≡ write_many_of body.now }
{
    let n = body.len();
    if n < 9 {
        return Err(Code::IllegalDataValue);
    }
    let start = words::word_at(body, 2);
    let count = words::word_at(body, 4);
    if !(1..=123).contains(&count) {
        return Err(Code::IllegalDataValue);
    }
    let size = body[6] as usize;
    if size != 2 * (count as usize) {
        return Err(Code::IllegalDataValue);
    }
    if n != 7 + size {
        return Err(Code::IllegalDataValue);
    }
    let word1 = words::word_at(body, 7);
    let word2 = if n < 11 { 0 } else { words::word_at(body, 9) };
    Ok(Request::Write {
        start,
        count,
        value: Value::Words { word1, word2 },
    })
}

// Function 22: register, and-mask, or-mask.
#[tactic(auto, unfolding(crate::specs::Request::write_mask_of))]
fn decode_write_mask(body: &[u8]) -> Result<Request, Code>
    ensures { result ≡ write_mask_of body.now }
{
    if body.len() != 8 {
        return Err(Code::IllegalDataValue);
    }
    let start = words::word_at(body, 2);
    let and_mask = words::word_at(body, 4);
    let or_mask = words::word_at(body, 6);
    Ok(Request::Write {
        start,
        count: 1,
        value: Value::Mask { and_mask, or_mask },
    })
}
