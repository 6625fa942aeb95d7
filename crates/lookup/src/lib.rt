// The search of the table of fields: what registers that adjoin are.

#![tactic(auto)]

ghost use Rattle.std.specs.Prelude.{◌≡◌, ◌+◌, ◌≤◌};
ghost use Rattle.fields.specs.Fields.{owner_bit, span_of};
ghost use Rattle.lookup.specs.Steps.{reach_by};

pub mod rows; // the table

use crate::rows::ROWS;
use fields::Field;
use refusals::codes::Code;

// The bit of an owner: 0 is the device, 1 to 4 are the sensors.
#[tactic(auto, unfolding(fields::specs::Fields::owner_bit))]
fn owner_bit(owner: u16) -> u8
    ensures { result ≡ owner_bit owner }
{
    match owner {
        0 => 1,
        1 => 2,
        2 => 4,
        3 => 8,
        4 => 16,
        _ => 0,
    }
}

// The offset that isn't known to exist yet: past the field, where the field holds it.
#[tactic(auto, unfolding(crate::specs::Steps::reach_by))]
fn reach(f: Field, bit: u8, at: u16) -> u16
    requires { f.offset + f.words ≤ 65535 }
    ensures { result ≡ reach_by f bit at }
{
    let end = f.offset + f.words;
    if (f.owners & bit != 0) & (f.offset <= at) & (at < end) {
        return end;
    }
    at
}

// What `count` registers from `start` on are, in one pass over the rows: the one whole field that they are, or none where they all exist and aren't
// one. None past 0xFFFF exists. No row has more than two words, so none before row offset / 2 holds the first register.
#[tactic(auto, using(fields::proofs::Spans::span_unowned, crate::proofs::Ends::reached_none, crate::proofs::Ends::first_none, crate::proofs::Ends::span_inside, crate::proofs::Ends::span_past))]
pub fn span(start: u16, count: u16) -> Result<Option<Field>, Code>
    ensures { result ≡ span_of start count }
{
    let offset = start % 100;
    let bit = owner_bit(start / 100);
    if (bit == 0) & (0 < count) {
        return Err(Code::IllegalDataAddress);
    }
    let end = (offset as u32) + (count as u32);
    let table = rows::table();
    let first = usize::min((offset / 2) as usize, ROWS);
    let mut at = offset;
    for f in &table[first..] {
        if (f.owners & bit != 0) & (f.offset == offset) & (f.words == count) {
            return Ok(Some(*f));
        }
        at = reach(*f, bit, at);
    }
    if end <= (at as u32) {
        return Ok(None);
    }
    Err(Code::IllegalDataAddress)
}
