// What a body asks of a sonde: its address, what its port carries, then the map of registers. Everything here is judged before any value is looked
// at, so the control book and the frame call share it.

#![tactic(auto)]

ghost use Rattle.std.specs.Prelude.{◌≡◌};
ghost use Rattle.ports.specs.Ports.{limits};
ghost use Rattle.modbus.specs.Request.{request_of};
ghost use Rattle.plans.specs.Plans.{target_of, read_plan, write_plan, request_plan, plan_of};

use fields::{Access, Field};
use modbus::{Header, Request, Value};
use ports::Port;
use refusals::codes::Code;

#[derive(Clone, Copy)]
pub enum Plan {
    // No good frame, whatever it says.
    Bad,
    // Another's address.
    Foreign,
    // A read at address 0.
    BroadcastRead,
    // Refused by code 1, 3, 2, 0x80 or 0xC2.
    Refused(Code),
    Reading {
        start: u16,
        count: u16,
    },
    // One whole writable field of an owner, the device (0) or a sensor, and what it is given.
    Writing {
        owner: u16,
        field: Field,
        value: Value,
    },
}

// The field that is exactly these registers, if it can be written at all.
#[tactic(auto, unfolding(crate::specs::Plans::target_of))]
fn target_of(start: u16, count: u16) -> Result<Field, Code>
    ensures { result ≡ target_of start count }
{
    let field = lookup::span(start, count)?.ok_or(Code::FieldMismatch)?;
    if field.access == Access::ReadOnly {
        return Err(Code::ReadOnly);
    }
    Ok(field)
}

// A read may begin or end inside a field.
#[tactic(auto, unfolding(crate::specs::Plans::read_plan))]
fn plan_read(start: u16, count: u16) -> Result<Plan, Code>
    ensures { result ≡ read_plan start count }
{
    lookup::span(start, count)?;
    Ok(Plan::Reading { start, count })
}

#[tactic(auto, unfolding(crate::specs::Plans::write_plan))]
fn plan_write(start: u16, count: u16, value: Value) -> Result<Plan, Code>
    ensures { result ≡ write_plan start count value }
{
    let field = target_of(start, count)?;
    Ok(Plan::Writing {
        owner: start / 100,
        field,
        value,
    })
}

// A request, judged on its port and the map.
fn plan_request(port: Port, function: u8, body: &[u8]) -> Result<Plan, Code>
    ensures { result ≡ request_plan (request_of (limits port).registers function body.now) }
{
    match modbus::decode_request(port.limits().registers, function, body)? {
        Request::Read { start, count } => plan_read(start, count),
        Request::Write {
            start,
            count,
            value,
        } => plan_write(start, count, value),
    }
}

// What a body with this header, which came by this port, asks of the sonde with this address.
#[tactic(auto, unfolding(crate::specs::Plans::plan_of))]
pub fn plan_of(own: u8, port: Port, header: Header, body: &[u8]) -> Plan
    ensures { result ≡ plan_of own port header body.now }
{
    let broadcast = header.address == 0;
    if broadcast & (header.function == 3) {
        return Plan::BroadcastRead;
    }
    if !broadcast & (header.address != own) {
        return Plan::Foreign;
    }
    match plan_request(port, header.function, body) {
        Ok(plan) => plan,
        Err(code) => Plan::Refused(code),
    }
}
