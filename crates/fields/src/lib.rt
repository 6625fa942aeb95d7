// The map of registers: what a row of the table of fields is. No function stands here; `lookup` has the
// table and searches it.

#![tactic(auto)]

// Who may write a field.
#[derive(Clone, Copy, Debug, PartialEq, Eq)]
pub enum Access {
    ReadOnly,
    // Document 01's W.
    Writable,
    // Document 01's M, writable in mode only.
    Modal,
}

// A row of the table. Bit 0 of `owners` is the device, bits 1 to 4 are sensors 1 to 4.
#[derive(Clone, Copy)]
pub struct Field {
    pub offset: u16,
    pub words: u16,
    pub access: Access,
    pub owners: u8,
}
