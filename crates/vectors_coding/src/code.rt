// A code that is read or written.
use coding::Answer;
use records::word_of;
use requirement::Kind;
use std::fmt;

// An inputs record takes the input count along.
#[derive(Clone, Copy)]
pub enum Code {
    Requirement(Kind),
    Table,
    Inputs(u16),
}

impl Code {
    pub fn read(self, bytes: &[u8], numbers: &mut [u16]) -> Answer {
        match self {
            Code::Requirement(kind) => requirement::read(kind, bytes, numbers),
            Code::Table => table::read_table(bytes, numbers),
            Code::Inputs(count) => table::read_inputs(count, bytes, numbers),
        }
    }

    pub fn write(self, numbers: &[u16], bytes: &mut [u8]) -> Answer {
        match self {
            Code::Requirement(kind) => requirement::write(kind, numbers, bytes),
            Code::Table => table::write_table(numbers, bytes),
            Code::Inputs(count) => table::write_inputs(count, numbers, bytes),
        }
    }
}

impl fmt::Display for Code {
    fn fmt<W: fmt::Write>(&self, f: &mut fmt::Formatter<W>) -> fmt::Result {
        match self {
            Code::Requirement(kind) => f.write_str(word_of(*kind)),
            Code::Table => f.write_str("table"),
            Code::Inputs(count) => write!(f, "inputs {count}"),
        }
    }
}
