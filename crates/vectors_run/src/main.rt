// Runs the records of standard input through the run of a table over recorded inputs, and prints a line for each.
//
// A record is a command, three numbers of two bytes each, low byte first, and data. The numbers: how much of the trace
// buffer is lent, how many bytes the table has and how many the inputs. The data: the table, then the inputs.
#![tactic(auto)]

mod text;

ghost use Rattle.std.specs.Prelude.{◌≤◌};

use records::{Record, Unread, checksum};
use std::io;
use std::io::Write;
use text::ROOM;

// No more of the input is read.
const INPUT_ROOM: usize = 300000;

// What a record asks for. There is one command, 0.
#[derive(Clone, Copy)]
enum Command {
    Run,
    Unknown,
}

impl From<u8> for Command {
    fn from(number: u8) -> Self {
        match number {
            0 => Command::Run,
            _ => Command::Unknown,
        }
    }
}

// A record.
#[derive(Clone, Copy)]
struct Asked<'a> {
    command: Command,
    room: u16,
    table: &'a [u8],
    inputs: &'a [u8],
}

impl Asked<'_> {
    // How much of the buffer is lent.
    fn lent(&self) -> usize
        ensures { result ≤ 20500 }
    {
        usize::from(self.room).min(ROOM)
    }

    fn run<W: Write>(&self, out: &mut W) -> io::Result<()> {
        let table = self.table.len();
        let inputs = self.inputs.len();
        let room = self.lent();
        write!(out, "run table {table} inputs {inputs} room {room}")?;
        let mut trace = [165u8; ROOM];
        let answer = run::run(self.table, self.inputs, &mut trace[..room]);
        text::say_ran(out, answer, &trace)?;
        writeln!(out, "; buffer {}", checksum(&trace))
    }
}

impl<'a> Record<'a> for Asked<'a> {
    fn next(unread: &mut Unread<'a>) -> Option<Self> {
        let command = Command::from(unread.byte()?);
        let room = unread.number()?;
        let size = unread.number()?;
        let length = unread.number()?;
        let table = unread.bytes(usize::from(size))?;
        let inputs = unread.bytes(usize::from(length))?;
        Some(Asked {
            command,
            room,
            table,
            inputs,
        })
    }

    fn obey<W: Write>(&self, out: &mut W) -> io::Result<()> {
        match self.command {
            Command::Run => self.run(out),
            Command::Unknown => Ok(()),
        }
    }
}

fn main(rt: HostRuntime) -> io::Result<()> {
    let mut input = [0u8; INPUT_ROOM];
    let read = records::read_full(&mut rt.stdin(), &mut input);
    records::obey_all::<Asked, _>(&input[..read], &mut rt.stdout())
}
