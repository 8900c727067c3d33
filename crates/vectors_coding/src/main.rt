// Runs the records of standard input through the readers, the writers and the sheet's lookup, and prints a line for
// each.
//
// A record is a command, three numbers of two bytes each, low byte first, and data. The numbers: what goes along with
// the command, how much room is lent, how many bytes of data follow. A writer's data are 16-bit numbers, low byte
// first; a lookup's are the name and then the sheet.
#![tactic(auto)]

mod code;
mod text;

ghost use Rattle.std.specs.Prelude.{◌≤◌};

use code::Code;
use records::{Record, Unread};
use requirement::Kind;
use std::io;
use std::io::Write;
use text::ROOM;

// No more of the input is read.
const INPUT_ROOM: usize = 256000;

// What a record asks for.
#[derive(Clone, Copy)]
enum Command {
    ReadNumber,
    WriteNumber,
    Check(Kind),
    Read(Code),
    Write(Code),
    LookUp,
    Unknown,
}

impl Command {
    // The command of this number; an inputs code takes `with` along as its input count.
    fn of(number: u8, with: u16) -> Self {
        match number {
            0 => Command::ReadNumber,
            1 => Command::WriteNumber,
            2 => Command::Check(Kind::Untranslated),
            3 => Command::Check(Kind::Translated),
            4 => Command::Read(Code::Requirement(Kind::Untranslated)),
            5 => Command::Read(Code::Requirement(Kind::Translated)),
            6 => Command::Read(Code::Table),
            7 => Command::Read(Code::Inputs(with)),
            8 => Command::Write(Code::Requirement(Kind::Untranslated)),
            9 => Command::Write(Code::Requirement(Kind::Translated)),
            10 => Command::Write(Code::Table),
            11 => Command::Write(Code::Inputs(with)),
            12 => Command::LookUp,
            _ => Command::Unknown,
        }
    }
}

// A record.
#[derive(Clone, Copy)]
struct Asked<'a> {
    command: Command,
    with: u16,
    room: u16,
    data: &'a [u8],
}

impl Asked<'_> {
    // How much of a buffer is lent.
    fn lent(&self) -> usize
        ensures { result ≤ 8000 }
    {
        usize::from(self.room).min(ROOM)
    }

    fn read_number<W: Write>(&self, out: &mut W) -> io::Result<()> {
        let at = usize::from(self.with);
        write!(out, "read number at {at}")?;
        text::say_number(out, coding::read_number(self.data, at))
    }

    fn write_number<W: Write>(&self, out: &mut W) -> io::Result<()> {
        write!(out, "write number {}", self.with)?;
        let lent = self.lent();
        let mut buf = [165u8; ROOM];
        let answer = coding::write_number(self.with, &mut buf[..lent]);
        text::say_stored(out, answer, lent, &buf)
    }

    fn check<W: Write>(&self, out: &mut W, kind: Kind) -> io::Result<()> {
        write!(out, "check {}", records::word_of(kind))?;
        text::say_checked(out, requirement::check(kind, self.data))
    }

    fn read<W: Write>(&self, out: &mut W, code: Code) -> io::Result<()> {
        write!(out, "read {code}")?;
        let lent = self.lent();
        let mut numbers = [165u16; ROOM];
        let answer = code.read(self.data, &mut numbers[..lent]);
        text::say_stored(out, answer, lent, &numbers)
    }

    fn write<W: Write>(&self, out: &mut W, code: Code) -> io::Result<()> {
        write!(out, "write {code}")?;
        let lent = self.lent();
        let mut numbers = [0u16; ROOM];
        let count = unpack(self.data, &mut numbers);
        let mut buf = [165u8; ROOM];
        let answer = code.write(&numbers[..count], &mut buf[..lent]);
        text::say_stored(out, answer, lent, &buf)
    }

    // The lookup by `find`, and the bytes that `body` returns. Nothing where there are too few data for the name.
    fn look_up<W: Write>(&self, out: &mut W) -> io::Result<()> {
        if let Some((name, sheet)) = self.data.split_at_checked(usize::from(self.with)) {
            write!(out, "sheet, name of {}", name.len())?;
            text::say_found(out, sheet::find(sheet, name))?;
            text::say_body(out, sheet::body(sheet, name))?;
        }
        Ok(())
    }
}

impl<'a> Record<'a> for Asked<'a> {
    fn next(unread: &mut Unread<'a>) -> Option<Self> {
        let number = unread.byte()?;
        let with = unread.number()?;
        let room = unread.number()?;
        let size = unread.number()?;
        let data = unread.bytes(usize::from(size))?;
        Some(Asked {
            command: Command::of(number, with),
            with,
            room,
            data,
        })
    }

    fn obey<W: Write>(&self, out: &mut W) -> io::Result<()> {
        match self.command {
            Command::ReadNumber => self.read_number(out),
            Command::WriteNumber => self.write_number(out),
            Command::Check(kind) => self.check(out, kind),
            Command::Read(code) => self.read(out, code),
            Command::Write(code) => self.write(out, code),
            Command::LookUp => self.look_up(out),
            Command::Unknown => writeln!(out, "no such command"),
        }
    }
}

// The bytes as 16-bit numbers, low byte first, as far as the row goes. How many they are.
fn unpack(bytes: &[u8], row: &mut [u16; ROOM]) -> usize
    ensures { result ≤ 8000 }
{
    let (pairs, _) = bytes.as_chunks::<2>();
    for (number, pair) in row.iter_mut().zip(pairs) {
        *number = u16::from_le_bytes(*pair);
    }
    pairs.len().min(ROOM)
}

fn main(rt: HostRuntime) -> io::Result<()> {
    let mut input = [0u8; INPUT_ROOM];
    let read = records::read_full(&mut rt.stdin(), &mut input);
    records::obey_all::<Asked, _>(&input[..read], &mut rt.stdout())
}
