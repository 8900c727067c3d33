// Runs the records of standard input through the judging and the translation, and prints a line for each.
//
// A record is a command, five numbers of two bytes each, low byte first, and data. The numbers: the loop start, how
// much work and how much list are lent, how many bytes the code has and how many the trace. The data: the code, then
// the trace.
#![tactic(auto)]

mod text;

ghost use Rattle.std.specs.Prelude.{◌≤◌};

use records::{Record, Unread, checksum};
use requirement::Kind;
use std::io;
use std::io::Write;
use text::ROOM;

// No more of the input is read.
const INPUT_ROOM: usize = 256000;

// What a record asks for.
#[derive(Clone, Copy)]
enum Command {
    Judge(Kind),
    // The loop start is told as how much it is below the greatest number.
    JudgeFar,
    Translate,
}

impl From<u8> for Command {
    fn from(number: u8) -> Self {
        match number {
            1 => Command::Judge(Kind::Translated),
            2 => Command::JudgeFar,
            3 => Command::Translate,
            _ => Command::Judge(Kind::Untranslated),
        }
    }
}

// A record.
#[derive(Clone, Copy)]
struct Asked<'a> {
    command: Command,
    start: u16,
    work: u16,
    list: u16,
    code: &'a [u8],
    trace: &'a [u8],
}

impl Asked<'_> {
    fn judge<W: Write>(&self, out: &mut W, kind: Kind, start: usize) -> io::Result<()> {
        let room = lent(self.work);
        let places = lent(self.list);
        let word = records::word_of(kind);
        write!(out, "judge {word} loop {start} work {room} list {places}")?;
        let mut work = [165u8; ROOM];
        let mut list = [165u8; ROOM];
        let answer = judge::judge(
            kind,
            self.code,
            self.trace,
            start,
            &mut work[..room],
            &mut list[..places],
        );
        text::say_judged(out, answer, &list)?;
        writeln!(out, "; work {} list {}", checksum(&work), checksum(&list))
    }

    fn translate<W: Write>(&self, out: &mut W) -> io::Result<()> {
        let room = lent(self.work);
        write!(out, "translate room {room}")?;
        let mut bytes = [165u8; ROOM];
        let answer = translate::translate(self.code, &mut bytes[..room]);
        text::say_translated(out, answer, &bytes)?;
        writeln!(out, "; buffer {}", checksum(&bytes))
    }
}

impl<'a> Record<'a> for Asked<'a> {
    fn next(unread: &mut Unread<'a>) -> Option<Self> {
        let command = Command::from(unread.byte()?);
        let start = unread.number()?;
        let work = unread.number()?;
        let list = unread.number()?;
        let size = unread.number()?;
        let length = unread.number()?;
        let code = unread.bytes(usize::from(size))?;
        let trace = unread.bytes(usize::from(length))?;
        Some(Asked {
            command,
            start,
            work,
            list,
            code,
            trace,
        })
    }

    fn obey<W: Write>(&self, out: &mut W) -> io::Result<()> {
        let told = usize::from(self.start);
        match self.command {
            Command::Judge(kind) => self.judge(out, kind, told),
            Command::JudgeFar => self.judge(out, Kind::Untranslated, usize::MAX - told),
            Command::Translate => self.translate(out),
        }
    }
}

// How much of a buffer is lent.
fn lent(room: u16) -> usize
    ensures { result ≤ 8192 }
{
    usize::from(room).min(ROOM)
}

fn main(rt: HostRuntime) -> io::Result<()> {
    let mut input = [0u8; INPUT_ROOM];
    let read = records::read_full(&mut rt.stdin(), &mut input);
    records::obey_all::<Asked, _>(&input[..read], &mut rt.stdout())
}
