// Reads the deletion files that the file `cases` lays out (see `case_lines`), and prints each answer and the buffer that it leaves:
//   append  appends the given bytes as a bin: size, bytes and checksum; a number behind it has its bits turned in the checksum
//   read    BIN ROWS ROOM: reads a bin in a buffer of ROOM bytes AA
//   cuts    BIN ROWS ROOM: reads it in each proper prefix of the file
//   through BIN ROWS ROOM FIRST: reads a bin through the window of ROWS rows from FIRST on
//   ends    BIN ROWS ROOM FIRST: reads it so in each proper prefix of the file
#![tactic(auto)]

use case_lines::{Laid, Line};
use numbers::Row;
use refusal::Refusal;
use std::{fmt, io};

/// The most bytes that a file, a bin and a buffer have.
const MOST: usize = 16384;

/// What a line asks for, by its first letter.
#[derive(Clone, Copy, Debug, PartialEq, Eq)]
enum Command {
    Append,
    Read,
    Cuts,
    Through,
    Ends,
    LayOut,
}

impl From<u8> for Command {
    fn from(letter: u8) -> Command {
        match letter {
            b'a' => Command::Append,
            b'r' => Command::Read,
            b'c' => Command::Cuts,
            b't' => Command::Through,
            b'e' => Command::Ends,
            _ => Command::LayOut,
        }
    }
}

/// The rows of a bin that a line asks for, and the room of the buffer for them.
#[derive(Clone, Copy, Debug)]
struct Asked {
    bin: u64,
    rows: u64,
    room: usize,
    first: Row,
}

impl From<Line<'_>> for Asked {
    fn from(line: Line<'_>) -> Asked {
        Asked {
            bin: line.number(1),
            rows: line.number(2),
            room: line.number(3) as usize,
            first: Row(line.number(4)),
        }
    }
}

/// How many rows are deleted.
#[derive(Clone, Copy, Debug)]
struct Deleted(u64);

impl fmt::Display for Deleted {
    fn fmt<W: fmt::Write>(&self, f: &mut fmt::Formatter<W>) -> fmt::Result {
        let rows = self.0;
        write!(f, "deleted {rows}")
    }
}

fn read(rt: &(impl Print + AllocGlobal), file: &[u8], asked: Asked) -> io::Result<()> {
    let Asked {
        bin,
        rows,
        room,
        ..
    } = asked;
    case_lines::say_call(rt, room, 0xAA, rows, |buffer| {
        deletion_file::read_deletions(file, bin, rows, buffer).map(Deleted)
    })
}

fn read_window(rt: &(impl Print + AllocGlobal), file: &[u8], asked: Asked) -> io::Result<()> {
    let Asked {
        bin,
        rows,
        room,
        first,
    } = asked;
    case_lines::say_call(rt, room, 0xAA, rows, |buffer| {
        deletion_window::read_window(file, bin, first, rows, buffer).map(Deleted)
    })
}

// Appends a bin to the file.
fn append(file: &mut Laid, bin: &[u8], turned: u32) {
    file.append_number(bin.len() as u64);
    file.append(bin);
    file.append_number(u64::from(crc32::checksum(bin) ^ turned));
}

// Does the call that a line says, unless the buffer that it asks for is too large.
fn call(
    rt: &(impl Print + AllocGlobal),
    file: &[u8],
    command: Command,
    line: Line<'_>,
) -> io::Result<()> {
    let asked = Asked::from(line);
    if MOST < asked.room {
        return Ok(());
    }
    match command {
        Command::Read => {
            case_lines::say(rt, line.text)?;
            read(rt, file, asked)
        }
        Command::Cuts => case_lines::cuts(rt, file, |prefix| read(rt, prefix, asked)),
        Command::Through => {
            case_lines::say(rt, line.text)?;
            read_window(rt, file, asked)
        }
        Command::Ends => case_lines::cuts(rt, file, |prefix| read_window(rt, prefix, asked)),
        Command::Append | Command::LayOut => Ok(()),
    }
}

fn main(rt: HostRuntime) -> io::Result<()> {
    let text = case_lines::read(&rt, b"cases", 65536)?;
    let mut file = Laid::new(rt.alloc(), MOST)?;
    let mut bin = Laid::new(rt.alloc(), MOST)?;
    for line in case_lines::lines_of(&text) {
        bin.give(line);
        match Command::from(line.letter()) {
            Command::Append => append(&mut file, &bin.bytes, line.number32(1)),
            Command::LayOut => file.lay_out(&rt, line)?,
            command => call(&rt, &file.bytes, command, line)?,
        }
    }
    Ok(())
}
