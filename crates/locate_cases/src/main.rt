// Asks for a column and a kind in the index files that the file `cases` lays out (see `case_lines`), with the given bytes as the embedded ones:
//   find   COLUMN KIND: prints what `find` says, the number that Locate answers, and the part that it hands back
//   cuts   COLUMN KIND: the same of each proper prefix of the file
//   each   COLUMN KIND AT COUNT: the same of the file with each number below COUNT as its byte AT
//   named  KIND BYTES: asks for the column whose name the bytes are
//   kind   COLUMN BYTES: asks for the kind whose name the bytes are
//   long   KIND BYTE COUNT: asks for the column whose name is so many times the byte
//   ask    COLUMN KIND TYPE EDITION NAME LITERALS: asks the file in a buffer of two bytes A5, and prints the answer and the buffer
// A name is a word: `find  k` asks for the empty column, `find s` for the empty kind.
#![tactic(auto)]

use bitmap_index::Question;
use case_lines::{Answered, Hex, Laid, Line, Outcome};
use index_file::Part;
use numbers::Position;
use std::{fmt, io};

/// The most bytes that a file has, and those that are embedded.
const MOST: usize = 4096;

/// The most bytes of a file whose bytes are changed.
const MOST_CHANGED: usize = 128;

/// The most bytes of a name that bytes spell, and of literals.
const MOST_SPELLED: usize = 64;

/// The most bytes of a long name.
const MOST_LONG: usize = 65536;

/// What a line asks for, by its first letter.
#[derive(Clone, Copy, Debug, PartialEq, Eq)]
enum Command {
    Find,
    Cuts,
    Each,
    Named,
    Kind,
    Long,
    Ask,
    LayOut,
}

impl From<u8> for Command {
    fn from(letter: u8) -> Command {
        match letter {
            b'f' => Command::Find,
            b'c' => Command::Cuts,
            b'e' => Command::Each,
            b'n' => Command::Named,
            b'k' => Command::Kind,
            b'l' => Command::Long,
            b'a' => Command::Ask,
            _ => Command::LayOut,
        }
    }
}

/// Where a body is found, if it is listed.
#[derive(Clone, Copy, Debug)]
struct Found(Option<Part>);

impl fmt::Display for Found {
    fn fmt<W: fmt::Write>(&self, f: &mut fmt::Formatter<W>) -> fmt::Result {
        match self.0 {
            Some(
                Part {
                    start: Position(start),
                    length,
                },
            ) => write!(f, "found at {start}, length {length}"),
            None => write!(f, "absent"),
        }
    }
}

/// What a file answers, if the column and the kind are listed.
#[derive(Clone, Copy, Debug)]
struct FileAnswered(Option<Answered>);

impl fmt::Display for FileAnswered {
    fn fmt<W: fmt::Write>(&self, f: &mut fmt::Formatter<W>) -> fmt::Result {
        match self.0 {
            Some(answer) => write!(f, "{answer}"),
            None => write!(f, "absent"),
        }
    }
}

/// A file, and the bytes that are embedded.
#[derive(Clone, Copy, Debug)]
struct Files<'a> {
    embedded: &'a [u8],
    file: &'a [u8],
}

impl Files<'_> {
    fn find(self, rt: &impl Print, column: &[u8], kind: &[u8]) -> io::Result<()> {
        let Files { embedded, file } = self;
        let found = Outcome(file_to_answers::find(embedded, file, column, kind).map(Found));
        let mut answer = 99u8;
        let part = file_to_answers::locate(embedded, file, column, kind, &mut answer);
        let length = part.len();
        let bytes = Hex(part);
        println!(rt; ": {found}; answer {answer}, part {length}{bytes}")
    }

    fn ask(self, rt: &(impl Print + AllocGlobal), line: Line<'_>) -> io::Result<()> {
        let Files { embedded, file } = self;
        let mut literals = Laid::new(rt.alloc(), MOST_SPELLED)?;
        literals.append_hex(line.from_word(6));
        let t = line.number32(3);
        let question = Question {
            edition: line.number32(4),
            name: line.number32(5),
        };
        let mut field = [0xA5u8; 2];
        let answer = file_to_answers::ask_file(
            embedded,
            file,
            line.word(1),
            line.word(2),
            t,
            question,
            &literals.bytes,
            &mut field,
        );
        let outcome = Outcome(answer.map(|answer| FileAnswered(answer.map(Answered))));
        let bytes = Hex(&field);
        println!(rt; ": {outcome}, field{bytes}")
    }

    // Finds a column and a kind in the file with each of the numbers that a line says as its byte.
    fn each(self, rt: &(impl Print + AllocGlobal), line: Line<'_>) -> io::Result<()> {
        let most = self.file.len().min(MOST_CHANGED);
        let mut changed = self.file[..most].to_vec(rt.alloc())?;
        let column = line.word(1);
        let kind = line.word(2);
        let at = line.number(3) as usize;
        for number in 0..line.number(4) {
            if at < changed.len() {
                changed[at] = (number % 256) as u8;
            }
            print!(rt; "byte {number}")?;
            let files = Files {
                embedded: self.embedded,
                file: &changed,
            };
            files.find(rt, column, kind)?;
        }
        Ok(())
    }
}

// The name that a line's words from the second on spell.
fn spelled(rt: &impl AllocGlobal, line: Line<'_>) -> io::Result<Laid> {
    let mut name = Laid::new(rt.alloc(), MOST_SPELLED)?;
    name.append_hex(line.from_word(2));
    Ok(name)
}

// Does the call that a line says.
fn call(
    rt: &(impl Print + AllocGlobal),
    files: Files<'_>,
    command: Command,
    line: Line<'_>,
) -> io::Result<()> {
    if command != Command::Cuts && command != Command::Each {
        case_lines::say(rt, line.text)?;
    }
    match command {
        Command::Find => files.find(rt, line.word(1), line.word(2)),
        Command::Cuts => {
            let column = line.word(1);
            let kind = line.word(2);
            case_lines::cuts(rt, files.file, |file| {
                let cut = Files {
                    embedded: files.embedded,
                    file,
                };
                cut.find(rt, column, kind)
            })
        }
        Command::Each => files.each(rt, line),
        Command::Named => files.find(rt, &spelled(rt, line)?.bytes, line.word(1)),
        Command::Kind => files.find(rt, line.word(1), &spelled(rt, line)?.bytes),
        Command::Long => {
            let count = (line.number(3) as usize).min(MOST_LONG);
            let name = vec![in rt.alloc(); (line.number(2) % 256) as u8; count]?;
            files.find(rt, &name, line.word(1))
        }
        Command::Ask => files.ask(rt, line),
        Command::LayOut => Ok(()),
    }
}

fn main(rt: HostRuntime) -> io::Result<()> {
    let text = case_lines::read(&rt, b"cases", 65536)?;
    let mut file = Laid::new(rt.alloc(), MOST)?;
    let mut embedded = Laid::new(rt.alloc(), MOST)?;
    for line in case_lines::lines_of(&text) {
        embedded.give(line);
        match Command::from(line.letter()) {
            Command::LayOut => file.lay_out(&rt, line)?,
            command => {
                let files = Files {
                    embedded: &embedded.bytes,
                    file: &file.bytes,
                };
                call(&rt, files, command, line)?;
            }
        }
    }
    Ok(())
}
