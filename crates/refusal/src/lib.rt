// The fourteen refusals, one error type for every call. Four of them say where the fault is.
#![tactic(auto)]

ghost use Rattle.std.specs.Prelude.{◌≡◌};
ghost use Rattle.refusal.specs.Meaning.{number_of, fault_of};

use numbers::Row;
use std::error::Error;
use std::fmt;

/// The longest input buffer and the highest row count.
pub const LIMIT: u64 = 2_147_483_647;

/// What is said of a fault where a refusal carries nothing, and of an accepted answer.
pub const NO_FAULT: [u64; 3] = [0, 0, 0];

/// Why a call refuses. An entry is numbered in stored order: 0 is null's, the values' are from 1 on, through all blocks, of a lookup within its block; a deletion
/// bin's is 0. A container is numbered from 0 in its bitmap.
#[derive(Clone, Copy, Debug, PartialEq, Eq)]
pub enum Refusal {
    Short,
    Magic,
    Version,
    Head,
    Dict,
    Bitmap { entry: u64, container: u64 },
    Range { entry: u64 },
    Twice { entry: u64 },
    Missing { row: Row },
    Room,
    Literal,
    Limit,
    Checksum,
    NoBin,
}

impl Refusal {
    /// Its number, from 1 to 14: what a call answers in C.
    pub fn number(self) -> u8
        ensures { result ≡ number_of self }
    {
        match self {
            Refusal::Short => 1,
            Refusal::Magic => 2,
            Refusal::Version => 3,
            Refusal::Head => 4,
            Refusal::Dict => 5,
            Refusal::Bitmap { .. } => 6,
            Refusal::Range { .. } => 7,
            Refusal::Twice { .. } => 8,
            Refusal::Missing { .. } => 9,
            Refusal::Room => 10,
            Refusal::Literal => 11,
            Refusal::Limit => 12,
            Refusal::Checksum => 13,
            Refusal::NoBin => 14,
        }
    }

    /// Where the fault is: the entry, the container and the row, 0 in each that the refusal does not carry.
    pub fn fault(self) -> [u64; 3]
        ensures { result ≡ fault_of self }
    {
        match self {
            Refusal::Bitmap { entry, container } => [entry, container, 0],
            Refusal::Range { entry } | Refusal::Twice { entry } => [entry, 0, 0],
            Refusal::Missing { row } => [0, 0, row.0],
            _ => NO_FAULT,
        }
    }
}

impl fmt::Display for Refusal {
    fn fmt<W: fmt::Write>(&self, f: &mut fmt::Formatter<W>) -> fmt::Result {
        match self {
            Refusal::Short => write!(f, "SHORT"),
            Refusal::Magic => write!(f, "MAGIC"),
            Refusal::Version => write!(f, "VERSION"),
            Refusal::Head => write!(f, "HEAD"),
            Refusal::Dict => write!(f, "DICT"),
            Refusal::Bitmap { entry, container } => {
                write!(f, "BITMAP: entry {entry}, container {container}")
            }
            Refusal::Range { entry } => write!(f, "RANGE: entry {entry}"),
            Refusal::Twice { entry } => write!(f, "TWICE: entry {entry}"),
            Refusal::Missing { row } => {
                let row = row.0;
                write!(f, "MISSING: row {row}")
            }
            Refusal::Room => write!(f, "ROOM"),
            Refusal::Literal => write!(f, "LITERAL"),
            Refusal::Limit => write!(f, "LIMIT"),
            Refusal::Checksum => write!(f, "CHECKSUM"),
            Refusal::NoBin => write!(f, "NOBIN"),
        }
    }
}

impl Error for Refusal {}
