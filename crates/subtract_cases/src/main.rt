// Runs Subtract on fields of four bytes, dirty spare bits and dirty bytes behind among them, with a row count and with a record: a line each, with the answer and
// the first field's bytes. Numbers are hexadecimal.
#![tactic(auto)]

use case_lines::Hex;
use refusal::Refusal;
use std::io;
use subtract::{Counts, Record, Subtracted};

/// A field, and the one that is subtracted from it.
#[derive(Clone, Copy)]
struct Case {
    name: &'static str,
    first: [u8; 4],
    second: [u8; 4],
    rows: u64,
}

/// A field with its record, and two that are subtracted in turn, each time with the record as it is then.
#[derive(Clone, Copy)]
struct InTurn {
    name: &'static str,
    first: [u8; 4],
    second: [u8; 4],
    third: [u8; 4],
    record: Record,
}

static CASES: [Case; 10] = [
    Case {
        name: "rows 0, 2, 5 of six",
        first: [0x3F, 0, 0, 0],
        second: [0x25, 0, 0, 0],
        rows: 6,
    },
    Case {
        name: "dirty spare bits",
        first: [0xFF, 0xFF, 0xFF, 0xFF],
        second: [0xFF, 0xFF, 0xFF, 0xFF],
        rows: 6,
    },
    Case {
        name: "dirty spare bits of two bytes",
        first: [0xFF, 0xFF, 0xFF, 0xFF],
        second: [0x0F, 0xFF, 0xFF, 0xFF],
        rows: 13,
    },
    Case {
        name: "dirty bytes behind",
        first: [0xFF, 0xAA, 0xBB, 0xCC],
        second: [0x0F, 0x11, 0x22, 0x33],
        rows: 8,
    },
    Case {
        name: "no rows",
        first: [0xFF, 0xAA, 0xBB, 0xCC],
        second: [0xFF, 0xFF, 0xFF, 0xFF],
        rows: 0,
    },
    Case {
        name: "all rows",
        first: [0x12, 0x34, 0x56, 0x78],
        second: [0xF0, 0xF0, 0xF0, 0xF0],
        rows: 32,
    },
    Case {
        name: "nothing to remove",
        first: [0x12, 0x34, 0x56, 0x78],
        second: [0, 0, 0, 0],
        rows: 31,
    },
    Case {
        name: "one row too many",
        first: [0x12, 0x34, 0x56, 0x78],
        second: [0xFF, 0xFF, 0xFF, 0xFF],
        rows: 33,
    },
    Case {
        name: "the greatest row count",
        first: [0x12, 0x34, 0x56, 0x78],
        second: [0xFF, 0xFF, 0xFF, 0xFF],
        rows: 2147483647,
    },
    Case {
        name: "past the limit",
        first: [0x12, 0x34, 0x56, 0x78],
        second: [0xFF, 0xFF, 0xFF, 0xFF],
        rows: 2147483648,
    },
];

static IN_TURN: [InTurn; 10] = [
    InTurn {
        name: "an answer of six rows, two of them null",
        first: [0x3F, 0, 0, 0],
        second: [0x25, 0, 0, 0],
        third: [0x40, 0, 0, 0],
        record: Record {
            rows: 6,
            nulls: 2,
            deleted: 0,
            matched: 6,
        },
    },
    InTurn {
        name: "deleted rows that were not chosen",
        first: [0x30, 0, 0, 0],
        second: [0x0F, 0, 0, 0],
        third: [0x3F, 0, 0, 0],
        record: Record {
            rows: 6,
            nulls: 0,
            deleted: 0,
            matched: 2,
        },
    },
    InTurn {
        name: "what the record had is replaced",
        first: [0xFF, 0x0F, 0, 0],
        second: [0x11, 0xFF, 0, 0],
        third: [0x22, 0, 0, 0],
        record: Record {
            rows: 12,
            nulls: 3,
            deleted: 77,
            matched: 99,
        },
    },
    InTurn {
        name: "dirty spare bits and bytes behind",
        first: [0xFF, 0xFF, 0xFF, 0xFF],
        second: [0x0F, 0xFF, 0xFF, 0xFF],
        third: [0xF0, 0x0F, 0xFF, 0xFF],
        record: Record {
            rows: 13,
            nulls: 1,
            deleted: 0,
            matched: 13,
        },
    },
    InTurn {
        name: "no rows left",
        first: [0x12, 0x34, 0x56, 0x78],
        second: [0xFF, 0xFF, 0xFF, 0xFF],
        third: [0, 0, 0, 0],
        record: Record {
            rows: 32,
            nulls: 32,
            deleted: 5,
            matched: 13,
        },
    },
    InTurn {
        name: "no rows at all",
        first: [0xFF, 0xAA, 0xBB, 0xCC],
        second: [0xFF, 0xFF, 0xFF, 0xFF],
        third: [0xFF, 0, 0, 0],
        record: Record {
            rows: 0,
            nulls: 9,
            deleted: 9,
            matched: 9,
        },
    },
    InTurn {
        name: "one row too many",
        first: [0x12, 0x34, 0x56, 0x78],
        second: [0xFF, 0xFF, 0xFF, 0xFF],
        third: [0xFF, 0, 0, 0],
        record: Record {
            rows: 33,
            nulls: 1,
            deleted: 2,
            matched: 3,
        },
    },
    InTurn {
        name: "the greatest row count",
        first: [0x12, 0x34, 0x56, 0x78],
        second: [0xFF, 0xFF, 0xFF, 0xFF],
        third: [0xFF, 0, 0, 0],
        record: Record {
            rows: 2147483647,
            nulls: 1,
            deleted: 2,
            matched: 3,
        },
    },
    InTurn {
        name: "past the limit",
        first: [0x12, 0x34, 0x56, 0x78],
        second: [0xFF, 0xFF, 0xFF, 0xFF],
        third: [0xFF, 0, 0, 0],
        record: Record {
            rows: 2147483648,
            nulls: 1,
            deleted: 2,
            matched: 3,
        },
    },
    InTurn {
        name: "the greatest numbers",
        first: [0x12, 0x34, 0x56, 0x78],
        second: [0x10, 0x10, 0x10, 0x10],
        third: [0x02, 0, 0, 0],
        record: Record {
            rows: 32,
            nulls: 18446744073709551615,
            deleted: 18446744073709551615,
            matched: 18446744073709551615,
        },
    },
];

fn say_refused(rt: &impl Print, why: Refusal) -> io::Result<()> {
    let number = why.number();
    print!(rt; ": refused {number:02x}")
}

fn say_counts(rt: &impl Print, counted: Result<Counts, Refusal>) -> io::Result<()> {
    match counted {
        Ok(Counts { left, removed }) => print!(rt; ": left {left:02x}, removed {removed:02x}"),
        Err(why) => say_refused(rt, why),
    }
}

fn say_subtracted(rt: &impl Print, subtracted: Result<Subtracted, Refusal>) -> io::Result<()> {
    let Subtracted { answer, removed } = match subtracted {
        Ok(subtracted) => subtracted,
        Err(why) => return say_refused(rt, why),
    };
    let said = if answer.is_skip() { "skip" } else { "keep" };
    let Record {
        rows,
        nulls,
        deleted,
        matched,
    } = answer.record();
    print!(rt;
        ": {said}, rows {rows:02x}, nulls {nulls:02x}, deleted {deleted:02x}, matched {matched:02x}, removed {removed:02x}"
    )
}

fn say_field(rt: &impl Print, field: &[u8]) -> io::Result<()> {
    let bytes = Hex(field);
    println!(rt; ", field{bytes}")
}

fn run(rt: &impl Print, case: Case) -> io::Result<()> {
    let mut first = case.first;
    rt.print(case.name)?;
    say_counts(rt, subtract::subtract(&mut first, &case.second, case.rows))?;
    say_field(rt, &first)
}

fn run_in_turn(rt: &impl Print, case: InTurn) -> io::Result<()> {
    let mut first = case.first;
    let mut record = case.record;
    for (name, second) in [(case.name, case.second), ("  then", case.third)] {
        let subtracted = subtract::subtract_record(&mut first, &second, record);
        rt.print(name)?;
        say_subtracted(rt, subtracted)?;
        say_field(rt, &first)?;
        if let Ok(subtracted) = subtracted {
            record = subtracted.answer.record();
        }
    }
    Ok(())
}

fn main(rt: HostRuntime) -> io::Result<()> {
    for case in &CASES {
        run(&rt, *case)?;
    }
    for case in &IN_TURN {
        run_in_turn(&rt, *case)?;
    }
    Ok(())
}
