// Two loops that mark a run of rows, for the benchmark of rust/benchmark_loops and nothing else: the library's, and one that tests and sets bit by bit. Both keep the promise of
// `row_field::mark_run`, so that they differ in their time alone.
#![tactic(auto)]

ghost use Rattle.std.specs.Prelude.{◌-◌};
ghost use Rattle.row_field.specs.Meaning.{up_to};
ghost use Rattle.row_field.specs.Promises.{MarkedRows};

use numbers::Row;

/// The library's run marker: sets the rows from `first` up to `end`, none if `end` isn't behind `first`, whole bytes at a time, and answers whether one of them was set already.
pub fn benchmark_mark_run(field: &mut [u8], first: u64, end: u64) -> bool
    ensures { MarkedRows field.old field.new (up_to first (end - first)) result }
{
    if end <= first {
        return false;
    }
    row_field::mark_run::<true>(field, Row(first), Row(end - 1))
}

/// The same, bit by bit: each row is tested and set in its turn, as far as the field has bits.
// No twin of `row_field::mark_run`: this loop is what its speed is measured against, and so stays one row at a time.
pub fn benchmark_mark_bits(field: &mut [u8], first: u64, end: u64) -> bool
    ensures { MarkedRows field.old field.new (up_to first (end - first)) result }
{
    let stop = end.min((field.len() as u64).saturating_mul(8));
    let mut seen = false;
    for row in first..stop {
        seen |= row_field::mark(field, Row(row));
    }
    seen
}
