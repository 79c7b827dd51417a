// The exports of the two loops of `benchmark_loops`, each with its promise. Their archive is libbenchmark_loops.a.
#![tactic(auto)]

ghost use Rattle.std.specs.Prelude.{◌≡◌, ◌-◌};
ghost use Rattle.row_field.specs.Meaning.{up_to};
ghost use Rattle.row_field.specs.Promises.{MarkedRows};

#[unsafe(no_mangle)]
pub extern "C" fn benchmark_mark_run(field: &mut [u8], first: u64, end: u64) -> bool
    ensures { MarkedRows field.old field.new (up_to first (end - first)) result }
{
    benchmark_loops::benchmark_mark_run(field, first, end)
}

#[unsafe(no_mangle)]
pub extern "C" fn benchmark_mark_bits(field: &mut [u8], first: u64, end: u64) -> bool
    ensures { MarkedRows field.old field.new (up_to first (end - first)) result }
{
    benchmark_loops::benchmark_mark_bits(field, first, end)
}
