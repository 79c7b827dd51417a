// The rows that a window shows.
ghost use Rattle.std.specs.Prelude.{◌+◌, ◌≤◌};
ghost use Rattle.deletion_window.specs.Layout.{end_of_all_rows};

/// So many rows from `first` on, which end at 2^63 at most.
#[derive(Clone, Copy, Debug)]
pub struct Shown {
    pub first: u64,
    pub rows: u64,
    pub ghost ends: { first + rows ≤ end_of_all_rows },
}
