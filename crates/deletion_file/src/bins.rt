// A bin as the file has it.
ghost use Rattle.std.specs.Prelude.{◌≤◌, length};
ghost use Rattle.deletion_file.specs.Layout.{number_size};

use numbers::Position;

/// A bin of a deletion file: where in the file its bytes begin, the bytes, with room for a magic at their front, and the checksum that the file has behind them.
#[derive(Clone, Copy, Debug)]
pub struct Bin<'a> {
    pub at: Position,
    pub bytes: &'a [u8],
    pub sum: u64,
    pub ghost has_room: { number_size ≤ length bytes.now },
}
