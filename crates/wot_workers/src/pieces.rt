//! How work is cut into pieces.

ghost use Rattle.std.specs.Prelude.{◌≡◌, ◌≤◌, ◌<◌, ◌/◌};
ghost use Rattle.wot_workers.specs.Pieces.{IsPieceSize, first_some};

/// The size of pieces by which so many workers share so many things.
pub fn piece_size(len: usize, workers: u32) -> usize
    requires some { 1 ≤ workers }
    ensures { IsPieceSize workers len result }
{
    len.div_ceil(workers as usize).max(1)
}

/// The number of the piece that begins at this place, from 0.
pub fn piece_number(start: usize, size: usize) -> u32
    requires size { 1 ≤ size }
    requires few { start / size < 64 }
    ensures { result ≡ start / size }
{
    (start / size) as u32
}

/// The first thing that a piece told.
pub fn first_some<X: Copy>(told: &[Option<X>]) -> Option<X>
    ensures { result ≡ first_some told.now }
{
    for one in told {
        if one.is_some() {
            return *one;
        }
    }
    None
}
