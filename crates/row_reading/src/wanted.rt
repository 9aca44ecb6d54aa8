// Which cells of a file are wanted of its base.
ghost use Rattle.std.specs.Prelude.{◌↔◌, ◌≤◌, ℕ};
ghost use Rattle.row_reading.specs.BaseReads.{IsFirstIn};

use crate::chunk_disk::ChunkDisk;

/// The places of a file whose cells are wanted of its base. Who lays other bytes over the base wants no cell under them:
/// none there is lost, and no chunk is read for it.
pub trait Wanted<D: ChunkDisk> {
    /// The cell at this place of the file is wanted.
    ghost is_wanted: { Self → D → ℕ → Type 0 };

    /// The first place that is wanted, from one place up to another.
    fn first_wanted(&self, disk: &D, from: u64, to: u64) -> Option<u64>
        requires { from ≤ to }
        ensures { IsFirstIn (is_wanted self.now disk.now) from to result };

    /// Reads leave what is wanted.
    ghost same_wanted: { (w : Self) (a b : D) → D.is_from a b → (p : ℕ) → is_wanted w a p ↔ is_wanted w b p };
}

/// Each cell is wanted.
#[derive(Clone, Copy)]
pub struct EachCell;

impl<D: ChunkDisk> Wanted<D> for EachCell {
    ghost is_wanted = { λ w disk p. Unit {0} };

    ghost same_wanted = { λ w a b from p. (λ one. tt, λ one. tt) };

    fn first_wanted(&self, _disk: &D, from: u64, to: u64) -> Option<u64> {
        if from < to { Some(from) } else { None }
    }
}
