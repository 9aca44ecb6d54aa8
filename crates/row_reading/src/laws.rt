//! Laws of what can be read, each the contract of an empty function.

ghost use Rattle.std.specs.Prelude.{◌≡◌, ◌*◌, ℕ, List, length};
ghost use Rattle.row_reading.specs.Reading.{IsReadable};
ghost use Rattle.volume_inside.specs.declared.layout.TheConstants.{CLUSTER_BYTES};
ghost use Rattle.volume_inside.specs.ChunkRules.{ChunksHold};
ghost use Rattle.volume_inside.specs.ChunkTables.{ChunkTables};

/// Tables of chunks that meet their rules can be read, over an image of as many clusters as the rules speak of.
pub fn lawful_tables_are_readable()
    ensures { (n next : ℕ) (t : ChunkTables) (image : List ℕ) → length image ≡ CLUSTER_BYTES * n → ChunksHold n next t →
        IsReadable t image }
{}
