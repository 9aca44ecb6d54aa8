// Laws of rows, copies and bases, each the contract of an empty function.
ghost use Rattle.std.specs.Prelude.{◌≡◌, ◌⊎◌, ◌≤◌, ◌<◌, ◌+◌, ◌*◌, ◌/◌, ◌%◌, ℕ, Bool, false, List, length, get_or};
ghost use Rattle.std.specs.Prelude.{Some, None, IsSome, IsSomeAnd};
ghost use Rattle.std.specs.Ordering.{nat_cmp};
ghost use Rattle.std.specs.FinMap.{find};
ghost use Rattle.sha2.specs.Sha256.{sha256};
ghost use Rattle.plain_volume.specs.Volume.{Byte};
ghost use Rattle.table_records.specs.Keys.{pair_cmp};
ghost use Rattle.table_records.specs.declared.records.FileRecord.{FileRecord};
ghost use Rattle.table_records.specs.declared.chunk_records.Row.{Row};
ghost use Rattle.table_records.specs.declared.chunk_records.Container.{Container};
ghost use Rattle.volume_inside.specs.declared.layout.TheConstants.{CLUSTER_BYTES};
ghost use Rattle.volume_inside.specs.ChunkTables.{ChunkTables, PageKey};
ghost use Rattle.volume_inside.specs.Typed.{Typed};
ghost use Rattle.volume_inside.specs.Layout.{AreData};
ghost use Rattle.volume_inside.specs.Lists.{IsOnce};
ghost use Rattle.volume_inside.specs.Ranges.{IsApart};
ghost use Rattle.volume_inside.specs.Named.{named, clusters_of, IsUnnamed};
ghost use Rattle.volume_inside.specs.Pages.{used_of, page_length, content};
ghost use Rattle.volume_inside.specs.Chunks.{Bases, if_sound, chunk, chunks_at, length_of};
ghost use Rattle.volume_inside.specs.ChunkChanges.{Extends, IsRedirected, IsDamaged, HasOneText, Grows, HasPages};
ghost use Rattle.volume_inside.specs.Mapping.{IsLike};
ghost use Rattle.volume_inside.specs.Damage.{IsVolumeFrom};
ghost use Rattle.volume_inside.specs.Entries.{Each};
ghost use Rattle.volume_inside.specs.Inside.{Inside};
ghost use Rattle.volume_inside.specs.Changes.{with_block, with_cluster, with_container, keep_clusters, keep_containers};
ghost use Rattle.volume_inside.specs.View.{cell, view};
ghost use Rattle.volume_inside.specs.ChunkRules.{BaseHolds, IsMapRow, MapRowHolds, MapsHold};
ghost use Rattle.volume_inside.specs.Joins.{HasCover, IsJoined};
ghost use Rattle.volume_inside.specs.Tails.{AreTailsFree};

/// A row that is not redirected reads as its first copy, or else as its second one, where that has the digest of the
/// row, and never as other bytes. A redirected row reads as the row that stands for it.
pub fn chunks_are_sound_copies()
    ensures digest { (b : Bases) (id : ℕ) (row : Row) (bytes : List ℕ) → find nat_cmp id b.rows ≡ Some row →
        row.redirect ≡ 0 → chunk b id ≡ Some bytes → sha256 bytes ≡ row.digest }
    ensures first { (b : Bases) (id : ℕ) (row : Row) (bytes : List ℕ) → find nat_cmp id b.rows ≡ Some row →
        row.redirect ≡ 0 → find pair_cmp (id, 0) b.copies ≡ Some bytes → sha256 bytes ≡ row.digest →
        chunk b id ≡ Some bytes }
    ensures second { (b : Bases) (id : ℕ) (row : Row) (bytes : List ℕ) → find nat_cmp id b.rows ≡ Some row →
        row.redirect ≡ 0 → if_sound row.digest (find pair_cmp (id, 0) b.copies) ≡ None →
        find pair_cmp (id, 1) b.copies ≡ Some bytes → sha256 bytes ≡ row.digest → chunk b id ≡ Some bytes }
    ensures redirect { (b : Bases) (id : ℕ) (row target : Row) → find nat_cmp id b.rows ≡ Some row →
        (row.redirect ≡ 0 → ⊥) → find nat_cmp row.redirect b.rows ≡ Some target → target.redirect ≡ 0 →
        chunk b id ≡ chunk b row.redirect }
{}

/// A container whose pages are there holds as many bytes as are used.
pub fn containers_hold_the_bytes_that_are_used()
    ensures { (t : ChunkTables) (c : ℕ) (image : List ℕ) → HasPages t c image →
        length (content t c image) ≡ used_of t.containers c }
{}

/// Rows and copies that are put beside those that are there leave the chunks of these.
pub fn more_rows_leave_the_chunks()
    ensures { (b c : Bases) → Extends b c → (id : ℕ) → IsSome (find nat_cmp id b.rows) → chunk c id ≡ chunk b id }
{}

/// A redirect between rows that have the same bytes leaves each chunk.
pub fn redirects_between_equal_chunks_leave_them()
    ensures { (b c : Bases) (id to : ℕ) (row target : Row) → IsRedirected b c id to row target →
        (x : ℕ) → chunk c x ≡ chunk b x }
{}

/// Where containers grow behind what was used, and each place lies in that, each copy has the bytes that it had.
pub fn appends_leave_the_copies()
    ensures { (t u : ChunkTables) (image : List ℕ) → ((c : ℕ) → Grows t u c) → ((c : ℕ) → HasPages t c image) →
        u.rows ≡ t.rows → u.places ≡ t.places →
        Each (λ k p. p.offset + length_of t.rows k.0 ≤ used_of t.containers p.container) t.places →
        chunks_at u image ≡ chunks_at t image }
{}

/// Where each row that was there has the chunk that it had, the volume is the same. So new rows, redirects, copies that
/// are put, moved or dropped, and rows that nothing names and that go, are not seen, as far as they leave these chunks.
pub fn the_same_chunks_show_the_same_volume()
    ensures { (i j : Inside) → j.names ≡ i.names → j.files ≡ i.files → j.blocks ≡ i.blocks →
        ((id : ℕ) → IsSome (find nat_cmp id i.bases.rows) → chunk j.bases id ≡ chunk i.bases id) →
        Each (MapRowHolds i.bases.rows) i.files → Each HasCover i.files → MapsHold i → view j ≡ view i }
{}

/// The map of a file is as it should be where it was for more of the same file. And the maps of all files are, where they
/// were, each row is there still with its kind and its length, and each row of a map has its chunk still, or is lost.
pub fn maps_go_on()
    ensures shorter { (b : Bases) (id : ℕ) (was file : FileRecord) → file.covers ≤ was.covers →
        ((file.covers ≡ 0 → ⊥) → file.map_row ≡ was.map_row) → BaseHolds b id was → BaseHolds b id file }
    ensures rows { (b c : Bases) (files : List (ℕ × FileRecord)) → ((id : ℕ) (row : Row) →
        find nat_cmp id b.rows ≡ Some row → IsSomeAnd (find nat_cmp id c.rows) (IsLike row)) →
        ((m : ℕ) → IsSomeAnd (find nat_cmp m b.rows) IsMapRow → (chunk c m ≡ chunk b m) ⊎ (chunk c m ≡ None)) →
        Each (MapRowHolds b.rows) files → Each HasCover files → Each (BaseHolds b) files → Each (BaseHolds c) files }
{}

/// A block that holds the cells that stood at its place shows the same volume. None of these cells is lost.
pub fn a_recalled_block_shows_the_same_volume()
    ensures { (i : Inside) (id n : ℕ) (bytes : List ℕ) →
        ((file : FileRecord) (p : ℕ) → find nat_cmp id i.files ≡ Some file → p < file.length → p / CLUSTER_BYTES ≡ n →
        cell i id file p ≡ Byte (get_or bytes (p % CLUSTER_BYTES) 0)) → view (with_block (id, n) bytes i) ≡ view i }
{}

/// A base in the place of the blocks of a file, whose pieces spell the cells of the file, shows the same volume.
pub fn a_base_of_the_same_cells_shows_the_same_volume()
    ensures { (i j : Inside) (id : ℕ) (was file : FileRecord) → IsJoined i j id was file → view j ≡ view i }
{}

/// Damage of copies loses cells and changes none, where no row has two sound copies with different bytes: each copy
/// stays or no longer has the digest of its row, and each cell of the volume stays or is lost.
pub fn damage_loses_cells_and_changes_none()
    ensures { (i : Inside) (c : Bases) → HasOneText i.bases → IsDamaged i.bases c →
        IsVolumeFrom (view i) (view (record i { bases = c })) }
{}

/// Once all tables are stored, which name no cluster twice, they name no byte behind what is used of a container.
pub fn tails_are_free_after_a_commit()
    ensures { (n : ℕ) (t : Typed) → AreData n (clusters_of t) → IsOnce (clusters_of t) → AreTailsFree t t.chunks }
{}

/// A write behind what is used of a container touches nothing that the stored tables name. So it goes on over a cluster
/// that they do not name and that is set, over a container of which as many bytes are used, or more, and over pages that
/// are dropped and containers that have none.
pub fn tails_go_on()
    ensures write { (stored now : Typed) (k : PageKey) (cluster from n : ℕ) → AreTailsFree stored now.chunks →
        find pair_cmp k now.chunks.clusters ≡ Some cluster → page_length now.chunks.containers k ≤ from →
        from + n ≤ CLUSTER_BYTES → IsApart (CLUSTER_BYTES * cluster + from) n (named stored) }
    ensures cluster { (stored now : Typed) (k : PageKey) (cluster : ℕ) → AreTailsFree stored now.chunks →
        IsUnnamed cluster stored → AreTailsFree stored (with_cluster k cluster now).chunks }
    ensures used { (stored now : Typed) (id : ℕ) (new : Container) → AreTailsFree stored now.chunks →
        used_of now.chunks.containers id ≤ new.used → AreTailsFree stored (with_container id new now).chunks }
    ensures pages { (stored now : Typed) (test : PageKey → Bool) → AreTailsFree stored now.chunks →
        AreTailsFree stored (keep_clusters test now).chunks }
    ensures containers { (stored now : Typed) (test : ℕ → Bool) →
        ((k : PageKey) → test k.0 ≡ false → find pair_cmp k now.chunks.clusters ≡ None) →
        AreTailsFree stored now.chunks → AreTailsFree stored (keep_containers test now).chunks }
{}
