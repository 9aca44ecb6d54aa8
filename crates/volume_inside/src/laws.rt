// Laws of the definitions, each the contract of an empty function.
ghost use Rattle.std.specs.Prelude.{◌≡◌, ◌⊎◌, ◌<◌, ◌≤◌, ◌+◌, ◌*◌, ◌/◌, ◌%◌, ◌==◌, ◌&&◌, ℕ, Bool, T, All, List, [], ◌++◌, length, map, take, drop, get_or, slice_set, Result, if◌then◌else◌};
ghost use Rattle.std.specs.FinMap.Entries.{is_sorted};
ghost use Rattle.vdisk.specs.Disk.{ChangedWithin};
ghost use Rattle.plain_volume.specs.Volume.{Byte, name_cmp, IsLawfulVolume};
ghost use Rattle.cluster_space.specs.declared.state.State.{State};
ghost use Rattle.cluster_space.specs.States.{IsIn, released};
ghost use Rattle.table_records.specs.declared.records.FileRecord.{FileRecord};
ghost use Rattle.table_records.specs.declared.records.Extent.{Extent};
ghost use Rattle.volume_inside.specs.declared.layout.TheConstants.{CLUSTER_BYTES, JOURNAL_AT};
ghost use Rattle.volume_inside.specs.declared.mount_fault.MountFault.{MountFault};
ghost use Rattle.volume_inside.specs.Typed.{Typed, FileBlock, typed_of};
ghost use Rattle.volume_inside.specs.Changes.{with_block, with_extent, keep_extents};
ghost use Rattle.volume_inside.specs.Ranges.{IsApart};
ghost use Rattle.volume_inside.specs.Inside.{Inside, inside_at};
ghost use Rattle.volume_inside.specs.View.{cell, cells};
ghost use Rattle.volume_inside.specs.Named.{IsUnnamed, named, clusters_of};
ghost use Rattle.volume_inside.specs.Lists.{IsOut};
ghost use Rattle.volume_inside.specs.Rules.{AreBare, RulesHold, IsVolume};
ghost use Rattle.volume_inside.specs.Shows.{view_at};
ghost use Rattle.volume_inside.specs.InsideOf.{Reading, InsideOf};
ghost use Rattle.volume_inside.specs.Space.{IsSpaced};
ghost use Rattle.volume_inside.specs.Fresh.{fresh_map, fresh_tables};
ghost use Rattle.volume_inside.specs.Laws.{IsWhole, DataWritesKeep, CommitsShowEither, CommitsSettle};

pub use crate::base_laws::{
    a_base_of_the_same_cells_shows_the_same_volume, a_recalled_block_shows_the_same_volume,
    appends_leave_the_copies, chunks_are_sound_copies, containers_hold_the_bytes_that_are_used,
    damage_loses_cells_and_changes_none, more_rows_leave_the_chunks,
    redirects_between_equal_chunks_leave_them, tails_are_free_after_a_commit, tails_go_on,
    the_same_chunks_show_the_same_volume,
};
pub use crate::changes::{
    extents_over_their_own_clusters_keep_the_rules, files_that_are_deleted_keep_the_rules,
    files_that_are_made_keep_the_rules, files_that_are_renamed_keep_the_rules,
    one_file_is_seen_under_one_name, records_in_which_blocks_lie_keep_the_rules,
};
pub use crate::page_laws::spaces_go_on_with_pages;
use vdisk::Disk;

/// What changes apart from the ranges that tables name leaves what they hold.
pub fn unnamed_bytes_are_not_seen()
    ensures { (t : Typed) (at n : ℕ) (old new : List ℕ) → IsApart at n (named t) → ChangedWithin at n old new
        → inside_at t new ≡ inside_at t old }
{}

/// Tables of a volume of `n` clusters name no byte of the journal, which has two halves of `n / 32` clusters behind the
/// superblock.
pub fn volumes_leave_the_journal_alone()
    ensures { (n : ℕ) (t : Typed) → RulesHold n t → IsApart JOURNAL_AT (2 * (CLUSTER_BYTES * (n / 32))) (named t) }
{}

/// The view of tables that meet the rules is a lawful volume: names are lawful, distinct and in order, there are not
/// too many files, and none is too long.
pub fn views_are_lawful_volumes()
    ensures { (n : ℕ) (t : Typed) (image : List ℕ) → T (is_sorted name_cmp t.names) → RulesHold n t
        → IsLawfulVolume (view_at t image) }
{}

/// Where no file has a base, no cell is lost.
pub fn files_without_a_base_lose_no_cell()
    ensures { (t : Typed) (image : List ℕ) → AreBare t.files → All (λ file. IsWhole file.1) (view_at t image) }
{}

/// A cell is a byte of its block, once that is set. All other cells stay.
pub fn a_cell_is_a_byte_of_its_block()
    ensures { (i : Inside) (id n : ℕ) (bytes : List ℕ) (other p : ℕ) (file : FileRecord) →
        cell (with_block (id, n) bytes i) other file p
        ≡ (if (other == id) && (p / CLUSTER_BYTES == n) then Byte (get_or bytes (p % CLUSTER_BYTES) 0) else cell i other file p) }
{}

/// A block that is set is a write of its bytes at its place. The file reaches over the block, or ends where they end.
pub fn a_block_is_a_write_of_its_bytes()
    ensures { (i : Inside) (id n rest : ℕ) (file : FileRecord) (bytes : List ℕ) → length bytes ≤ CLUSTER_BYTES →
        (length bytes ≡ CLUSTER_BYTES) ⊎ (rest ≡ 0) → file.length ≡ CLUSTER_BYTES * n + (length bytes + rest) →
        cells (with_block (id, n) bytes i) id file
        ≡ take (CLUSTER_BYTES * n) (cells i id file)
        ++ (map Byte bytes ++ drop (CLUSTER_BYTES * n + length bytes) (cells i id file)) }
{}

/// A free cluster may be written: neither the stored tables, which each crash image spells, nor the tables now name a
/// byte of it. And what the tables now name is used.
pub fn free_clusters_are_unnamed()
    ensures free { (first : ℕ) (states : List State) (stored now : Typed) (k : ℕ) → IsSpaced first states stored now →
        1 ≤ first → IsIn states k State.Free → IsUnnamed (first + k) stored × IsUnnamed (first + k) now }
    ensures used { (first : ℕ) (states : List State) (stored now : Typed) (k : ℕ) → IsSpaced first states stored now →
        k < length states → (IsOut (first + k) (clusters_of now) → ⊥) → IsIn states k State.Used }
{}

/// A cluster is taken; an extent is set over a used one that nobody names; extents are dropped; and a cluster that is
/// named no more is deferred.
pub fn spaces_go_on()
    ensures take { (first : ℕ) (states : List State) (stored now : Typed) (k : ℕ) → IsSpaced first states stored now →
        k < length states → IsSpaced first (slice_set states k State.Used) stored now }
    ensures set { (first : ℕ) (states : List State) (stored now : Typed) (key : FileBlock) (e : Extent) (k : ℕ) →
        IsSpaced first states stored now → e.cluster ≡ first + k → IsIn states k State.Used →
        IsOut e.cluster (clusters_of now) → IsSpaced first states stored (with_extent key e now) }
    ensures keep { (first : ℕ) (states : List State) (stored now : Typed) (test : FileBlock → Bool) →
        IsSpaced first states stored now → IsSpaced first states stored (keep_extents test now) }
    ensures defer { (first : ℕ) (states : List State) (stored now : Typed) (k : ℕ) → IsSpaced first states stored now →
        k < length states → IsOut (first + k) (clusters_of now) →
        IsSpaced first (slice_set states k State.Deferred) stored now }
{}

/// After a commit that answered Ok each deferred cluster is free.
pub fn a_commit_frees_what_is_deferred()
    ensures { (first : ℕ) (states : List State) (stored now : Typed) → IsSpaced first states stored now →
        IsSpaced first (map released states) now now }
{}

/// A write of data apart from the journal and from what the stored tables name, torn anyhow, keeps what is shown.
pub fn data_writes_keep_what_is_shown<D: Disk>(before: &D, after: &D)
    ensures { DataWritesKeep (D.state before.now) (D.state after.now) }
{}

/// At each moment of a commit a crash leaves what was shown before, or the tables now; after a commit that answered Ok
/// it leaves the tables now.
pub fn commits_show_the_old_or_the_new<D: Disk>(before: &D, after: &D)
    ensures moments { CommitsShowEither (D.state before.now) (D.state after.now) }
    ensures settled { CommitsSettle (D.state before.now) (D.state after.now) }
{}

/// An image has one inside, or one first reason why it has none.
pub fn an_image_has_one_inside()
    ensures { (read : Reading) (image : List ℕ) (one two : Result Inside MountFault) →
        InsideOf read image one → InsideOf read image two → one ≡ two }
{}

/// The tables of a fresh volume meet every rule, and show no file.
pub fn a_fresh_volume_is_empty()
    ensures tables { typed_of fresh_map ≡ fresh_tables }
    ensures rules { (n : ℕ) → IsVolume n fresh_map }
    ensures view { (image : List ℕ) → view_at fresh_tables image ≡ [] }
{}
