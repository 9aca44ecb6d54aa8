// Laws of changes of the tables, each the contract of an empty function.
ghost use Rattle.std.specs.Prelude.{◌≡◌, ◌≤◌, ◌<◌, ◌+◌, ◌-◌, ◌*◌, ◌^◌, ℕ, Bool, true, T, List, length, Some, None};
ghost use Rattle.std.specs.Ordering.{nat_cmp};
ghost use Rattle.std.specs.FinMap.Entries.{find, is_sorted};
ghost use Rattle.groundwork.specs.declared.limits.TheConstants.{LAST_ID};
ghost use Rattle.plain_volume.specs.declared.limits.TheConstants.{MOST_BYTES_OF_A_FILE, MOST_FILES};
ghost use Rattle.plain_volume.specs.Volume.{is_lawful, name_cmp, with_file as with_cells};
ghost use Rattle.table_records.specs.Keys.{single_cmp};
ghost use Rattle.table_records.specs.declared.records.VolumeRecord.{VolumeRecord};
ghost use Rattle.table_records.specs.declared.records.FileRecord.{FileRecord};
ghost use Rattle.table_records.specs.declared.records.Extent.{Extent};
ghost use Rattle.volume_inside.specs.declared.layout.TheConstants.{CLUSTER_BYTES};
ghost use Rattle.volume_inside.specs.Typed.{Typed, FileBlock};
ghost use Rattle.volume_inside.specs.Changes.{with_file, with_extent, created, deleted, renamed, DropsOnly};
ghost use Rattle.volume_inside.specs.Inside.{Inside, inside_at};
ghost use Rattle.volume_inside.specs.View.{file_cells, view};
ghost use Rattle.volume_inside.specs.Named.{clusters_of};
ghost use Rattle.volume_inside.specs.Lists.{IsOnce};
ghost use Rattle.volume_inside.specs.ChunkRules.{MapRowHolds};
ghost use Rattle.volume_inside.specs.Entries.{Each};
ghost use Rattle.volume_inside.specs.Rules.{next_id_of, FileHolds, ExtentHolds, RulesHold};

/// A file that is made with the next id, under a lawful name that no file has, keeps the rules.
pub fn files_that_are_made_keep_the_rules()
    ensures { (n : ℕ) (t : Typed) (v : VolumeRecord) (name : List ℕ) (file : FileRecord) → RulesHold n t →
        find single_cmp tt t.volume ≡ Some v → T (is_sorted name_cmp t.names) →
        is_lawful name ≡ true → find name_cmp name t.names ≡ None → length t.names < MOST_FILES → v.next_id < LAST_ID →
        file.length ≤ MOST_BYTES_OF_A_FILE → file.map_row ≡ 0 → file.covers ≡ 0 → RulesHold n (created v name file t) }
{}

/// A file that goes with its name and its extents keeps the rules.
pub fn files_that_are_deleted_keep_the_rules()
    ensures { (n : ℕ) (t : Typed) (name : List ℕ) (id : ℕ) (names : List ℕ → Bool) (files : ℕ → Bool)
        (blocks : FileBlock → Bool) → RulesHold n t → T (is_sorted name_cmp t.names) →
        find name_cmp name t.names ≡ Some id → DropsOnly (λ other. other ≡ name) names →
        DropsOnly (λ x. x ≡ id) files → DropsOnly (λ k. k.0 ≡ id) blocks →
        RulesHold n (deleted names files blocks t) }
{}

/// A file that gets another lawful name, which no file has, keeps the rules, also where there are as many files as
/// there may be.
pub fn files_that_are_renamed_keep_the_rules()
    ensures { (n : ℕ) (t : Typed) (from to : List ℕ) (id : ℕ) (names : List ℕ → Bool) → RulesHold n t →
        T (is_sorted name_cmp t.names) → find name_cmp from t.names ≡ Some id → find name_cmp to t.names ≡ None →
        is_lawful to ≡ true → DropsOnly (λ other. other ≡ from) names → RulesHold n (renamed to id names t) }
{}

/// Another record of a file that is there, in which its blocks lie, keeps the rules. Its map is that of a row of a map.
pub fn records_in_which_blocks_lie_keep_the_rules()
    ensures { (n : ℕ) (t : Typed) (id : ℕ) (old file : FileRecord) → RulesHold n t →
        find nat_cmp id t.files ≡ Some old → FileHolds (next_id_of t) id file →
        MapRowHolds t.chunks.rows id file → Each (λ k e. k.0 ≡ id → CLUSTER_BYTES * k.1 + e.valid ≤ file.length) t.extents →
        RulesHold n (with_file id file t) }
{}

/// An extent that meets its rule, over a cluster that is not named otherwise, keeps the rules.
pub fn extents_over_their_own_clusters_keep_the_rules()
    ensures { (n : ℕ) (t : Typed) (k : FileBlock) (e : Extent) → RulesHold n t → ExtentHolds n t.files k e →
        IsOnce (clusters_of (with_extent k e t)) → RulesHold n (with_extent k e t) }
{}

/// An inside that differs in one file alone has a view that differs in the cells of its name alone.
pub fn one_file_is_seen_under_one_name()
    ensures { (n : ℕ) (t : Typed) (image name : List ℕ) (id : ℕ) (j : Inside) → RulesHold n t →
        T (is_sorted name_cmp t.names) → find name_cmp name t.names ≡ Some id → j.names ≡ t.names →
        ((x : ℕ) → (x ≡ id → ⊥) → file_cells j x ≡ file_cells (inside_at t image) x) →
        view j ≡ with_cells name (file_cells j id) (view (inside_at t image)) }
{}
