// Small volumes that were worked out by hand, each the contract of an empty function.
ghost use Rattle.std.specs.Prelude.{◌≡◌, ℕ, List, [], ◌∷◌, ◌++◌, codes};
ghost use Rattle.byteorder.specs.Endian.{big_bytes};
ghost use Rattle.plain_volume.specs.Volume.{Byte};
ghost use Rattle.volume_inside.specs.Typed.{typed_of};
ghost use Rattle.volume_inside.specs.Inside.{inside_at};
ghost use Rattle.volume_inside.specs.View.{cell};
ghost use Rattle.volume_inside.specs.Shows.{view_at};
ghost use Rattle.volume_inside.specs.Layout.{half_clusters, half_bytes, first_data_cluster, data_clusters};
ghost use Rattle.volume_inside.specs.Rules.{IsVolume, IsLeastBroken};
ghost use Rattle.volume_inside.specs.InsideOf.{HasVersion};
ghost use Rattle.volume_inside.specs.Rows.{one_file, map_of, name_pair, file_pair, based_pair, extent_pair};

/// Of 4,096 clusters each half of the journal has 128, and 3,839 are data clusters.
pub fn a_volume_of_4096_clusters()
    ensures half { half_clusters 4096 ≡ 128 }
    ensures bytes { half_bytes 4096 ≡ 524288 }
    ensures first { first_data_cluster 4096 ≡ 257 }
    ensures rest { data_clusters 4096 ≡ 3839 }
{}

/// The bytes of a block are its valid ones, and zeros behind them.
pub fn bytes_behind_the_valid_ones_are_zero()
    ensures { view_at (typed_of (one_file 7 (extent_pair 1 0 0 5 ∷ []))) (codes "hello world")
        ≡ (codes "a", Byte 104 ∷ Byte 101 ∷ Byte 108 ∷ Byte 108 ∷ Byte 111 ∷ Byte 0 ∷ Byte 0 ∷ []) ∷ [] }
{}

/// A block without an extent is zero, and the next one begins at offset 4,096.
pub fn blocks_without_an_extent_are_zero()
    ensures first { cell (inside_at (typed_of (one_file 4098 (extent_pair 1 1 0 2 ∷ []))) (codes "hi")) 1
        (record { length = 4098; map_row = 0; covers = 0 }) 4095 ≡ Byte 0 }
    ensures second { cell (inside_at (typed_of (one_file 4098 (extent_pair 1 1 0 2 ∷ []))) (codes "hi")) 1
        (record { length = 4098; map_row = 0; covers = 0 }) 4096 ≡ Byte 104 }
{}

/// A volume with one file that has an extent meets the rules, where the cluster is a data cluster.
pub fn one_file_meets_the_rules()
    ensures { IsVolume 4096 (one_file 7 (extent_pair 1 0 257 5 ∷ [])) }
{}

/// The rule that is broken: a next id of 0, a name of no file, a covered byte of a file without a map, a map of no row, an
/// extent of no file, an extent in the journal, and two extents over one cluster.
pub fn each_rule_may_be_broken()
    ensures records { (image : List ℕ) → IsLeastBroken 4096 (map_of 0 []) image 1 }
    ensures names { (image : List ℕ) → IsLeastBroken 4096 (map_of 2 (name_pair (codes "a") 1 ∷ [])) image 2 }
    ensures files { (image : List ℕ) → IsLeastBroken 4096 (map_of 2 (name_pair (codes "a") 1 ∷ file_pair 1 1 1 ∷ [])) image 3 }
    ensures map_rows { (image : List ℕ) → IsLeastBroken 4096 (map_of 2 (name_pair (codes "a") 1 ∷ based_pair 1 7 ∷ [])) image 4 }
    ensures no_file { (image : List ℕ) → IsLeastBroken 4096 (one_file 7 (extent_pair 2 0 257 5 ∷ [])) image 5 }
    ensures journal { (image : List ℕ) → IsLeastBroken 4096 (one_file 7 (extent_pair 1 0 256 5 ∷ [])) image 5 }
    ensures clusters { (image : List ℕ) → IsLeastBroken 4096
        (one_file 8192 (extent_pair 1 0 257 4096 ∷ extent_pair 1 1 257 4096 ∷ [])) image 10 }
{}

/// Where more than one rule is broken, the least one counts.
pub fn the_least_broken_rule_counts()
    ensures { (image : List ℕ) → IsLeastBroken 4096 (map_of 0 (name_pair (codes "a") 1 ∷ file_pair 1 8192 0
        ∷ extent_pair 1 0 257 4096 ∷ extent_pair 1 1 257 4096 ∷ [])) image 1 }
{}

/// A version other than 1 is found where the record of the volume has its length.
pub fn another_version_is_found()
    ensures seven { HasVersion 7 ((1 ∷ [], big_bytes 4 7 ++ big_bytes 8 1) ∷ []) }
    ensures cut { HasVersion 7 ((1 ∷ [], big_bytes 4 7) ∷ []) → ⊥ }
    ensures known { HasVersion 1 ((1 ∷ [], big_bytes 4 1 ++ big_bytes 8 1) ∷ []) → ⊥ }
{}
