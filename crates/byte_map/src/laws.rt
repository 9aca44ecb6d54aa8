//! Laws of the definitions, each the contract of a function that does nothing.

ghost use Rattle.std.specs.Prelude.{◌≡◌, ℕ, ◌+◌, ◌≤◌, T, List, length, Some, None};
ghost use Rattle.std.specs.FinMap.Entries.{put, find, is_sorted};
ghost use Rattle.byte_map.specs.Words.{Map, bytes_cmp, without, bytes_in};

/// A put changes the count and the bytes of a map by those of its pair, less what was there.
pub fn a_put_counts_its_pair()
    ensures new { (k v : List ℕ) (m : Map) → T (is_sorted bytes_cmp m) → find bytes_cmp k m ≡ None
        → (length (put bytes_cmp k v m) ≡ length m + 1)
        × (bytes_in (put bytes_cmp k v m) ≡ bytes_in m + (length k + length v)) }
    ensures present { (k v w : List ℕ) (m : Map) → T (is_sorted bytes_cmp m) → find bytes_cmp k m ≡ Some w
        → (length (put bytes_cmp k v m) ≡ length m)
        × (bytes_in (put bytes_cmp k v m) + length w ≡ bytes_in m + length v) }
{}

/// A dropped range leaves no more pairs and no more bytes.
pub fn a_dropped_range_adds_nothing()
    ensures count { (from to : List ℕ) (m : Map) → length (without from to m) ≤ length m }
    ensures bytes { (from to : List ℕ) (m : Map) → bytes_in (without from to m) ≤ bytes_in m }
{}
