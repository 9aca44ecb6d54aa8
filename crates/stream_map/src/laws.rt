//! Laws of the definitions, each the contract of a function that does nothing.

ghost use Rattle.std.specs.Prelude.{◌≡◌, ℕ, ◌+◌, ◌*◌, ◌%◌, ◌<◌, ◌≤◌, All, List, ◌++◌, length, slice_index, None, Some};
ghost use Rattle.stream_map.specs.declared.limits.TheConstants.{ENTRY_BYTES};
ghost use Rattle.stream_map.specs.declared.entry.Entry.{Entry};
ghost use Rattle.stream_map.specs.Pieces.{Covers, Fits, entries_in, place_at, spell, total_length};
ghost use Rattle.stream_map.specs.Walks.{IsLawful, Walked, Walks, walk_of};

/// Lists of entries and their bytes are one to one: what was spelled is read back, and whole entries that were
/// read are spelled by the same bytes.
pub fn entries_and_bytes_are_one_to_one()
    ensures read_back { (entries : List Entry) → All Fits entries → entries_in (spell entries) ≡ entries }
    ensures spelled_again { (n : ℕ) (bytes : List ℕ) → length bytes ≡ ENTRY_BYTES * n → ((i : ℕ) → slice_index bytes i < 256)
        → spell (entries_in bytes) ≡ bytes }
{}

/// Behind whole entries, bytes spell what they spell by themselves.
pub fn entries_of_joined_bytes()
    ensures count { (n : ℕ) (bytes : List ℕ) → length bytes ≡ ENTRY_BYTES * n → length (entries_in bytes) ≡ n }
    ensures joined { (n : ℕ) (front back : List ℕ) → length front ≡ ENTRY_BYTES * n
        → entries_in (front ++ back) ≡ entries_in front ++ entries_in back }
{}

/// The pieces of joined lists stand one after the other.
pub fn pieces_of_joined_lists()
    ensures sum { (front back : List Entry) → total_length (front ++ back) ≡ total_length front + total_length back }
    ensures front { (front back : List Entry) (offset : ℕ) → offset < total_length front
        → place_at (front ++ back) offset ≡ place_at front offset }
    ensures back { (front back : List Entry) (offset : ℕ)
        → place_at (front ++ back) (total_length front + offset) ≡ place_at back offset }
{}

/// Each offset below the sum of the lengths lies in the piece that `place_at` names, and in no other.
pub fn each_offset_has_its_entry()
    ensures inside { (entries : List Entry) (offset : ℕ) → offset < total_length entries
        → (entry : Entry) × (inside : ℕ) × (place_at entries offset ≡ Some (entry, inside))
        × Covers entries offset entry inside }
    ensures only { (entries : List Entry) (offset : ℕ) (entry : Entry) (inside : ℕ) → Covers entries offset entry inside
        → place_at entries offset ≡ Some (entry, inside) }
    ensures outside { (entries : List Entry) (offset : ℕ) → total_length entries ≤ offset
        → place_at entries offset ≡ None }
{}

/// A walk accepts a list of entries exactly where each of them is lawful, and then it knows their number and the
/// sum of their lengths.
pub fn walks_take_lawful_lists()
    ensures walked { (total : ℕ) (entries : List Entry) (walk : Walked) → Walks (walk_of total) entries walk
        → All IsLawful entries
        × (walk ≡ record { total = total; count = length entries; covered = total_length entries }) }
    ensures accepted { (total : ℕ) (entries : List Entry) → All IsLawful entries
        → Walks (walk_of total) entries
        (record { total = total; count = length entries; covered = total_length entries }) }
{}
