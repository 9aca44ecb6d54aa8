//! Laws of the tables, each the contract of a function that does nothing.

ghost use Rattle.std.specs.Prelude.{◌≡◌, ◌≢◌, ◌<◌, ◌≤◌, ◌^◌, T, IsTrue, ℕ, List, ◌∷◌, [], Option, Some, None, length, slice_index, option_map};
ghost use Rattle.std.specs.FinMap.Entries.{put, find, is_sorted};
ghost use Rattle.byte_map.specs.Words.{Map, bytes_cmp, first_of, next_in};
ghost use Rattle.table_records.specs.declared.settings.Settings.{Settings};
ghost use Rattle.table_records.specs.Texts.{list_bytes};
ghost use Rattle.table_records.specs.Codecs.{Codec, typed, IsKeyed};
ghost use Rattle.table_records.specs.Next.{entry_of};
ghost use Rattle.table_records.specs.Changes.{IsPut, IsDropped, without_range};
ghost use Rattle.table_records.specs.Settings.{settings_bytes, settings_in, AreSpellable};
ghost use Rattle.table_records.specs.Tables.{volume_codec, name_codec, file_codec, extent_codec, row_codec, place_codec, container_codec, cluster_codec, settings_codec, result_codec};
ghost use Rattle.table_records.specs.WellFormed.{IsWellFormed, AllWellFormed, BelongsByNumber};

use crate::table::Table;

/// A look-up in a table is a look-up of the bytes that spell the key, and a table is in the order of its keys.
pub fn tables_are_looked_up<A: Table>()
    ensures found { (m : Map) (b : List ℕ) (k : A.Key) → A.codec.read_key b ≡ Some k
        → find A.codec.cmp k (typed A.codec m) ≡ option_map A.codec.read_value (find bytes_cmp b m) }
    ensures in_order { (m : Map) → T (is_sorted bytes_cmp m) → T (is_sorted A.codec.cmp (typed A.codec m)) }
{}

/// Where each key with the number of a table is one of its keys, its next entry is the map's next pair, as long as that
/// pair is one of the table; and so is its first entry, asked for by the number alone.
pub fn tables_are_walked<A: Table>()
    ensures next { (m : Map) (b : List ℕ) (k : A.Key) → A.codec.read_key b ≡ Some k → T (is_sorted bytes_cmp m)
        → IsKeyed A.codec m → next_in A.codec.cmp k (typed A.codec m) ≡ entry_of A.codec (next_in bytes_cmp b m) }
    ensures first { (m : Map) → find bytes_cmp (A.codec.number ∷ []) m ≡ None → T (is_sorted bytes_cmp m)
        → IsKeyed A.codec m → first_of (typed A.codec m)
        ≡ entry_of A.codec (next_in bytes_cmp (A.codec.number ∷ []) m) }
{}

/// A put and a dropped range of one table are just that for it, and change no other table.
pub fn changes_are_of_one_table<A: Table, B: Table>()
    ensures put_here { (k : A.Key) (v : A.Value) (old new : Map) → T (is_sorted bytes_cmp old)
        → IsPut A.codec k v old new → typed A.codec new ≡ put A.codec.cmp k v (typed A.codec old) }
    ensures put_there { (k : A.Key) (v : A.Value) (old new : Map) → A.codec.number ≢ B.codec.number
        → IsPut A.codec k v old new → typed B.codec new ≡ typed B.codec old }
    ensures dropped_here { (from : A.Key) (to : Option A.Key) (old new : Map) → IsDropped A.codec from to old new
        → typed A.codec new ≡ without_range A.codec from to (typed A.codec old) }
    ensures dropped_there { (from : A.Key) (to : Option A.Key) (old new : Map) → A.codec.number ≢ B.codec.number
        → IsDropped A.codec from to old new → typed B.codec new ≡ typed B.codec old }
{}

/// A well-formed pair that begins with the number of a table is a pair of that table.
pub fn pairs_belong_by_their_numbers()
    ensures volume { BelongsByNumber volume_codec }
    ensures names { BelongsByNumber name_codec }
    ensures files { BelongsByNumber file_codec }
    ensures extents { BelongsByNumber extent_codec }
    ensures rows { BelongsByNumber row_codec }
    ensures places { BelongsByNumber place_codec }
    ensures containers { BelongsByNumber container_codec }
    ensures clusters { BelongsByNumber cluster_codec }
    ensures settings { BelongsByNumber settings_codec }
    ensures results { BelongsByNumber result_codec }
{}

/// In a map of well-formed pairs each key with the number of a table is one of its keys.
pub fn well_formed_maps_are_keyed()
    ensures volume { (m : Map) → AllWellFormed m → IsKeyed volume_codec m }
    ensures names { (m : Map) → AllWellFormed m → IsKeyed name_codec m }
    ensures files { (m : Map) → AllWellFormed m → IsKeyed file_codec m }
    ensures extents { (m : Map) → AllWellFormed m → IsKeyed extent_codec m }
    ensures rows { (m : Map) → AllWellFormed m → IsKeyed row_codec m }
    ensures places { (m : Map) → AllWellFormed m → IsKeyed place_codec m }
    ensures containers { (m : Map) → AllWellFormed m → IsKeyed container_codec m }
    ensures clusters { (m : Map) → AllWellFormed m → IsKeyed cluster_codec m }
    ensures settings { (m : Map) → AllWellFormed m → IsKeyed settings_codec m }
    ensures results { (m : Map) → AllWellFormed m → IsKeyed result_codec m }
{}

/// Settings and their bytes are one to one: what was spelled is read back, and what was read is spelled by the same
/// bytes.
pub fn settings_and_bytes_are_one_to_one()
    ensures read_back { (s : Settings) → AreSpellable s → settings_in (settings_bytes s) ≡ Some s }
    ensures spelled_again { (s : Settings) (b : List ℕ) → ((i : ℕ) → slice_index b i < 256)
        → settings_in b ≡ Some s → settings_bytes s ≡ b }
{}
