// What calls do to small volumes, worked out by hand, each the contract of an empty function.
ghost use Rattle.std.specs.Prelude.{◌≡◌, ◌++◌, [], ◌∷◌, codes, replicate};
ghost use Rattle.volume_files.specs.Insides.{inside_created, inside_renamed, inside_deleted};
ghost use Rattle.volume_files.specs.Insides.{inside_resized, inside_written};
ghost use Rattle.volume_files.specs.Lengths.{record_resized};
ghost use Rattle.volume_files.specs.Needs.{touched};
ghost use Rattle.volume_files.specs.Rows.{based, file_of, small_volume, only_a, two_files};

/// A new file has the next id, and its name stands in the order of the names.
pub fn a_new_file_draws_one_id()
    ensures first { inside_created (codes "a") (small_volume 1 [] [] []) ≡ only_a 0 [] }
    ensures between { inside_created (codes "b") two_files ≡
        small_volume 4 ((codes "a", 1) ∷ (codes "b", 3) ∷ (codes "c", 2) ∷ [])
        ((1, file_of 5) ∷ (2, file_of 2) ∷ (3, file_of 0) ∷ [])
        (((1, 0), codes "hello") ∷ ((2, 0), codes "hi") ∷ []) }
{}

/// A file keeps its id, its record and its blocks under another name.
pub fn a_renamed_file_keeps_its_id()
    ensures behind { inside_renamed (codes "a") (codes "d") two_files ≡
        small_volume 3 ((codes "c", 2) ∷ (codes "d", 1) ∷ []) ((1, file_of 5) ∷ (2, file_of 2) ∷ [])
        (((1, 0), codes "hello") ∷ ((2, 0), codes "hi") ∷ []) }
    ensures no_file { inside_renamed (codes "b") (codes "d") two_files ≡ two_files }
{}

/// A file goes with its blocks, and its id is not drawn again.
pub fn a_deleted_file_goes_with_its_blocks()
    ensures first { inside_deleted (codes "a") two_files ≡
        small_volume 3 ((codes "c", 2) ∷ []) ((2, file_of 2) ∷ []) (((2, 0), codes "hi") ∷ []) }
    ensures no_file { inside_deleted (codes "b") two_files ≡ two_files }
{}

/// The block in which a file ends keeps its front, and the blocks behind go.
pub fn a_file_is_cut_to_its_end()
    ensures inside_a_block { inside_resized (codes "a") 3
        (only_a 4098 (((1, 0), codes "hello") ∷ ((1, 1), codes "hi") ∷ [])) ≡
        only_a 3 (((1, 0), codes "hel") ∷ []) }
    ensures behind_its_bytes { inside_resized (codes "a") 7
        (only_a 4098 (((1, 0), codes "hello") ∷ ((1, 1), codes "hi") ∷ [])) ≡
        only_a 7 (((1, 0), codes "hello") ∷ []) }
    ensures between_blocks { inside_resized (codes "a") 4096
        (only_a 4098 (((1, 0), codes "hello") ∷ ((1, 1), codes "hi") ∷ [])) ≡
        only_a 4096 (((1, 0), codes "hello") ∷ []) }
    ensures to_nothing { inside_resized (codes "a") 0 two_files ≡
        small_volume 3 ((codes "a", 1) ∷ (codes "c", 2) ∷ []) ((1, file_of 0) ∷ (2, file_of 2) ∷ [])
        (((2, 0), codes "hi") ∷ []) }
{}

/// A file that gets longer keeps its blocks.
pub fn a_longer_file_gets_no_block()
    ensures { inside_resized (codes "a") 8192 (only_a 5 (((1, 0), codes "hello") ∷ [])) ≡
        only_a 8192 (((1, 0), codes "hello") ∷ []) }
{}

/// A base covers no more than is left of its file, also once that is longer again, and goes where that is nothing.
pub fn a_base_is_cut_with_its_file()
    ensures shorter { record_resized 3 (based 10 7 8) ≡ based 3 7 3 }
    ensures behind_it { record_resized 9 (based 10 7 8) ≡ based 9 7 8 }
    ensures longer { record_resized 20 (based 3 7 3) ≡ based 20 7 3 }
    ensures to_nothing { record_resized 0 (based 10 7 8) ≡ file_of 0 }
{}

/// Bytes take the place of others, and the rest of their block stays.
pub fn bytes_are_written_in_their_block()
    ensures middle { inside_written (codes "a") 1 (codes "EL") (only_a 5 (((1, 0), codes "hello") ∷ [])) ≡
        only_a 5 (((1, 0), codes "hELlo") ∷ []) }
    ensures over_the_end { inside_written (codes "a") 4 (codes "O!") (only_a 5 (((1, 0), codes "hello") ∷ [])) ≡
        only_a 6 (((1, 0), codes "hellO!") ∷ []) }
    ensures behind_the_end { inside_written (codes "a") 6 (codes "!") (only_a 5 (((1, 0), codes "hello") ∷ [])) ≡
        only_a 7 (((1, 0), codes "hello" ++ (0 ∷ codes "!")) ∷ []) }
    ensures another_block { inside_written (codes "a") 4096 (codes "!") (only_a 5 (((1, 0), codes "hello") ∷ [])) ≡
        only_a 4097 (((1, 0), codes "hello") ∷ ((1, 1), codes "!") ∷ []) }
{}

/// Bytes over the end of a block are written in both, and a block that is new has zeros before them.
pub fn zeros_stand_before_the_bytes()
    ensures two_blocks { inside_written (codes "a") 4095 (codes "xy") (only_a 0 []) ≡
        only_a 4097 (((1, 0), replicate 4095 0 ++ codes "x") ∷ ((1, 1), codes "y") ∷ []) }
    ensures one_block { inside_written (codes "a") 4098 (codes "x") (only_a 0 []) ≡
        only_a 4099 (((1, 1), 0 ∷ 0 ∷ codes "x") ∷ []) }
{}

/// No bytes, and a file that is not there, change nothing.
pub fn nothing_is_written()
    ensures no_bytes { inside_written (codes "a") 9000 [] two_files ≡ two_files }
    ensures no_file { inside_written (codes "b") 0 (codes "x") two_files ≡ two_files }
{}

/// Two bytes over the end of a block touch two blocks.
pub fn two_bytes_touch_one_block_or_two()
    ensures one { touched 4094 2 ≡ 1 }
    ensures two { touched 4095 2 ≡ 2 }
    ensures next { touched 4096 2 ≡ 1 }
{}
