// Files are found by their names.
ghost use Rattle.std.specs.Prelude.{IfOk, IfErr, IsErrOf};
ghost use Rattle.plain_volume.specs.Files.{RefusesFile};
ghost use Rattle.volume_inside.specs.Rules.{RulesHold};
ghost use Rattle.volume_tables.specs.Tables.{clusters_in, tables_now, view_now};
ghost use Rattle.volume_files.specs.Found.{IsFileOf};

use plain_volume::{Fault, name_is_lawful};
use vdisk::Disk;
use volume_tables::{FileRecord, Tables};

/// The id and the record of the file of a name, or why each call on it is refused.
pub fn find_file<D: Disk>(tables: &Tables<D>, name: &[u8]) -> Result<(u64, FileRecord), Fault>
    requires { RulesHold (clusters_in tables.now) (tables_now tables.now) }
    ensures found { IfOk result (λ file. IsFileOf tables.now name.now file.0 file.1) }
    ensures refused { IfErr result (RefusesFile (view_now tables.now) name.now) }
    ensures no_fault { IsErrOf result Fault.Failed → ⊥ }
    ensures not_worn { IsErrOf result Fault.Worn → ⊥ }
{
    if !name_is_lawful(name) {
        return Err(Fault::BadName);
    }
    match tables.get_name(name) {
        None => Err(Fault::NoFile),
        Some(id) => Ok((id, tables.get_file(id).unwrap())),
    }
}
