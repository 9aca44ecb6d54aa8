// Steps on the rows of a volume.
ghost use Rattle.std.specs.Prelude.{◌≡◌, false};
ghost use Rattle.volume_inside.specs.Rules.{RulesHold};
ghost use Rattle.volume_tables.specs.Sound.{IsSound};
ghost use Rattle.volume_tables.specs.Tables.{tables_now, clusters_in, stopped};
ghost use Rattle.chunk_container.specs.Stores.{tables_of};

use crate::kept::fresh;
use crate::session::{Held, Session};
use chunk_container::{RowFault as ReadFault, Store};
use row_files::{Answers, Asked, RowFault};
use std::alloc::Global;
use vdisk::{Disk, MemoryDisk};
use volume_inside::MOST_MAP_BYTES;
use volume_tables::{Place, Tables};

/// Makes the disk of a fresh volume of 4,096 clusters.
pub fn make(session: &mut Session) -> Result<(), RowFault> {
    session.held = Held::Disk(fresh(session.alloc)?);
    Ok(())
}

/// How bytes of a row were asked for.
#[derive(Clone, Copy)]
enum Told {
    Read,
    Lost,
    Failed,
    /// There is no such row, or it has fewer bytes.
    NoRow,
    /// The image is none of a volume.
    NoVolume,
}

/// Reads bytes of a row, where it has these.
fn read_row<D: Disk>(store: &mut Store<D>, id: u64, from: u32, out: &mut [u8]) -> Told
    requires { RulesHold (clusters_in (tables_of store.old)) (tables_now (tables_of store.old)) }
{
    match store.tables().get_row(id) {
        Some(row) if from as u64 + out.len() as u64 <= row.length as u64 => {
            match store.read_row(id, from, out) {
                Ok(()) => Told::Read,
                Err(ReadFault::Lost(_)) => Told::Lost,
                Err(ReadFault::Failed) => Told::Failed,
            }
        }
        _ => Told::NoRow,
    }
}

/// Reads bytes of a row of the volume on a disk.
fn read(alloc: Global, disk: MemoryDisk, id: u64, from: u32, out: &mut [u8]) -> (MemoryDisk, Told) {
    match Tables::mount(alloc, disk) {
        Ok(tables) => {
            let mut store = Store::new(tables);
            let told = read_row(&mut store, id, from, out);
            (store.into_tables().into_disk(), told)
        }
        Err((disk, _fault)) => (disk, Told::NoVolume),
    }
}

/// Tells bytes of a row's chunk, from a place in it on.
pub fn row(
    session: &mut Session,
    mut asked: Asked<'_>,
    answers: &mut Answers,
) -> Result<(), RowFault> {
    let (id, from, count) = (asked.number()?, asked.short_number()?, asked.size()?);
    let mut out = vec![in session.alloc; 1u8; count]?;
    let (disk, told) = read(session.alloc, session.take_disk(), id, from, &mut out);
    session.held = Held::Disk(disk);
    match told {
        Told::Read => answers.digits(&out)?,
        Told::Lost => answers.line("lost")?,
        Told::Failed => answers.line("failed")?,
        Told::NoRow => answers.line("no row")?,
        Told::NoVolume => answers.line("no volume")?,
    }
    Ok(())
}

/// Appends bytes to a container of a kind, where the store takes so many, and says where they lie.
fn place_of<D: Disk>(store: &mut Store<D>, kind: u8, bytes: &[u8]) -> Option<Place>
    requires sound { IsSound (tables_of store.old) }
    requires running { stopped (tables_of store.old) ≡ false }
{
    let is_kind = 1 <= kind && kind <= 3;
    if is_kind && !bytes.is_empty() && bytes.len() <= MOST_MAP_BYTES as usize {
        store.append(kind, bytes).ok()
    } else {
        None
    }
}

/// Appends bytes to the store of the volume on a disk.
fn append_to(
    alloc: Global,
    disk: MemoryDisk,
    kind: u8,
    bytes: &[u8],
) -> (MemoryDisk, Option<Place>) {
    match Tables::mount(alloc, disk) {
        Ok(tables) => {
            let mut store = Store::new(tables);
            let place = place_of(&mut store, kind, bytes);
            (store.into_tables().into_disk(), place)
        }
        Err((disk, _fault)) => (disk, None),
    }
}

/// Tells the container and the offset at which bytes lie that are appended. Nothing is committed.
pub fn append(
    session: &mut Session,
    mut asked: Asked<'_>,
    answers: &mut Answers,
) -> Result<(), RowFault> {
    let (kind, bytes) = (asked.byte()?, asked.all_bytes(session.alloc)?);
    let (disk, place) = append_to(session.alloc, session.take_disk(), kind, &bytes);
    session.held = Held::Disk(disk);
    match place {
        Some(place) => {
            answers.part_number(place.container)?;
            answers.part(b" ")?;
            answers.number(place.offset as u64)?;
        }
        None => answers.line("refused")?,
    }
    Ok(())
}
