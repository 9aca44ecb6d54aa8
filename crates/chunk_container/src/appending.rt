//! Bytes are appended to a container over the tables.

ghost use Rattle.std.specs.Prelude.{◌≡◌, ◌⊎◌, ◌≤◌, ◌+◌, ◌*◌, true, false, length, Some, IfOk, OnOk, OnErr, IsErrOf};
ghost use Rattle.vdisk.specs.Causes.{Rose};
ghost use Rattle.vdisk.specs.Ranges.{part};
ghost use Rattle.cluster_space.specs.States.{free_in};
ghost use Rattle.plain_volume.specs.Volume.{Volume};
ghost use Rattle.volume_inside.specs.declared.chunk_rules.TheConstants.{DATA_ROW, HOT_CONTAINER, MOST_CONTAINER_BYTES, MOST_MAP_BYTES};
ghost use Rattle.volume_inside.specs.Inside.{inside_at};
ghost use Rattle.volume_inside.specs.Layout.{half_bytes};
ghost use Rattle.volume_inside.specs.Pages.{used_of, content};
ghost use Rattle.volume_inside.specs.Rules.{next_id_of, RulesHold};
ghost use Rattle.volume_inside.specs.Typed.{Typed};
ghost use Rattle.volume_tables.specs.declared.room.TheConstants.{MOST_RECORDS};
ghost use Rattle.volume_tables.specs.Moves.{WritesData};
ghost use Rattle.volume_tables.specs.Rooms.{IsRoomMade};
ghost use Rattle.volume_tables.specs.Sound.{IsSound, IsKept};
ghost use Rattle.volume_tables.specs.Tables.{tables_now, inside_now, states_of, staged_of, checkpoint_of, disk_of};
ghost use Rattle.volume_tables.specs.Tables.{clusters_in, stopped, IsTables, IsRoomFor, Leaves};
ghost use Rattle.volume_tables.specs.Wants.{last_id};
ghost use Rattle.chunk_container.specs.Appending.{more_pages as more_pages_for, head_bytes, append_needs, append_bytes};
ghost use Rattle.chunk_container.specs.Appending.{with_id_if, if_made, IsTargetIn, IsAppended, AreBytesThere};
ghost use Rattle.chunk_container.specs.Appending.{IsAppendCall, HasHead, place_at, without_place};
ghost use Rattle.chunk_container.specs.Open.{takes as takes_bytes, with_open};
ghost use Rattle.chunk_container.specs.Pages.{LosesNone};

use crate::containers::Target;
use crate::pages::put_pages;
use crate::store::Store;
use cluster_space::Run;
use plain_volume::Fault;
use vdisk::Disk;
use volume_inside::{CLUSTER_BYTES, MOST_CONTAINER_BYTES};
use volume_tables::{Container, Place, Tables, make_room};

/// Writes the bytes in front, as many as go into the page that what is used of a container has begun. Answers how many.
fn fill_page<D: Disk>(
    tables: &mut Tables<D>,
    container: u64,
    offset: u32,
    bytes: &[u8],
) -> Result<usize, Fault>
    requires running { stopped tables.old ≡ false }
    requires rules { RulesHold (clusters_in tables.old) (tables_now tables.old) }
    requires used { used_of (tables_now tables.old).chunks.containers container ≡ offset }
    ensures count { IfOk result (λ n. n ≡ head_bytes offset (length bytes.now)) }
    ensures writes { WritesData tables.old tables.new result }
    ensures head { (stored : Typed) → IsTables tables.old stored → IfOk result (λ n.
        HasHead container offset n bytes.now (tables_now tables.old).chunks.clusters (disk_of tables.new).image) }
    ensures same { inside_now tables.new ≡ inside_now tables.old }
{
    let left = (CLUSTER_BYTES - offset % CLUSTER_BYTES) % CLUSTER_BYTES;
    let count = bytes.len().min(left as usize);
    if count == 0 {
        return Ok(0);
    }
    let cluster = tables
        .get_cluster((container, offset / CLUSTER_BYTES))
        .unwrap();
    tables.write_range(cluster, (offset % CLUSTER_BYTES) as u16, &bytes[..count])?;
    Ok(count)
}

/// Draws the next id, or not.
fn draw_if<D: Disk>(tables: &mut Tables<D>, made: bool)
    requires room { staged_of tables.old + 18 ≤ MOST_RECORDS }
    requires ids { made ≡ true → next_id_of (tables_now tables.old) ≡ last_id → ⊥ }
    ensures tables { tables_now tables.new ≡ with_id_if made (tables_now tables.old) }
    ensures staged { staged_of tables.new ≡ staged_of tables.old + if_made made 18 }
    ensures leaves { Leaves tables.old tables.new }
    ensures states { states_of tables.new ≡ states_of tables.old }
    ensures image { (disk_of tables.new).image ≡ (disk_of tables.old).image }
    ensures running { stopped tables.new ≡ stopped tables.old }
{
    if made {
        tables.next_id().unwrap();
    }
}

/// Appends bytes to a container at a place for which there is room. A refusal leaves the tables as they are.
fn append_at<D: Disk>(
    tables: &mut Tables<D>,
    target: Target,
    kind: u8,
    bytes: &[u8],
) -> Result<(), Fault>
    requires running { stopped tables.old ≡ false }
    requires rules { RulesHold (clusters_in tables.old) (tables_now tables.old) }
    requires target { IsTargetIn kind (length bytes.now) target (tables_now tables.old) }
    requires few { length bytes.now ≤ MOST_MAP_BYTES }
    requires room { IsRoomFor tables.old (53 * more_pages_for target.offset (length bytes.now) + 37)
        (more_pages_for target.offset (length bytes.now)) }
    requires fits { checkpoint_of tables.old +
        (22 * more_pages_for target.offset (length bytes.now) + if_made target.made 19)
        ≤ half_bytes (clusters_in tables.old) }
    requires ids { target.made ≡ true → next_id_of (tables_now tables.old) ≡ last_id → ⊥ }
    ensures ok { OnOk result (IsAppended target kind (length bytes.now)
        (tables_now tables.old) (tables_now tables.new)) }
    ensures err { OnErr result (tables_now tables.new ≡ tables_now tables.old) }
    ensures frame { inside_at (tables_now tables.old) (disk_of tables.new).image ≡ inside_now tables.old }
    ensures there { (stored : Typed) → IsTables tables.old stored → OnOk result (AreBytesThere target bytes.now
        (tables_now tables.new).chunks.clusters (disk_of tables.new).image) }
    ensures leaves { Leaves tables.old tables.new }
    ensures loses_none { LosesNone tables.old tables.new }
    ensures staged { OnOk result (staged_of tables.new ≡
        staged_of tables.old + append_bytes target (length bytes.now)) }
    ensures taken { OnOk result (free_in (states_of tables.new) + more_pages_for target.offset (length bytes.now) ≡
        free_in (states_of tables.old)) }
    ensures runs { OnOk result (stopped tables.new ≡ false) }
    ensures stops { stopped tables.new ≡ true → IsErrOf result Fault.Failed }
    ensures refused { OnErr result (IsErrOf result Fault.Failed ⊎ IsErrOf result Fault.Memory) }
    ensures failed { IsErrOf result Fault.Failed → Rose (disk_of tables.old).faults (disk_of tables.new).faults }
    ensures halts { IsErrOf result Fault.Failed → stopped tables.new ≡ true }
{
    let head = fill_page(tables, target.container, target.offset, bytes)?;
    let first = target.offset.div_ceil(CLUSTER_BYTES);
    let longer = Container {
        kind,
        used: target.offset + bytes.len() as u32,
    };
    let none = Run { first: 0, count: 0 };
    put_pages(
        tables,
        (target.container, first),
        longer,
        &bytes[head..],
        none,
    )?;
    draw_if(tables, target.made);
    Ok(())
}

/// How many pages so many bytes at an offset need beyond those that a container has.
fn more_pages(offset: u32, count: u32) -> u32
    requires { offset + count ≤ MOST_CONTAINER_BYTES }
    ensures { result ≡ more_pages_for offset count }
{
    (offset + count).div_ceil(CLUSTER_BYTES) - offset.div_ceil(CLUSTER_BYTES)
}

/// By how many bytes the record of a container that is made or not makes a checkpoint longer.
fn record_grows(made: bool) -> u64
    ensures { result ≡ if_made made 19 }
{
    if made { 19 } else { 0 }
}

/// Makes room for so many bytes at a place.
fn make_room_to_append<D: Disk>(
    tables: &mut Tables<D>,
    target: Target,
    count: u32,
) -> Result<(), Fault>
    requires running { stopped tables.old ≡ false }
    requires sound { IsSound tables.old }
    requires fits { target.offset + count ≤ MOST_CONTAINER_BYTES }
    requires few { count ≤ MOST_MAP_BYTES }
    ensures { IsRoomMade (append_needs target count) tables.old tables.new result }
{
    // A page that is named takes 22 bytes of records, and 31 more where it is taken back; a container 19, and an id 18.
    let pages = more_pages(target.offset, count);
    let grows = 22 * pages as u64 + record_grows(target.made);
    make_room(tables, target.made, grows, 53 * pages as usize + 37, pages)
}

/// Appends bytes to a container at a place.
pub(crate) fn append<D: Disk>(
    tables: &mut Tables<D>,
    target: Target,
    kind: u8,
    bytes: &[u8],
) -> Result<(), Fault>
    requires running { stopped tables.old ≡ false }
    requires sound { IsSound tables.old }
    requires least { DATA_ROW ≤ kind }
    requires most { kind ≤ HOT_CONTAINER }
    requires target { IsTargetIn kind (length bytes.now) target (tables_now tables.old) }
    requires some { 1 ≤ length bytes.now }
    requires few { length bytes.now ≤ MOST_MAP_BYTES }
    ensures call { IsAppendCall target kind (length bytes.now) tables.old tables.new result }
    ensures written { (w : Volume) → IsKept tables.old w → OnOk result (part target.offset (length bytes.now)
        (content (tables_now tables.new).chunks target.container (disk_of tables.new).image) ≡ bytes.now) }
{
    make_room_to_append(tables, target, bytes.len() as u32)?;
    append_at(tables, target, kind, bytes)
}

/// Whether a container is of a kind, and has room for so many bytes more.
fn takes(container: &Container, kind: u8, count: u32) -> bool
    ensures { result ≡ takes_bytes kind count container.now }
{
    let end = container.used as u64 + count as u64;
    container.kind == kind && end <= MOST_CONTAINER_BYTES as u64
}

impl<D: Disk> Store<D> {
    ghost use Rattle.chunk_container.specs.Stores.{tables_of, open_in, target_now};

    /// Where so many bytes of a kind go.
    fn target(&self, kind: u8, count: u32) -> Target
        requires least { DATA_ROW ≤ kind }
        requires most { kind ≤ HOT_CONTAINER }
        ensures { result ≡ target_now kind count self.now }
    {
        let made = Target {
            container: self.tables.stored_next_id(),
            offset: 0,
            made: true,
        };
        let Some(id) = self.opened.of(kind) else {
            return made;
        };
        match self.tables.get_container(id) {
            Some(container) if takes(&container, kind, count) => Target {
                container: id,
                offset: container.used,
                made: false,
            },
            _ => made,
        }
    }

    /// Appends the bytes of a chunk or a map to the open container of a kind, behind what is used of it, or to a new
    /// one, which is then open, where they do not fit. Answers where they lie. They are written into clusters that
    /// nobody names, in as few writes as these lie beside one another, and no byte that a container has is written
    /// again. No copy of a row changes, and no file sees it.
    ///
    /// The faults, in this order: `Worn` where no id is left for a new container, `TableFull`, `Full`, `Worn` where a
    /// commit must come first and is worn, `Failed`; and `Memory`. After a refusal the tables are what they were.
    pub fn append(&mut self, kind: u8, bytes: &[u8]) -> Result<Place, Fault>
        requires running { stopped (tables_of self.old) ≡ false }
        requires sound { IsSound (tables_of self.old) }
        requires least { DATA_ROW ≤ kind }
        requires most { kind ≤ HOT_CONTAINER }
        requires some { 1 ≤ length bytes.now }
        requires few { length bytes.now ≤ MOST_MAP_BYTES }
        ensures place { IfOk result (λ place. place ≡ place_at (target_now kind (length bytes.now) self.old)) }
        ensures open { OnOk result (open_in self.new ≡
            with_open kind (Some (target_now kind (length bytes.now) self.old).container) (open_in self.old)) }
        ensures still_open { OnErr result (open_in self.new ≡ open_in self.old) }
        ensures call { IsAppendCall (target_now kind (length bytes.now) self.old) kind (length bytes.now)
            (tables_of self.old) (tables_of self.new) (without_place result) }
        ensures written { (w : Volume) → IsKept (tables_of self.old) w → IfOk result (λ place.
            part place.offset (length bytes.now) (content (tables_now (tables_of self.new)).chunks place.container
            (disk_of (tables_of self.new)).image) ≡ bytes.now) }
    {
        let target = self.target(kind, bytes.len() as u32);
        append(&mut self.tables, target, kind, bytes)?;
        self.opened.set(kind, target.container);
        Ok(Place {
            container: target.container,
            offset: target.offset,
        })
    }
}
