//! Bytes are written into pages of a container that it has not yet, all of them or none.

ghost use Rattle.std.specs.Prelude.{◌≡◌, ◌⊎◌, ◌≤◌, ◌<◌, ◌+◌, ◌-◌, ◌*◌, ℕ, T, true, false, length, drop, ◌++◌, None, IsSome};
ghost use Rattle.std.specs.Prelude.{IfOk, OnOk, OnErr, IsErrOf};
ghost use Rattle.std.specs.Ordering.{nat_cmp};
ghost use Rattle.std.specs.FinMap.{find, is_sorted};
ghost use Rattle.volume_inside.specs.declared.chunk_rules.TheConstants.{MOST_MAP_BYTES, MOST_PAGES};
ghost use Rattle.vdisk.specs.Causes.{Rose};
ghost use Rattle.cluster_space.specs.States.{free_in};
ghost use Rattle.table_records.specs.Keys.{pair_cmp};
ghost use Rattle.volume_inside.specs.declared.layout.TheConstants.{CLUSTER_BYTES};
ghost use Rattle.volume_inside.specs.Changes.{with_cluster};
ghost use Rattle.volume_inside.specs.Inside.{inside_at};
ghost use Rattle.volume_inside.specs.Layout.{half_bytes};
ghost use Rattle.volume_inside.specs.Pages.{used_of, pages_of};
ghost use Rattle.volume_inside.specs.Typed.{Typed};
ghost use Rattle.volume_tables.specs.declared.room.TheConstants.{MOST_RECORDS};
ghost use Rattle.volume_tables.specs.Frames.{AreFree, NamesNoFree};
ghost use Rattle.volume_tables.specs.Moves.{WritesData};
ghost use Rattle.volume_tables.specs.Tables.{tables_now, states_of, staged_of, checkpoint_of, disk_of, stopped};
ghost use Rattle.volume_tables.specs.Tables.{new_bytes, IsTables, Leaves};
ghost use Rattle.chunk_container.specs.Pages.{without_first, AreAhead, HasFront, HavePages, ArePagesPut, IsNoFreer};
ghost use Rattle.chunk_container.specs.Pages.{LosesNone};

use cluster_space::Run;
use plain_volume::Fault;
use vdisk::Disk;
use volume_inside::CLUSTER_BYTES;
use volume_tables::{Container, Tables};

/// The bytes of a page, as the length of an array.
const PAGE_BYTES: usize = CLUSTER_BYTES as usize;

/// Puts bytes in the place of those in front.
fn put_front(page: &mut [u8], bytes: &[u8])
    requires { length bytes.now ≤ length page.old }
    ensures { page.new ≡ bytes.now ++ drop (length bytes.now) page.old }
{
    page[..bytes.len()].copy_from_slice(bytes);
}

/// Writes bytes that do not fill a page into the front of a free cluster, with zeros behind them.
fn write_last_page<D: Disk>(tables: &mut Tables<D>, bytes: &[u8]) -> Result<Run, Fault>
    requires running { stopped tables.old ≡ false }
    requires short { length bytes.now < CLUSTER_BYTES }
    requires some { 0 < free_in (states_of tables.old) }
    ensures one { IfOk result (λ run. run.count ≡ 1) }
    ensures free { IfOk result (λ run. AreFree tables.old.clusters (states_of tables.old) run) }
    ensures writes { WritesData tables.old tables.new result }
    ensures front { (stored : Typed) → IsTables tables.old stored → IfOk result (λ run.
        HasFront bytes.now run.first (disk_of tables.new).image) }
    ensures frame { (t : Typed) → NamesNoFree tables.old.clusters (states_of tables.old) t →
        inside_at t (disk_of tables.new).image ≡ inside_at t (disk_of tables.old).image }
{
    let mut page = [0; PAGE_BYTES];
    put_front(&mut page, bytes);
    tables.write_free_run(&page)
}

/// Sees to it that a free cluster has the bytes in front: one that was written ahead, or one that is written now, and
/// those of the pages behind it which the bytes fill with it. Answers the clusters written ahead, from this one on.
fn write_ahead<D: Disk>(tables: &mut Tables<D>, bytes: &[u8], ahead: Run) -> Result<Run, Fault>
    requires running { stopped tables.old ≡ false }
    requires short { length bytes.now ≤ MOST_MAP_BYTES }
    requires some { 0 < free_in (states_of tables.old) }
    requires free { AreFree tables.old.clusters (states_of tables.old) ahead }
    requires filled { CLUSTER_BYTES * ahead.count ≤ length bytes.now }
    ensures some { IfOk result (λ run. 0 < run.count) }
    ensures free { IfOk result (λ run. AreFree tables.old.clusters (states_of tables.old) run) }
    ensures filled { IfOk result (λ run. CLUSTER_BYTES * (run.count - 1) ≤ length bytes.now - CLUSTER_BYTES) }
    ensures writes { WritesData tables.old tables.new result }
    ensures front { (stored : Typed) → IsTables tables.old stored →
        AreAhead bytes.now ahead (disk_of tables.old).image → IfOk result (λ run.
        HasFront bytes.now run.first (disk_of tables.new).image) }
    ensures ahead { (stored : Typed) → IsTables tables.old stored →
        AreAhead bytes.now ahead (disk_of tables.old).image → IfOk result (λ run.
        AreAhead (drop CLUSTER_BYTES bytes.now) (without_first run) (disk_of tables.new).image) }
    ensures frame { (t : Typed) → NamesNoFree tables.old.clusters (states_of tables.old) t →
        inside_at t (disk_of tables.new).image ≡ inside_at t (disk_of tables.old).image }
{
    if ahead.count > 0 {
        return Ok(ahead);
    }
    if bytes.len() < PAGE_BYTES {
        return write_last_page(tables, bytes);
    }
    tables.write_free_run(bytes)
}

/// Drops a page that was named last, whose cluster is deferred.
fn take_back<D: Disk>(tables: &mut Tables<D>, key: (u64, u32))
    requires room { staged_of tables.old + 31 ≤ MOST_RECORDS }
    requires low { key.1 < MOST_PAGES }
    requires there { IsSome (find pair_cmp key (tables_now tables.old).chunks.clusters) }
    ensures tables { (t : Typed) (cluster : ℕ) → T (is_sorted pair_cmp t.chunks.clusters) →
        find pair_cmp key t.chunks.clusters ≡ None →
        tables_now tables.old ≡ with_cluster key cluster t → tables_now tables.new ≡ t }
    ensures leaves { Leaves tables.old tables.new }
    ensures fewer { IsNoFreer (states_of tables.old) (states_of tables.new) }
    ensures loses_none { LosesNone tables.old tables.new }
    ensures staged { staged_of tables.new ≡ staged_of tables.old + 31 }
    ensures image { (disk_of tables.new).image ≡ (disk_of tables.old).image }
    ensures running { stopped tables.new ≡ stopped tables.old }
{
    tables.drop_cluster(key, Some((key.0, key.1 + 1)));
}

/// Writes bytes into pages of a container, from the page `key` on, and sets its record, which has pages up to these.
/// `ahead` are clusters that were written ahead for them. A refusal leaves the tables as they are. It calls itself once
/// for each page, at most 96 times.
pub(crate) fn put_pages<D: Disk>(
    tables: &mut Tables<D>,
    key: (u64, u32),
    container: Container,
    bytes: &[u8],
    ahead: Run,
) -> Result<(), Fault>
    requires running { stopped tables.old ≡ false }
    requires short { length bytes.now ≤ MOST_MAP_BYTES }
    requires low { key.1 + pages_of (length bytes.now) ≤ MOST_PAGES }
    requires bare { (index : ℕ) → key.1 ≤ index →
        find pair_cmp (key.0, index) (tables_now tables.old).chunks.clusters ≡ None }
    requires grows { used_of (tables_now tables.old).chunks.containers key.0 ≤ container.used }
    requires clusters { pages_of (length bytes.now) ≤ free_in (states_of tables.old) }
    requires room { staged_of tables.old + (53 * pages_of (length bytes.now) + 19) ≤ MOST_RECORDS }
    requires fits { checkpoint_of tables.old + (22 * pages_of (length bytes.now) +
        new_bytes (find nat_cmp key.0 (tables_now tables.old).chunks.containers) 19)
        ≤ half_bytes tables.old.clusters }
    requires free { AreFree tables.old.clusters (states_of tables.old) ahead }
    requires filled { CLUSTER_BYTES * ahead.count ≤ length bytes.now }
    ensures ok { OnOk result (ArePagesPut key (pages_of (length bytes.now)) container
        (tables_now tables.old) (tables_now tables.new)) }
    ensures err { OnErr result (tables_now tables.new ≡ tables_now tables.old) }
    ensures have { (stored : Typed) → IsTables tables.old stored →
        AreAhead bytes.now ahead (disk_of tables.old).image → OnOk result (HavePages key bytes.now
        (tables_now tables.new).chunks.clusters (disk_of tables.new).image) }
    ensures frame { (t : Typed) → NamesNoFree tables.old.clusters (states_of tables.old) t →
        inside_at t (disk_of tables.new).image ≡ inside_at t (disk_of tables.old).image }
    ensures leaves { Leaves tables.old tables.new }
    ensures fewer { IsNoFreer (states_of tables.old) (states_of tables.new) }
    ensures loses_none { LosesNone tables.old tables.new }
    ensures most { staged_of tables.new ≤ staged_of tables.old + (53 * pages_of (length bytes.now) + 19) }
    ensures staged { OnOk result (staged_of tables.new ≡
        staged_of tables.old + (22 * pages_of (length bytes.now) + 19)) }
    ensures taken { OnOk result (free_in (states_of tables.new) + pages_of (length bytes.now) ≡
        free_in (states_of tables.old)) }
    ensures runs { OnOk result (stopped tables.new ≡ false) }
    ensures stops { stopped tables.new ≡ true → IsErrOf result Fault.Failed }
    ensures refused { OnErr result (IsErrOf result Fault.Failed ⊎ IsErrOf result Fault.Memory) }
    ensures failed { IsErrOf result Fault.Failed → Rose (disk_of tables.old).faults (disk_of tables.new).faults }
    ensures halts { IsErrOf result Fault.Failed → stopped tables.new ≡ true }
{
    if bytes.is_empty() {
        return tables.set_container(key.0, container);
    }
    let ready = write_ahead(tables, bytes, ahead)?;
    tables.set_cluster(key, ready.first)?;
    let rest = Run {
        first: ready.first + 1,
        count: ready.count - 1,
    };
    let behind = &bytes[bytes.len().min(PAGE_BYTES)..];
    match put_pages(tables, (key.0, key.1 + 1), container, behind, rest) {
        Ok(()) => Ok(()),
        Err(fault) => {
            take_back(tables, key);
            Err(fault)
        }
    }
}
