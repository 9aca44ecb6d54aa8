//! The store of chunks and maps over the tables of a volume.

ghost use Rattle.std.specs.Prelude.{◌≡◌};
ghost use Rattle.volume_inside.specs.Rules.{RulesHold};
ghost use Rattle.volume_tables.specs.Tables.{tables_now, clusters_in};
ghost use Rattle.chunk_container.specs.Open.{none_open, last_containers};

use crate::containers::OpenContainers;
use vdisk::Disk;
use volume_tables::Tables;

/// The tables of a volume, with the containers that bytes are appended to.
#[derive(Drop)]
pub struct Store<D: Disk> {
    pub(crate) tables: Tables<D>,
    pub(crate) opened: OpenContainers,
}

impl<D: Disk> Store<D> {
    ghost use Rattle.std.specs.Borrow.{sem};
    ghost use Rattle.chunk_container.specs.Lending.{lends_tables};
    ghost use Rattle.chunk_container.specs.Stores.{tables_of, open_in};

    /// The store over some tables. The container of each kind with the greatest id is open. It takes no memory.
    pub fn new(tables: Tables<D>) -> Store<D>
        requires { RulesHold (clusters_in tables) (tables_now tables) }
        ensures tables { tables_of result ≡ tables }
        ensures open { open_in result ≡ last_containers (tables_now tables).chunks.containers }
    {
        let mut opened = OpenContainers::none();
        let mut next = tables.next_container(None);
        while let Some((id, container)) = next {
            opened.set(container.kind, id);
            next = tables.next_container(Some(id));
        }
        Store { tables, opened }
    }

    /// The tables.
    pub fn tables(&self) -> &Tables<D>
        ensures { result.now ≡ tables_of self.now }
    {
        &self.tables
    }

    /// The tables, for calls that the store has none for.
    pub fn tables_mut(&mut self) -> &mut Tables<D>
        ensures* lent { sem 𝓛 (lends_tables D.row D.Disk self.entry result) }
        ensures tables { result.now ≡ tables_of self.old }
    {
        &mut self.tables
    }

    /// Hands back what the store was made of. Staged records stay staged.
    pub fn into_tables(self) -> Tables<D>
        ensures { result ≡ tables_of self }
    {
        self.tables
    }

    /// Closes all containers: what is appended next goes into new ones.
    pub fn close_containers(&mut self)
        ensures tables { tables_of self.new ≡ tables_of self.old }
        ensures open { open_in self.new ≡ none_open }
    {
        self.opened = OpenContainers::none();
    }
}
