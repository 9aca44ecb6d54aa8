//! A filter stands over tables, and lends them.

ghost use Rattle.std.specs.Prelude.{◌≡◌};
ghost use Rattle.std.specs.Borrow.{sem};
ghost use Rattle.rw_filter.specs.Filters.{filtered};
ghost use Rattle.volume_inside.specs.Rules.{RulesHold};
ghost use Rattle.volume_tables.specs.Tables.{tables_now, clusters_in};
ghost use Rattle.volume_core.specs.Lending.{lends_tables};

use chunk_container::Store;
use rw_filter::Filter;
use vdisk::Disk;
use volume_tables::Tables;

/// The filter over some tables. It takes no memory.
pub(crate) fn filter_over<D: Disk>(tables: Tables<D>) -> Filter<D>
    requires { RulesHold (clusters_in tables) (tables_now tables) }
    ensures { filtered result ≡ tables }
{
    Filter::new(Store::new(tables))
}

/// The tables below a filter, for calls that it has none for.
pub(crate) fn tables_mut<D: Disk>(filter: &mut Filter<D>) -> &mut Tables<D>
    ensures* lent { sem 𝓛 (lends_tables D.row D.Disk filter.entry result) }
    ensures tables { result.now ≡ filtered filter.old }
{
    filter.store_mut().tables_mut()
}

/// The tables below a filter.
pub(crate) fn tables_in<D: Disk>(filter: &Filter<D>) -> &Tables<D>
    ensures { result.now ≡ filtered filter.now }
{
    filter.store().tables()
}
