//! Rows are read over the tables.

ghost use Rattle.volume_tables.specs.After.{reads_self, reads_then};
ghost use Rattle.volume_tables.specs.Reads.{ReadsOnly, IsTold};
ghost use Rattle.volume_tables.specs.Tables.{tables_now, disk_of};

use crate::tables::Tables;
use row_reading::ChunkDisk;
use table_records::{Place, Row};
use vdisk::{Disk, Failed};

impl<D: Disk> ChunkDisk for Tables<D> {
    ghost chunks = { λ t. (tables_now t).chunks };

    ghost image = { λ t. (disk_of t).image };

    ghost tells = { λ t. IsTold t };

    ghost faults = { λ t. (disk_of t).faults };

    ghost is_from = { λ a b. ReadsOnly a b };

    fn get_row(&self, id: u64) -> Option<Row> {
        Tables::get_row(self, id)
    }

    fn get_place(&self, key: (u64, u8)) -> Option<Place> {
        Tables::get_place(self, key)
    }

    fn get_cluster(&self, key: (u64, u32)) -> Option<u32> {
        Tables::get_cluster(self, key)
    }

    fn read_run(&mut self, first: u32, from: u16, out: &mut [u8]) -> Result<(), Failed> {
        match Tables::read_run(self, first, from, out) {
            Ok(()) => Ok(()),
            Err(_) => Err(Failed),
        }
    }

    ghost from_self = { λ t. reads_self t (D.same_self t.log.disk) };

    ghost from_next = { λ a b c one two. reads_then D.same_next a b c one two };
}
