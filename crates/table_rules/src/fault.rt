//! Why tables are refused.

use table_records::Memory;
use thiserror::Error;

/// Why the tables of an image are not taken.
#[derive(Clone, Copy, Debug, PartialEq, Eq, Error)]
pub enum TableFault {
    /// The least rule that is broken.
    #[error("rule {0} of the tables is broken")]
    Broken(u8),
    /// Memory was wanting.
    #[error("out of memory")]
    Memory,
}

impl From<Memory> for TableFault {
    ghost use Rattle.std.specs.Prelude.{◌≡◌};
    ghost use Rattle.table_rules.specs.declared.fault.TableFault.TheVariants.{Memory as out_of_memory};

    ghost from_gives = { λ _ e. e ≡ out_of_memory };

    fn from(_memory: Memory) -> TableFault {
        TableFault::Memory
    }
}
