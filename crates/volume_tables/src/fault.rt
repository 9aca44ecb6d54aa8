//! What refusals of the journal are for the tables.

ghost use Rattle.std.specs.Prelude.{◌≡◌, ◌↔◌, IsTrue};
ghost use Rattle.volume_tables.specs.Faults.{IsHandedOn, answer_of};

use meta_log::MetaFault;
use plain_volume::Fault;

/// The answer of the tables where the journal gave this one.
pub(crate) fn of_log(answer: Result<(), MetaFault>) -> Result<(), Fault>
    requires { IsHandedOn answer }
    ensures { result ≡ answer_of answer }
{
    match answer {
        Ok(()) => Ok(()),
        Err(MetaFault::TableFull) => Err(Fault::TableFull),
        Err(MetaFault::Worn) => Err(Fault::Worn),
        Err(MetaFault::Failed) => Err(Fault::Failed),
        Err(MetaFault::Memory) => Err(Fault::Memory),
        Err(MetaFault::GroupFull) => unreachable!(),
        Err(MetaFault::Damaged(_)) => unreachable!(),
    }
}

pub(crate) fn is_worn(fault: &Fault) -> bool
    ensures { IsTrue result ↔ fault.now ≡ Fault.Worn }
{
    matches!(fault, Fault::Worn)
}
