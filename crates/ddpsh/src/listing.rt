// All files of a volume, listed.
ghost use Rattle.std.specs.Prelude.{◌≡◌, false, option_map};
ghost use Rattle.cmdlet_line.specs.Lines.{Listing};
ghost use Rattle.script_items.specs.Script.{Bare};
ghost use Rattle.volume_core.specs.Volumes.{stopped};
ghost use Rattle.ddpsh.specs.Served.{Attempts, IsSteady};

use crate::calls::Attempt;
use answer_text::{SessionFault, accepted_lines, add_line};
use plain_volume::limits::MOST_FILES;
use plain_volume::{Fault, Name};
use std::alloc::Global;
use vdisk::Disk;
use volume_core::Volume;
use volume_core::laws::volume_is_lawful;

/// The bytes of a name, if there is one.
fn bytes_in(name: &Option<Name>) -> Option<&[u8]>
    ensures { option_map (λ bytes. bytes.now) result ≡ name.now }
{
    match name {
        Some(name) => Some(name.as_bytes()),
        None => None,
    }
}

/// A list for which memory was wanting.
fn cut_short(made: u64) -> Attempt
    ensures { result ≡ record { made = made; ended = Err SessionFault.Memory } }
{
    Attempt {
        made,
        ended: Err(SessionFault::Memory),
    }
}

/// Asks for each name, and for the length of its file. The lines are collected first, and then put behind their number.
pub(crate) fn list<D: Disk>(volume: &Volume<D>, alloc: Global, text: &mut Vec<u8>) -> Attempt
    requires { stopped volume.now ≡ false }
    ensures told { Attempts (Bare Listing) volume.now volume.now result text.new.items }
    ensures steady { IsSteady volume.now volume.now result }
{
    volume_is_lawful(volume);
    text.clear();
    let mut last = None;
    let mut count = 0;
    while count <= MOST_FILES {
        let name = match volume.next_name(alloc, bytes_in(&last)) {
            Ok(Some(name)) => name,
            Ok(None) => {
                return Attempt {
                    made: 2 * count + 1,
                    ended: accepted_lines(text, alloc, count),
                };
            }
            Err(fault) => match fault {
                Fault::Memory => return cut_short(2 * count + 1),
                _ => unreachable!(),
            },
        };
        let Ok(size) = volume.stat(name.as_bytes()) else {
            unreachable!()
        };
        match add_line(text, size, name.as_bytes()) {
            Ok(()) => {}
            Err(SessionFault::Memory) => return cut_short(2 * count + 2),
            Err(_) => unreachable!(),
        }
        last = Some(name);
        count += 1;
    }
    unreachable!()
}
