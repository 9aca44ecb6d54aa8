// A volume is opened: mounted, or made anew.
ghost use Rattle.std.specs.Prelude.{◌≡◌, ◌≤◌, true, false, ℕ, IsTrue, IfOk, IfErr, OnErr, IsErrOf};
ghost use Rattle.answer_text.specs.Saying.{IsSaid};
ghost use Rattle.meta_log.specs.Opened.{IsOnlyRead};
ghost use Rattle.answer_text.specs.Answers.{Refused, text_of};
ghost use Rattle.ddpsh.specs.Bounds.{IsFresh};
ghost use Rattle.ddpsh.specs.Commands.{IsInRange};
ghost use Rattle.ddpsh.specs.Opens.{Opens, IsOpeningFault, IsRefusedEnd, is_reason};
ghost use Rattle.ddpsh.specs.Outcomes.{mount_text};
ghost use Rattle.ddpsh.specs.Served.{volume_state};
ghost use Rattle.volume_core.specs.Volumes.{device_of, disk_of, view_now, stopped, IsKept};
ghost use Rattle.ddpsh.specs.declared.commands.Command.TheVariants as asks;

use crate::commands::Command;
use crate::ending::End;
use answer_text::{Answered, SessionFault, refused, refused_number, refused_numbers};
use std::alloc::Global;
use vdisk::Disk;
use volume_core::Volume;
use volume_tables::MountFault;

/// Opens the volume that the command asks for, or hands the disk back.
pub(crate) fn open<D: Disk>(
    alloc: Global,
    command: Command,
    disk: D,
) -> Result<Volume<D>, (D, MountFault)>
    requires { IsInRange command }
    ensures opens { IsTrue (D.state disk).tells →
        IfOk result (λ v. Opens command (D.state disk).image (volume_state v)) }
    ensures kept { IsTrue (D.state disk).tells → IfOk result (λ v. IsKept v (view_now v)) }
    ensures runs { IfOk result (λ v. stopped v ≡ false) }
    ensures fresh { (n : ℕ) → command ≡ asks.Format n → IfOk result (λ v. IsFresh n v) }
    ensures refused { IfErr result (λ e. IsOpeningFault command (D.state disk) (D.state e.0) e.1) }
    ensures later { IfOk result (λ v. (D.state disk).faults ≤ (disk_of v).faults) }
    ensures read { command ≡ asks.Mount → IfOk result (λ v. IsOnlyRead (D.state disk) (disk_of v)) }
    ensures read_err { command ≡ asks.Mount → IfErr result (λ e. IsOnlyRead (D.state disk) (D.state e.0)) }
    ensures same { IfOk result (λ v. D.is_same disk (device_of v)) }
    ensures same_err { IfErr result (λ e. D.is_same disk e.0) }
{
    match command {
        Command::Mount => Volume::mount(alloc, disk),
        Command::Format(clusters) => Volume::format(alloc, disk, clusters),
    }
}

/// The answer where the image, or its size, is refused.
fn refused_mount(text: &mut Vec<u8>, fault: MountFault) -> Result<Answered, SessionFault>
    requires { is_reason fault ≡ true }
    ensures said { IfOk result (λ a. IsSaid a text.new.items (Refused (mount_text fault))) }
    ensures memory { OnErr result (IsErrOf result SessionFault.Memory) }
{
    match fault {
        MountFault::NotVolume => refused(text, b" NotVolume", b""),
        MountFault::VersionUnknown(found) => refused_number(text, b" VersionUnknown", found as u64),
        MountFault::SizeDiffers(said, size) => refused_numbers(text, b" SizeDiffers", said, size),
        MountFault::MetaDamaged(half) => refused_number(text, b" MetaDamaged", half as u64),
        MountFault::BadTable(rule) => refused_number(text, b" BadTable", rule as u64),
        MountFault::Failed => unreachable!(),
        MountFault::Memory => unreachable!(),
    }
}

/// How a run ends that opened no volume; `text` gets the refusal, where one is printed.
pub(crate) fn end_of_refusal(fault: MountFault, text: &mut Vec<u8>) -> End
    ensures end { IsRefusedEnd fault result }
    ensures text { result ≡ End.Refused fault → text.new.items ≡ text_of (Refused (mount_text fault)) }
{
    match fault {
        MountFault::Failed => End::Device,
        MountFault::Memory => End::Memory,
        _ => match refused_mount(text, fault) {
            Ok(_) => End::Refused(fault),
            Err(SessionFault::Memory) => End::Memory,
            Err(_) => unreachable!(),
        },
    }
}
