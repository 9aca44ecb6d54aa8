// Writing a text whole.
ghost use Rattle.std.specs.Prelude.{◌≡◌, ◌≤◌, ◌<◌, ℕ, List, length, IfOk, OnErr, OnOk};
ghost use Rattle.vdisk.specs.Causes.{HasCause};
ghost use Rattle.answer_text.specs.Told.{IsPut, IsPutInPart};

use vdisk::{Failed, Sink};

/// Writes all of a text, or fails with a front of it written.
pub fn put_all<K: Sink>(out: &mut K, text: &[u8]) -> Result<(), Failed>
    ensures ok { OnOk result (IsPut (K.held out.old) text.now (K.held out.new)) }
    ensures err { OnErr result (IsPutInPart (K.held out.old) text.now (K.held out.new)) }
    ensures cause { HasCause (K.faults out.old) (K.faults out.new) result }
{
    let mut done = 0;
    while done < text.len() {
        match out.write(&text[done..]) {
            Ok(n) => done += n,
            Err(failed) => return Err(failed),
        }
    }
    Ok(())
}
