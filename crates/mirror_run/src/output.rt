//! Text that is written out once there is much of it.
ghost use Rattle.std.specs.Prelude.{◌≡◌, ◌<◌, [], OnOk, OnErr, IfErr};
ghost use Rattle.std.specs.Io.KnownBytes.{Appends};
ghost use Rattle.std.specs.String.{string_bytes, string_len};
ghost use Rattle.mirror_run.specs.PlayedView.{PrintsText};
ghost use Rattle.mirror_run.specs.Output.{Begins};

use crate::script::Fault;
use program_frame::whole::write_bytes;
use std::alloc::Allocator;
use std::io::Write;

/// As much text is held before it is written.
const FULL: usize = 65536;

/// Writes the text out, and empties it.
fn write_out<A: Allocator, O: Write>(text: &mut String<A>, out: &mut O) -> Result<(), Fault>
    ensures written { OnOk result (Appends (O.contents out.old) (O.contents out.new)
        (string_bytes text.old)) }
    ensures emptied { OnOk result (string_bytes text.new ≡ []) }
    ensures begun { OnErr result (Begins (O.contents out.old) (string_bytes text.old)
        (O.contents out.new) []) }
    ensures err { IfErr result (λ e. e ≡ Fault.OutputFailed) }
{
    match write_bytes(text.as_bytes(), out) {
        Ok(()) => {
            text.clear();
            Ok(())
        }
        Err(_) => Err(Fault::OutputFailed),
    }
}

/// Writes the text out, and empties it, if it is long: 64 KiB or more.
pub fn write_full<A: Allocator, O: Write>(text: &mut String<A>, out: &mut O) -> Result<(), Fault>
    // What is written, with the text after it, stays.
    ensures kept { OnOk result (PrintsText (O.contents out.old) text.old
        (O.contents out.new) text.new []) }
    ensures short { OnOk result (string_len text.new < 65536) }
    ensures begun { OnErr result (Begins (O.contents out.old) (string_bytes text.old)
        (O.contents out.new) []) }
    ensures err { IfErr result (λ e. e ≡ Fault.OutputFailed) }
{
    if text.len() < FULL {
        return Ok(());
    }
    write_out(text, out)
}

/// Writes the text out, as the last of a run.
pub fn write_last<A: Allocator, O: Write>(text: &mut String<A>, out: &mut O) -> Result<(), Fault>
    ensures written { OnOk result (Appends (O.contents out.old) (O.contents out.new)
        (string_bytes text.old)) }
    ensures begun { OnErr result (Begins (O.contents out.old) (string_bytes text.old)
        (O.contents out.new) []) }
    ensures err { IfErr result (λ e. e ≡ Fault.OutputFailed) }
{
    write_out(text, out)?;
    let Ok(()) = out.flush() else {
        return Err(Fault::OutputFailed);
    };
    Ok(())
}
