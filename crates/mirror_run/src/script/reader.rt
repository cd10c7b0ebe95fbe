//! A script that a reader gives.
ghost use Rattle.std.specs.Prelude.{◌≡◌, ◌⊎◌, IfSome, IfOk, IfErr};
ghost use Rattle.mirror_run.specs.Script.Faults.{IsReadFault};
ghost use Rattle.mirror_run.specs.Script.ScriptView.{IsScriptOf};

use crate::script::fault::Fault;
use crate::script::{Script, script_from};
use std::alloc::Allocator;
use std::io::{ErrorKind, Read};

/// Reads the script that the reader gives, whole. A reader that says that it is out of memory is taken
/// at its word; any other error of it is `CannotRead`.
pub fn read_script<A: Allocator + Copy, R: Read>(
    alloc: A,
    reader: &mut R,
) -> Result<Script<A>, Fault>
    ensures ok { IfOk result (λ script. IsScriptOf (R.remaining reader.old) script) }
    ensures err { IfErr result (λ e. IsReadFault (R.remaining reader.old) e) }
{
    let bytes = read_whole(alloc, reader)?;
    script_from(alloc, bytes.as_slice())
}

/// The bytes that the reader gives, up to its end.
fn read_whole<A: Allocator, R: Read>(alloc: A, reader: &mut R) -> Result<Vec<u8, A>, Fault>
    ensures ok { IfOk result (λ bytes. IfSome (R.remaining reader.old) (λ given. bytes.items
        ≡ given)) }
    ensures err { IfErr result (λ fault. (fault ≡ Fault.CannotRead) ⊎ (fault ≡ Fault.Memory)) }
{
    let mut bytes = Vec::new(alloc);
    match reader.read_to_end(&mut bytes) {
        Ok(_) => Ok(bytes),
        Err(e) if e.kind() == ErrorKind::OutOfMemory => Err(Fault::Memory),
        Err(_) => Err(Fault::CannotRead),
    }
}
