//! Fields of a line.
ghost use Rattle.std.specs.Prelude.{◌≡◌, ◌++◌, All, OnOk};
ghost use Rattle.program_frame.specs.Fields.{field_of, escape_of, IsInField};

use std::alloc::AllocError;

/// Appends the text as a field of a line: a tab is written as `\t`, a line feed as `\n`, a carriage
/// return as `\r` and a backslash as `\\`. So fields can be parted by tabs and lines by line feeds,
/// whatever the names of files are.
pub fn push_field(line: &mut Vec<u8>, text: &[u8]) -> Result<(), AllocError>
    ensures ok { OnOk result (line.new.items ≡ line.old.items ++ field_of text.now) }
    ensures flat { All IsInField (field_of text.now) }
{
    for byte in text {
        push_escaped(line, *byte)?;
    }
    Ok(())
}

/// Appends one byte of a field.
fn push_escaped(line: &mut Vec<u8>, byte: u8) -> Result<(), AllocError>
    ensures { OnOk result (line.new.items ≡ line.old.items ++ escape_of byte) }
{
    match byte {
        b'\t' => line.extend_from_slice(b"\\t"),
        b'\n' => line.extend_from_slice(b"\\n"),
        b'\r' => line.extend_from_slice(b"\\r"),
        b'\\' => line.extend_from_slice(b"\\\\"),
        _ => Ok(line.push(byte)?),
    }
}
