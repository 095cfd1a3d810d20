//! Bytes as they are written in a line.
ghost use Rattle.std.specs.Prelude.{◌≡◌, ◌++◌, OnOk, string_bytes};
ghost use Rattle.dk_model.specs.Lines.{escaped, byte_text, is_plain};

use dk_types::NoMemory;

/// Appends the bytes; those that are not visible are escaped.
pub(crate) fn push_escaped(out: &mut String, bytes: &[u8]) -> Result<(), NoMemory>
    ensures ok { OnOk result (string_bytes out.new ≡ string_bytes out.old ++ escaped bytes.now) }
{
    for b in bytes {
        push_byte_text(out, *b)?;
    }
    Ok(())
}

fn push_byte_text(out: &mut String, byte: u8) -> Result<(), NoMemory>
    ensures ok { OnOk result (string_bytes out.new ≡ string_bytes out.old ++ byte_text byte) }
{
    if is_plain(byte) {
        out.push(char::from(byte))?;
    } else {
        write!(out, "\\x{byte:02x}")?;
    }
    Ok(())
}

fn is_plain(byte: u8) -> bool
    ensures { result ≡ is_plain byte }
{
    byte >= 0x20 && byte <= 0x7E && byte != b'\\'
}
