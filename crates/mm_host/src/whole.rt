ghost use Rattle.std.specs.Prelude.{◌≡◌, ◌<◌, ◌≤◌, length, take, IfOk, OnOk};
ghost use Rattle.std.specs.Io.KnownBytes.{Appends, Consumes, IsAtEnd};

use std::io::{self, ErrorKind, Read, Write};

/// Reads until the buffer is full or the end is reached, and says how many bytes came.
pub(crate) fn read_whole<R: Read>(from: &mut R, out: &mut [u8]) -> io::Result<usize>
    ensures count { IfOk result (λ n. n ≤ length out.old) }
    ensures bytes { IfOk result (λ n. Consumes (R.remaining from.old) (R.remaining from.new) (take n out.new)) }
    ensures end { IfOk result (λ n. n < length out.old → IsAtEnd (R.remaining from.new)) }
{
    let mut filled = 0;
    while filled < out.len() {
        let n = from.read(&mut out[filled..])?;
        if n == 0 {
            break;
        }
        filled += n;
    }
    Ok(filled)
}

/// Writes all the bytes. A write that takes none of them is an error. After an error some may have been written.
pub(crate) fn write_whole<W: Write>(to: &mut W, bytes: &[u8]) -> io::Result<()>
    ensures { OnOk result (Appends (W.contents to.old) (W.contents to.new) bytes.now) }
{
    let mut written = 0;
    while written < bytes.len() {
        let n = to.write(&bytes[written..])?;
        if n == 0 {
            return Err(io::Error::from(ErrorKind::WriteZero));
        }
        written += n;
    }
    Ok(())
}
