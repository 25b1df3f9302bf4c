//! The names of a database's files on the disk.

ghost use Rattle.std.specs.Prelude.{◌≡◌, IsTrue, IfOk, string_bytes};
ghost use Rattle.mm_section.specs.Spells.{is_db_name};
ghost use Rattle.mm_journal.specs.Real.{disk_name};

use mm_ranges::NS_FILE;
use std::alloc::{AllocError, Global};

/// The name of a database's file, `NAME.ns` or `NAME.` and its number.
pub fn disk_name(alloc: Global, name: &[u8], file: u32) -> Result<String, AllocError>
    requires { IsTrue (is_db_name name.now) }
    ensures { IfOk result (λ text. string_bytes text ≡ disk_name name.now file) }
{
    let text = String::from_utf8_lossy(alloc, name)?;
    if file == NS_FILE {
        format!(in alloc; "{text}.ns")
    } else {
        format!(in alloc; "{text}.{file}")
    }
}
