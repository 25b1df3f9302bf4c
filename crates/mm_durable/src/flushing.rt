//! What sections made and wrote in one database is laid over its files.

ghost use Rattle.std.specs.Prelude.{◌≡◌, ◌<◌, ◌^◌, IfOk, OnOk, IsTrue};
ghost use Rattle.std.specs.Ordering.{eq_by_cmp};
ghost use Rattle.mm_outside.specs.declared.disk.Device.TheVariants.{Fault};
ghost use Rattle.mm_outside.specs.Fault.{HasCause};
ghost use Rattle.mm_outside.specs.Image.{name_cmp};
ghost use Rattle.mm_outside.specs.Ask.{Makes, MakesSome};
ghost use Rattle.mm_section.specs.Spells.{is_db_name};
ghost use Rattle.mm_crash.specs.Asks.{lay_asks};
ghost use Rattle.mm_recover.specs.Laying.{AreNamed};
ghost use Rattle.mm_durable.specs.Flushed.{flushed_bytes};
ghost use Rattle.mm_durable.specs.Own.{own_of, own_of_parts, own_of_sections, AreAllNamed};

use crate::counting::flushed_bytes;
use mm_outside::{Device, Disk};
use mm_ranges::Part;
use mm_recover::lay_part;
use mm_section::Section;
use std::alloc::Global;

/// Whether these are one name.
pub fn is_same(one: &[u8], other: &[u8]) -> bool
    ensures { result ≡ eq_by_cmp name_cmp one.now other.now }
{
    one.cmp(other).is_eq()
}

// Lays a part, where it is of the database of this name.
fn lay_own<D: Disk>(alloc: Global, disk: &mut D, part: &Part, name: &[u8]) -> Result<(), Device>
    requires { IsTrue (is_db_name part.now.name) }
    ensures made { OnOk result (Makes (lay_asks (own_of name.now part.now)) (D.told disk.old) (D.told disk.new)) }
    ensures cut { MakesSome (lay_asks (own_of name.now part.now)) (D.told disk.old) (D.told disk.new) }
    ensures cause { HasCause Fault (D.faults disk.old) (D.faults disk.new) result }
{
    if is_same(part.name.as_slice(), name) {
        lay_part(alloc, disk, part)?;
    }
    Ok(())
}

// The same of all parts of a section.
fn lay_section<D: Disk>(
    alloc: Global,
    disk: &mut D,
    parts: &[Part],
    name: &[u8],
) -> Result<(), Device>
    requires { AreNamed parts.now }
    ensures made { OnOk result (Makes (lay_asks (own_of_parts name.now parts.now)) (D.told disk.old) (D.told disk.new)) }
    ensures cut { MakesSome (lay_asks (own_of_parts name.now parts.now)) (D.told disk.old) (D.told disk.new) }
    ensures cause { HasCause Fault (D.faults disk.old) (D.faults disk.new) result }
{
    for part in parts {
        lay_own(alloc, disk, part, name)?;
    }
    Ok(())
}

// Lays what these sections made and wrote in the database of this name over its files, the oldest first.
fn lay_sections<D: Disk>(
    alloc: Global,
    disk: &mut D,
    sections: &[Section],
    name: &[u8],
) -> Result<(), Device>
    requires { AreAllNamed sections.now }
    ensures made { OnOk result (Makes (lay_asks (own_of_sections name.now sections.now)) (D.told disk.old) (D.told disk.new)) }
    ensures cut { MakesSome (lay_asks (own_of_sections name.now sections.now)) (D.told disk.old) (D.told disk.new) }
    ensures cause { HasCause Fault (D.faults disk.old) (D.faults disk.new) result }
{
    for section in sections {
        lay_section(alloc, disk, section.parts.as_slice(), name)?;
    }
    Ok(())
}

/// The same, and answers how many bytes were written at ranges.
pub fn flush_sections<D: Disk>(
    alloc: Global,
    disk: &mut D,
    sections: &[Section],
    name: &[u8],
) -> Result<u64, Device>
    requires named { AreAllNamed sections.now }
    requires small { flushed_bytes name.now sections.now < 2 ^ 64 }
    ensures bytes { IfOk result (λ bytes. bytes ≡ flushed_bytes name.now sections.now) }
    ensures made { OnOk result (Makes (lay_asks (own_of_sections name.now sections.now)) (D.told disk.old) (D.told disk.new)) }
    ensures cut { MakesSome (lay_asks (own_of_sections name.now sections.now)) (D.told disk.old) (D.told disk.new) }
    ensures cause { HasCause Fault (D.faults disk.old) (D.faults disk.new) result }
{
    lay_sections(alloc, disk, sections, name)?;
    Ok(flushed_bytes(sections, name))
}
