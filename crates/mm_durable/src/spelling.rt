//! A section's bytes.

ghost use Rattle.std.specs.Prelude.{◌≡◌, ◌<◌, OnOk, IsErrOf};
ghost use Rattle.mm_outside.specs.declared.disk.Device.TheVariants.{Fault};
ghost use Rattle.mm_section.specs.Spells.{IsSpellable, section_bytes};

use mm_outside::Device;
use mm_section::{Section, write_section};

/// Makes a buffer the section's spelling in the file with this id.
pub fn spell(section: &Section, id: u64, out: &mut Vec<u8>) -> Result<(), Device>
    requires { IsSpellable section.now }
    ensures ok { OnOk result (out.new.items ≡ section_bytes id section.now) }
    ensures cause { IsErrOf result Fault → ⊥ }
{
    out.clear();
    match write_section(section, id, out) {
        Ok(()) => Ok(()),
        Err(_) => Err(Device::NoMemory),
    }
}
