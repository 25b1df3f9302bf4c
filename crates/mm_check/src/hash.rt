//! The hash of a name.

ghost use Rattle.std.specs.Prelude.{◌≡◌, ◌%◌, ◌^◌};
ghost use Rattle.mm_nstable.specs.Hash.{number_of, hash_of};

// The bytes as digits of a number in base 131, of which the low 32 bits are kept.
fn number(bytes: &[u8]) -> u32
    ensures { result ≡ number_of bytes.now % 2 ^ 32 }
{
    let mut number: u32 = 0;
    for byte in bytes {
        number = number.wrapping_mul(131).wrapping_add(u32::from(*byte));
    }
    number
}

// The hash of a name in the `.ns` file.
pub(crate) fn hash(name: &[u8]) -> u32
    ensures { result ≡ hash_of name.now }
{
    (number(name) & 0x7fff_ffff) | 0x0800_0000
}
