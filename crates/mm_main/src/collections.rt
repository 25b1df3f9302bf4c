// The names of collections.
ghost use Rattle.std.specs.Prelude.{◌≡◌, ◌||◌, ◌==◌, ℕ, List, ◌++◌, take, IfSome, IfNone};
ghost use Rattle.std.specs.List.{list_all};
ghost use Rattle.mm_model.specs.WellFormed.{is_word, is_collection_name};

/// The longest name of a collection.
pub const LONGEST_NAME: usize = 60;

/// What follows this front of the text.
pub fn behind<'a>(text: &'a [u8], front: &[u8]) -> Option<&'a [u8]>
    ensures some { IfSome result (λ rest. text.now ≡ front.now ++ rest.now) }
    ensures none { IfNone result ((rest : List ℕ) → text.now ≡ front.now ++ rest → ⊥) }
{
    text.strip_prefix(front)
}

// The first bytes, at most so many.
fn first_bytes(bytes: &[u8], count: usize) -> &[u8]
    ensures { result.now ≡ take count bytes.now }
{
    if bytes.len() < count {
        return bytes;
    }
    &bytes[..count]
}

fn is_name_byte(byte: u8) -> bool
    ensures { result ≡ (is_word byte || (byte == 46)) }
{
    byte.is_ascii_alphanumeric() || byte == b'_' || byte == b'.'
}

fn are_name_bytes(name: &[u8]) -> bool
    ensures { result ≡ list_all (λ b. is_word b || (b == 46)) name.now }
{
    name.iter().all(|byte| is_name_byte(*byte))
}

/// Whether it is a collection's name.
pub fn is_collection(name: &[u8]) -> bool
    ensures { result ≡ is_collection_name name.now }
{
    !name.is_empty()
        && name.len() <= LONGEST_NAME
        && are_name_bytes(name)
        && !(first_bytes(name, 7) == b"system.".as_slice())
}
