ghost use Rattle.std.specs.Prelude.{◌↔◌, IsTrue};
ghost use Rattle.mm_host.specs.Names.{IsPart, IsFileName};

/// Whether a name is one of a file of the folder itself or, behind `journal/`, of its subfolder. No other name
/// is joined to the folder's path, so that no call reaches out of it.
pub(crate) fn is_file_name(name: &str) -> bool
    ensures { IsTrue result ↔ IsFileName name.now }
{
    let bytes = name.as_bytes();
    match bytes.strip_prefix(b"journal/") {
        Some(part) => is_part(part),
        None => is_part(bytes),
    }
}

fn is_part(name: &[u8]) -> bool
    ensures { IsTrue result ↔ IsPart name.now }
{
    match name {
        [] | b"." | b".." => false,
        _ => !name.contains(&b'/'),
    }
}
