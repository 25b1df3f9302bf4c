// The words of the program.
ghost use Rattle.std.specs.Prelude.{◌↔◌, map, IsTrue, string_bytes};
ghost use Rattle.mm_main.specs.Words.{HasCommand};

/// Whether the words are this command's name and a folder.
pub fn is_command(words: &[String], name: &str) -> bool
    ensures { IsTrue result ↔ HasCommand name.now (map string_bytes words.now) }
{
    match words {
        [command, _folder] => command.as_str() == name,
        _ => false,
    }
}
