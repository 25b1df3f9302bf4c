// Which files a database has, and how long they may be.
ghost use Rattle.std.specs.Prelude.{◌≡◌};
ghost use Rattle.mm_ranges.specs.Limits.{is_file, most_of};

/// The number of the name file `.ns` among a database's files. The data files are 0 to 7.
pub const NS_FILE: u32 = 0x7fff_ffff;

/// How many bytes the name file may have.
pub const MAX_NS_LEN: u32 = 16_777_216;

/// How many bytes a data file may have.
pub const MAX_FILE_LEN: u32 = 67_108_864;

/// The length of a file is a multiple of this.
pub const PAGE_LEN: u32 = 4096;

/// Whether a database may have a file of this number.
pub fn is_file(file: u32) -> bool
    ensures { result ≡ is_file file }
{
    file < 8 || file == NS_FILE
}

/// How many bytes a file of this number may have.
pub fn max_len(file: u32) -> u32
    ensures { result ≡ most_of file }
{
    if file == NS_FILE {
        MAX_NS_LEN
    } else {
        MAX_FILE_LEN
    }
}
