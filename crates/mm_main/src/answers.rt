// How long blocks are, and what is answered.
ghost use Rattle.std.specs.Prelude.{◌≡◌, ◌+◌, ◌-◌, ◌^◌, ◌<◌, ◌≤◌};
ghost use Rattle.mm_main.specs.Room.{file_len, request, block_len, doubled_to};

/// The length of the data file, in bytes.
pub const FILE_LEN: usize = 1_048_576;

/// Where the one extent begins.
pub const EXTENT_AT: usize = 8192;

/// Where the first record lies.
pub const FIRST_AT: usize = 8368;

const LEAST_BLOCK: usize = 32;

const GREATEST_POWER: usize = 4_194_304;

const BIG_STEP: usize = 1_048_576;

const RECORD_HEADER: usize = 16;

/// The answer to one insert.
#[derive(Clone, Copy)]
pub enum Reply {
    /// It is stored.
    Done,
    /// Fewer bytes are left than its block asks for.
    NoSpace,
}

// The least block of a power of two that has so many bytes.
fn power_for(len: usize) -> usize
    requires { len ≤ GREATEST_POWER }
    ensures value { result ≡ doubled_to 17 32 len }
    ensures enough { len ≤ result }
    ensures least { 32 ≤ result }
    ensures most { result ≤ GREATEST_POWER }
{
    let mut block = LEAST_BLOCK;
    'doubles: while block < len {
        block *= 2;
    }
    block
}

/// The length of the block that a payload asks for.
#[tactic(auto, unfolding(crate::specs::Room::request))]
pub fn request(payload: usize) -> usize
    requires { payload < 2 ^ 63 }
    ensures value { result ≡ request payload }
    ensures enough { payload + 16 ≤ result }
    ensures least { 32 ≤ result }
    ensures most { result < 2 ^ 64 }
{
    let len = payload + RECORD_HEADER;
    if len <= GREATEST_POWER {
        return power_for(len);
    }
    (len + BIG_STEP - 1) / BIG_STEP * BIG_STEP
}

/// The length of the block that a record of this payload takes at an offset, if it has room there.
#[tactic(auto, unfolding(crate::specs::Room::block_len))]
pub fn block_len(at: usize, payload: usize) -> usize
    requires payload { payload < 2 ^ 63 }
    requires room { request payload ≤ file_len - at }
    ensures value { result ≡ block_len at payload }
    ensures enough { payload + 16 ≤ result }
    ensures inside { at + result ≤ file_len }
    ensures no_crumb { at + result < file_len → at + result + 32 ≤ file_len }
{
    let len = request(payload);
    let rest = FILE_LEN - at - len;
    if rest < LEAST_BLOCK {
        return FILE_LEN - at;
    }
    len
}
