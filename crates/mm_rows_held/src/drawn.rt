//! Drawn turns of a database and of its plain model.

ghost use Rattle.std.specs.Prelude.{◌≡◌};
ghost use Rattle.mm_rows_held.specs.Bench.{IsBench};

use crate::bench::{self, Bench};
use crate::plain::{self, Plain, mixed};
use crate::toy::FILES;
use mm_base::NoMemory;
use mm_model::{Entry, Reply};
use mm_ranges::{Closed, Piece};
use mm_tie::Origin;
use mm_views::Views;
use std::alloc::Global;
use std::test::Fail;

/// How many turns are drawn.
const TURNS: u32 = 200;

/// The next number of a linear congruence.
fn drawn(last: u64) -> u64 {
    last.wrapping_mul(6_364_136_223_846_793_005)
        .wrapping_add(1_442_695_040_888_963_407)
}

// Digits that are drawn, and a byte. The file is there three times of four.
fn name_of(bits: u64) -> [u8; 4] {
    [
        0x30 | ((bits >> 4) % 4) as u8,
        0x30 | ((bits >> 6) % 8) as u8,
        0x30 | ((bits >> 9) % 2) as u8,
        0x30 | ((bits >> 10) % 64) as u8,
    ]
}

fn turn_plain(plain: &mut Plain, bits: u64) -> u64 {
    match bits % 8 {
        0 => plain::close(plain),
        1 => {
            plain::apply(plain, (bits >> 3) % 32);
            0
        }
        _ => plain::step(plain, 1 + (bits >> 3) % 2, name_of(bits)),
    }
}

// The bytes of a piece and their places, as the model counts them.
fn piece_sum(sum: u64, piece: &Piece) -> u64 {
    let mut sum = sum;
    let mut place = (8 * u64::from(piece.file % 5)).wrapping_add(u64::from(piece.at));
    for byte in piece.bytes.as_slice() {
        sum = mixed(mixed(sum, place), u64::from(*byte));
        place = place.wrapping_add(1);
    }
    sum
}

fn item_sum(item: &Closed) -> u64 {
    let mut sum = 0;
    for piece in item.part.pieces.as_slice() {
        sum = piece_sum(sum, piece);
    }
    mixed(mixed(sum, item.section), item.entries)
}

fn turn_held(bench: &mut Bench, bits: u64) -> u64
    requires { IsBench bench.old }
    ensures { IsBench bench.new }
{
    match bits % 8 {
        0 => match bench::close(bench) {
            Some(item) => item_sum(&item),
            None => 0,
        },
        1 => {
            bench::settle(bench, (bits >> 3) % 32);
            0
        }
        _ => {
            let told = bench::step(bench, (bits >> 3) % 2 == 1, &name_of(bits));
            mixed(told.0, told.1)
        }
    }
}

fn private(views: &Views, file: u32, at: u32) -> u64 {
    match views.len(file) {
        Some(len) if at < len => u64::from(views.piece(file, at)[0]),
        _ => 256,
    }
}

fn shared(views: &Views, file: u32, at: u32) -> u64 {
    match views.shared_len(file) {
        Some(len) if at < len => u64::from(views.shared_piece(file, at)[0]),
        _ => 256,
    }
}

// Both images, after a sum.
fn images_sum(sum: u64, views: &Views) -> u64 {
    let mut sum = sum;
    for place in 0..24u32 {
        let file = FILES[(place / 8 % 4) as usize];
        let at = place % 8;
        sum = mixed(
            mixed(sum, private(views, file, at)),
            shared(views, file, at),
        );
    }
    sum
}

fn look(bench: &Bench) -> u64 {
    let held = &bench.held;
    let sum = mixed(held.applied(), held.closed().wrapping_add(1));
    images_sum(mixed(sum, held.waiting()), held.views())
}

// How many turns come to the same, up to the first that doesn't.
fn play(bench: &mut Bench, plain: &mut Plain, seed: u64) -> u32
    requires { IsBench bench.old }
{
    let mut draw = seed;
    for turn in 0..TURNS {
        draw = drawn(draw);
        let told = turn_held(bench, draw >> 32);
        if told != turn_plain(plain, draw >> 32) || look(bench) != plain::look(plain) {
            return turn;
        }
    }
    TURNS
}

fn log_sum(log: &[Entry]) -> u64 {
    let mut sum = 0;
    for entry in log {
        let is_ok = matches!(entry.reply, Reply::Done(_));
        sum = mixed(mixed(sum, u64::from(entry.session)), u64::from(entry.line));
        sum = mixed(sum, u64::from(is_ok));
    }
    sum
}

fn groups_sum(groups: &[u64]) -> u64 {
    let mut sum = 0;
    for entries in groups {
        sum = mixed(sum, *entries);
    }
    sum
}

// Whether the log and the groups are the model's in the end.
fn ends_alike(bench: Bench, plain: &Plain) -> (bool, bool) {
    let log = log_sum(bench.held.log());
    let groups = groups_sum(&bench.held.into_end().groups);
    (log == plain.log, groups == plain.groups)
}

fn compared(alloc: Global, seed: u64) -> Result<(u32, (bool, bool)), NoMemory> {
    let mut bench = bench::loaded(alloc, 8, 8)?;
    let mut plain = plain::begin();
    let turns = play(&mut bench, &mut plain, seed);
    Ok((turns, ends_alike(bench, &plain)))
}

/// Logs, marks' sections, items and both images are those of the model, at each turn of three databases.
#[test]
fn drawn_turns_are_those_of_the_model(rt: HostRuntime) -> Result<(), Fail> {
    for seed in 0..3 {
        assert_eq!(rt; compared(rt.alloc(), seed)?, (TURNS, (true, true)));
    }
    Ok(())
}
