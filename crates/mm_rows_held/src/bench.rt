//! A database under test, with its two sessions and its feed.

ghost use Rattle.std.specs.Prelude.{◌≡◌, ◌+◌, ◌<◌, ◌≤◌, ◌∷◌, [], IfOk, OnOk};
ghost use Rattle.mm_rows_held.specs.Bench.{IsSat, Stays, IsBench};

use crate::toy::Toy;
use mm_base::{DbNo, Name, NoMemory};
use mm_held::{Done, Held, Pass, Refused};
use mm_model::{Command, Reply};
use mm_probe::Counter;
use mm_ranges::{Closed, NS_FILE};
use mm_tie::{Feed, Origin};
use mm_views::Views;
use std::alloc::Global;

/// How many entries a session may have, and how many groups may be closed.
pub const ROOM: u32 = 1000;

/// The section of the first group.
pub const NEXT: u64 = 7;

// What a step came to, the first of two numbers. The second is the section, or the weight.
pub const DONE: u64 = 1;

pub const LACKS: u64 = 2;

pub const TOO_LARGE: u64 = 3;

pub const FULL: u64 = 4;

const NOT_TAKEN: u64 = 5;

/// A held database, and how many lines and items it had.
#[derive(Drop)]
pub struct Bench {
    pub held: Held<Toy, Counter>,
    pub first: Pass,
    pub second: Pass,
    pub feed: Feed,
    pub line: u32,
    pub items: u32,
}

fn replied(reply: &Reply, section: u64) -> (u64, u64) {
    match reply {
        Reply::Done(_) => (DONE, section),
        Reply::OpTooLarge { weight } => (TOO_LARGE, *weight),
        _ => (LACKS, section),
    }
}

fn outcome(done: &Result<Done, Refused>) -> (u64, u64) {
    match done {
        Ok(done) => replied(&done.reply, done.section),
        Err(Refused::GroupFull { weight }) => (FULL, *weight),
        Err(Refused::NoMemory) => (NOT_TAKEN, 0),
    }
}

fn step_in(
    held: &mut Held<Toy, Counter>,
    pass: &mut Pass,
    line: u32,
    command: &Command,
) -> (u64, u64)
    requires pass { IsSat held.old line pass.old }
    requires line { line < 1000 }
    ensures pass { IsSat held.new (line + 1) pass.new }
    ensures stays { Stays held.old held.new }
{
    let done = held.step(pass, line, command);
    outcome(&done)
}

fn command(name: &[u8]) -> Option<Command> {
    let coll = Name::new(name)?;
    Some(Command::Create { coll })
}

// A step of one of the two sessions.
fn step_of(bench: &mut Bench, second: bool, command: &Command) -> (u64, u64)
    requires { IsBench bench.old }
    ensures { IsBench bench.new }
{
    let line = bench.line;
    if line >= ROOM {
        return (NOT_TAKEN, 0);
    }
    bench.line += 1;
    if second {
        step_in(&mut bench.held, &mut bench.second, line, command)
    } else {
        step_in(&mut bench.held, &mut bench.first, line, command)
    }
}

/// A step of one of the two sessions, which asks by a collection's name.
pub fn step(bench: &mut Bench, second: bool, name: &[u8]) -> (u64, u64)
    requires { IsBench bench.old }
    ensures { IsBench bench.new }
{
    match command(name) {
        Some(command) => step_of(bench, second, &command),
        None => (NOT_TAKEN, 0),
    }
}

/// Closes what is opened; None where memory is wanting.
pub fn close(bench: &mut Bench) -> Option<Closed>
    requires { IsBench bench.old }
    ensures { IsBench bench.new }
{
    if bench.items > ROOM {
        return None;
    }
    match bench.held.ready() {
        Ok(()) => {
            bench.items += 1;
            Some(bench.held.close(&mut bench.feed))
        }
        Err(_) => None,
    }
}

/// Applies the closed parts of sections up to a number, gives memory back, and agrees with the feed and the sessions.
pub fn settle(bench: &mut Bench, upto: u64)
    requires { IsBench bench.old }
    ensures { IsBench bench.new }
{
    bench.held.apply(upto);
    bench.held.remap();
    bench.held.agree(&mut bench.feed);
    bench.held.agree_pass(&mut bench.first);
    bench.held.agree_pass(&mut bench.second);
}

// A database that begins with these views.
fn begin(views: Views, rooms: Vec<u32>) -> Result<Bench, NoMemory>
    requires rooms { rooms.items ≡ 1000 ∷ 1000 ∷ [] }
    requires made { views.made ≡ [] }
    requires opened { views.opened ≡ [] }
    requires closed { views.closed ≡ [] }
    ensures { IfOk result (λ bench. IsBench bench) }
{
    let (held, mut passes, feed) = Held::start(
        Toy,
        views,
        DbNo(0),
        NEXT,
        rooms,
        ROOM,
        Some(Counter::new()),
    )?;
    let second = passes.remove(1);
    let first = passes.remove(0);
    Ok(Bench {
        held,
        first,
        second,
        feed,
        line: 1,
        items: 1,
    })
}

// Loads two files of this length, and `.ns`.
fn load(views: &mut Views, len: u32, ns_len: u32) -> Result<(), NoMemory>
    requires len { len ≤ 67108864 }
    requires ns_len { ns_len ≤ 16777216 }
    requires made { views.old.made ≡ [] }
    requires opened { views.old.opened ≡ [] }
    requires closed { views.old.closed ≡ [] }
    ensures made { OnOk result (views.new.made ≡ []) }
    ensures opened { OnOk result (views.new.opened ≡ []) }
    ensures closed { OnOk result (views.new.closed ≡ []) }
{
    views.load(0, len)?;
    views.load(1, len)?;
    views.load(NS_FILE, ns_len)?;
    Ok(())
}

/// A database with two files of this length, and `.ns`.
pub fn loaded(alloc: Global, len: u32, ns_len: u32) -> Result<Bench, NoMemory>
    requires len { len ≤ 67108864 }
    requires ns_len { ns_len ≤ 16777216 }
    ensures { IfOk result (λ bench. IsBench bench) }
{
    let rooms = vec![in alloc; ROOM; 2]?;
    let mut views = Views::new(alloc);
    load(&mut views, len, ns_len)?;
    begin(views, rooms)
}

/// A database without files, which its engine sets up.
pub fn fresh(alloc: Global) -> Result<Bench, NoMemory>
    ensures { IfOk result (λ bench. IsBench bench) }
{
    let rooms = vec![in alloc; ROOM; 2]?;
    begin(Views::new(alloc), rooms)
}
