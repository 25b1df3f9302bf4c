//! Seats for what databases give, and the parts that it makes.

ghost use Rattle.std.specs.Prelude.{◌≡◌, ◌+◌, ◌<◌, ◌≤◌, ◌++◌, [], map, length, IfOk, vec_capacity};
ghost use Rattle.mm_items.specs.Given.{sealed_part, has_content, sealed_parts};
ghost use Rattle.mm_durable.specs.Intake.{empty_seat, with_given, given_of};

use crate::intake::Seat;
use mm_base::{Name, NoMemory};
use mm_ranges::{Bytes, Closed, Part};
use std::alloc::Global;

// A seat without an item.
fn take_seat(alloc: Global, name: &Name) -> Result<Seat, NoMemory>
    ensures { IfOk result (λ seat. seat ≡ empty_seat name.now) }
{
    let name = Bytes::new(Vec::from_slice(alloc, name.bytes())?);
    Ok(Seat { name, item: None })
}

/// A seat without an item for each of these databases.
pub fn take_seats(alloc: Global, names: &[Name]) -> Result<Vec<Seat>, NoMemory>
    ensures { IfOk result (λ seats. seats.items ≡ map empty_seat names.now) }
{
    let mut seats = Vec::new(alloc);
    for name in names {
        seats.push(take_seat(alloc, name)?)?;
    }
    Ok(seats)
}

// What an item holds, under its database's name.
fn part_of(name: Bytes, item: Closed) -> Part
    ensures { result ≡ sealed_part (name, item) }
{
    let Part { made, pieces, .. } = item.part;
    Part { name, made, pieces }
}

// Whether a file is made or a range is there.
fn is_filled(part: &Part) -> bool
    ensures { result ≡ has_content part.now }
{
    !part.made.as_slice().is_empty() || !part.pieces.as_slice().is_empty()
}

// Puts a seat's part behind the others, where it has content. It takes no memory.
fn put_part(parts: &mut Vec<Part>, seat: Seat)
    requires { length parts.old.items < vec_capacity parts.old }
    ensures parts { parts.new.items ≡ parts.old.items ++ sealed_parts (with_given seat.name seat.item []) }
    ensures room { vec_capacity parts.new ≡ vec_capacity parts.old }
{
    let Seat { name, item } = seat;
    if let Some(item) = item {
        let part = part_of(name, item);
        if is_filled(&part) {
            parts.push_reserved(part);
        }
    }
}

/// Puts the parts of these seats into a list without parts, in their order. One without content is left out. It takes no memory.
pub fn put_parts(parts: &mut Vec<Part>, mut seats: Vec<Seat>)
    requires none { parts.old.items ≡ [] }
    requires room { length seats.items ≤ vec_capacity parts.old }
    ensures { parts.new.items ≡ sealed_parts (given_of seats.items) }
{
    while let Some(seat) = seats.pop() {
        put_part(parts, seat);
    }
    parts.as_mut_slice().reverse();
}
