//! The orders in which pairs come and go.

use mm_base::NoMemory;
use std::alloc::Global;

/// An order of numbers.
#[derive(Clone, Copy)]
pub(crate) enum Order {
    Rising,
    Falling,
    Drawn,
}

// The numbers below another.
fn below(alloc: Global, count: u32) -> Result<Vec<u32>, NoMemory> {
    let mut out = Vec::new(alloc);
    for i in 0..count {
        out.push(i)?;
    }
    Ok(out)
}

// The numbers below another, falling.
fn falling(alloc: Global, count: u32) -> Result<Vec<u32>, NoMemory> {
    let mut out = Vec::new(alloc);
    for i in 0..count {
        out.push(count - 1 - i)?;
    }
    Ok(out)
}

// Exchanges two numbers, where both are there.
fn exchange(numbers: &mut [u32], a: usize, b: usize) {
    if a < numbers.len() && b < numbers.len() {
        numbers.swap(a, b);
    }
}

// Mixes numbers: each is exchanged with one that is drawn, always the same for a seed.
fn mix(numbers: &mut [u32], seed: u32) {
    let mut state = seed;
    for at in 0..numbers.len() {
        state = state.wrapping_mul(1_664_525).wrapping_add(1_013_904_223);
        let len = numbers.len();
        if len > 0 {
            exchange(numbers, at, (state >> 8) as usize % len);
        }
    }
}

// The numbers below another, drawn.
fn drawn(alloc: Global, count: u32, seed: u32) -> Result<Vec<u32>, NoMemory> {
    let mut out = below(alloc, count)?;
    mix(out.as_mut_slice(), seed);
    Ok(out)
}

/// The numbers below another in an order.
pub(crate) fn ordered(
    alloc: Global,
    order: Order,
    count: u32,
    seed: u32,
) -> Result<Vec<u32>, NoMemory> {
    match order {
        Order::Rising => below(alloc, count),
        Order::Falling => falling(alloc, count),
        Order::Drawn => drawn(alloc, count, seed),
    }
}
