//! A probe that counts.

ghost use Rattle.std.specs.Prelude.{◌≡◌, ◌++◌, ◌∷◌, [], OnOk, OnErr, IfOk, string_bytes, IsTrue, min, ◌+◌, ◌-◌, ◌^◌};
ghost use Rattle.mm_model.specs.Laws.{is_ok};
ghost use Rattle.mm_probe.specs.Counts.{one_more, counted, report_of};

use crate::probe::Probe;
use mm_base::NoMemory;
use mm_model::{Entry, Reply};
use std::alloc::Global;
use std::marker::Model;

/// Counts the entries that it is told, those that were carried out and those that were refused, and reports `entries E ok A refused B`.
/// Each count stands still at 2^64 - 1. It is seen as the list of its three counts.
#[derive(Drop)]
pub struct Counter {
    entries: u64,
    ok: u64,
    refused: u64,
}

impl Model for Counter {
    ghost use Rattle.std.specs.Prelude.{ℕ, List, [], ◌∷◌};

    ghost Value = { List ℕ };

    ghost view = { λ c. c.entries ∷ c.ok ∷ c.refused ∷ [] };
}

fn is_ok(reply: &Reply) -> bool
    ensures { result ≡ is_ok reply.now }
{
    matches!(reply, Reply::Done(_) | Reply::Found(_))
}

fn one_more(count: &mut u64)
    ensures { count.new ≡ one_more count.old }
{
    *count = count.saturating_add(1);
}

fn report(alloc: Global, entries: u64, ok: u64, refused: u64) -> Result<String, NoMemory>
    ensures { IfOk result (λ text. string_bytes text ≡ report_of (entries ∷ ok ∷ refused ∷ [])) }
{
    Ok(format!(in alloc; "entries {entries} ok {ok} refused {refused}")?)
}

impl Counter {
    /// A counter that has been told nothing. It takes no memory.
    pub fn new() -> Counter
        ensures { result ≡ 0 ∷ 0 ∷ 0 ∷ [] }
    {
        Counter {
            entries: 0,
            ok: 0,
            refused: 0,
        }
    }
}

impl Probe for Counter {
    ghost state = { λ c. c };

    ghost start = { λ c. 0 ∷ 0 ∷ 0 ∷ [] };

    ghost next = { λ c. counted };

    ghost shown = { λ c. report_of };

    fn note(&mut self, entry: &Entry) {
        one_more(&mut self.entries);
        if is_ok(&entry.reply) {
            one_more(&mut self.ok);
        } else {
            one_more(&mut self.refused);
        }
    }

    fn report(&self, out: &mut Vec<u8>) -> Result<(), NoMemory> {
        let text = report(*out.allocator(), self.entries, self.ok, self.refused)?;
        out.extend_from_slice(text.as_bytes())?;
        Ok(())
    }
}
