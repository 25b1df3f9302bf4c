//! A namespace less.

ghost use Rattle.std.specs.Prelude.{◌≡◌, ◌≢◌, ◌+◌, ◌*◌, ℕ, List, None, length, OnOk};
ghost use Rattle.std.specs.FinMap.{get};
ghost use Rattle.mm_nstable.specs.Table.{table_of};
ghost use Rattle.mm_extents.specs.Changes.{DeclaresAtMost};
ghost use Rattle.mm_extents.specs.Room.{room};
ghost use Rattle.mm_records.specs.Shape.{Shape};
ghost use Rattle.mm_records.specs.Stands.{Stands, IsNode, ns_in};
ghost use Rattle.mm_records.specs.Map.{name_at};
ghost use Rattle.mm_namespaces.specs.Dropped.{IsDropped};

use mm_base::{Name, NoMemory};
use mm_extents::free_extents;
use mm_nstable::{details, free_ends, put_free_ends, remove};
use mm_views::Draft;

/// Drops the namespace of a node: its extents become the last of the free chain, in their order, and its node is free. `free` is the name of
/// the free chain. Its records are gone; those of all other namespaces stay, and so does the room of the files. Each of its extents declares
/// at most 376 bytes. After an error the draft is to be dropped.
pub fn drop_namespace(draft: &mut Draft, free: &Name, node: u32) -> Result<(), NoMemory>
    requires { (s : Shape) × (Stands draft.old.image free.now s × IsNode draft.old.image free.now node) }
    ensures stands { OnOk result ((s : Shape) → Stands draft.old.image free.now s → IsNode draft.old.image free.now node
        → (t : Shape) × (Stands draft.new.image free.now t × IsDropped s t free.now (name_at draft.old.image node))) }
    ensures gone { OnOk result (get (table_of (ns_in draft.new.image)) (name_at draft.old.image node) ≡ None) }
    ensures others { OnOk result ((m : List ℕ) → m ≢ name_at draft.old.image node → m ≢ free.now → get (table_of (ns_in draft.new.image)) m ≡ get (table_of (ns_in draft.old.image)) m) }
    ensures room { OnOk result (room draft.new.image ≡ room draft.old.image) }
    ensures weight { (s : Shape) → Stands draft.old.image free.now s → IsNode draft.old.image free.now node → DeclaresAtMost (376 * length (s.extents (name_at draft.old.image node)) + 1148) draft.old draft.new }
{
    let mut ends = free_ends(draft);
    let first = details(draft, node).first_extent;
    free_extents(draft, free, first, &mut ends)?;
    put_free_ends(draft, &ends)?;
    remove(draft, node)
}
