//! The root of an index, which a pair of its collection's details names.

ghost use Rattle.std.specs.Prelude.{◌≡◌, ◌<◌, true, length, OnOk};
ghost use Rattle.mm_extents.specs.Changes.{DeclaresAtMost};
ghost use Rattle.mm_nstable.specs.Nodes.{is_used, IsTable};
ghost use Rattle.mm_records.specs.Stands.{ns_in};
ghost use Rattle.mm_trees.specs.Roots.{root_in, with_root, IsRootPut};

use mm_base::{DiskLoc, NoMemory};
use mm_frames::Details;
use mm_nstable::{details, put_details};
use mm_views::Draft;

/// The root that the pair at a position of a node's details names.
pub fn root_of(draft: &Draft, owner: u32, position: u32) -> DiskLoc
    requires used { is_used (ns_in draft.now.image) owner ≡ true }
    requires inside { position < 10 }
    ensures { result ≡ root_in draft.now.image owner position }
{
    details(draft, owner).indexes[position as usize].head
}

/// Details in which a pair names another root.
fn named(mut counts: Details, position: u32, root: DiskLoc) -> Details
    requires { position < length counts.indexes }
    ensures { result ≡ with_root counts position root }
{
    counts.indexes[position as usize].head = root;
    counts
}

/// Names another root in the pair at a position of a node's details, which are declared.
pub fn put_root(draft: &mut Draft, owner: u32, position: u32, root: DiskLoc) -> Result<(), NoMemory>
    requires table { IsTable (ns_in draft.old.image) }
    requires used { is_used (ns_in draft.old.image) owner ≡ true }
    requires inside { position < 10 }
    ensures put { OnOk result (IsRootPut draft.old.image draft.new.image owner position root) }
    ensures weight { DeclaresAtMost 508 draft.old draft.new }
{
    let counts = named(details(draft, owner), position, root);
    put_details(draft, owner, &counts)?;
    Ok(())
}
