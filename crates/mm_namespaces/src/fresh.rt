//! A namespace without extents: its details, and its node.

ghost use Rattle.std.specs.Prelude.{◌≡◌, ◌≢◌, ◌↔◌, ◌<◌, ℕ, List, true, None, IfOk, OnOk, OnErr, IsErrOf, count_by};
ghost use Rattle.std.specs.FinMap.{get, insert};
ghost use Rattle.mm_ranges.specs.Overlay.{bytes_at};
ghost use Rattle.mm_nstable.specs.Nodes.{IsTable, nodes_of, node_at, count_of, is_free, is_used};
ghost use Rattle.mm_nstable.specs.Table.{table_of};
ghost use Rattle.mm_extents.specs.Changes.{len_of, DeclaresAtMost};
ghost use Rattle.mm_records.specs.Constants.{is_collection};
ghost use Rattle.mm_records.specs.Stands.{ns_in};
ghost use Rattle.mm_namespaces.specs.Fresh.{IsFresh};

use mm_base::Name;
use mm_extents::no_place;
use mm_frames::{COLLECTION_FLAGS, Details, IndexPair, MAX_DOCS_UNCAPPED, PADDING};
use mm_nstable::{NsFault, insert};
use mm_views::Draft;

// The details of a namespace without extents, records and indexes.
pub(crate) fn fresh_details(collection: bool) -> Details
    ensures { (name : List ℕ) → is_collection name ≡ collection → IsFresh name result }
{
    let null = no_place();
    let none = IndexPair {
        head: null,
        info: null,
    };
    let flags = if collection { COLLECTION_FLAGS } else { 0 };
    Details {
        first_extent: null,
        last_extent: null,
        deleted: [null; 19],
        datasize: 0,
        nrecords: 0,
        last_extent_size: 0,
        n_indexes: 0,
        indexes: [none; 10],
        is_capped: 0,
        max_docs_in_capped: MAX_DOCS_UNCAPPED,
        padding: PADDING,
        system_flags: flags,
        cap_extent: null,
        cap_first_new_record: null,
        data_file_version: 0,
        index_file_version: 0,
        multikey: 0,
        extra_offset: 0,
        index_builds: 0,
        user_flags: flags,
    }
}

// Puts a namespace without extents under a name that isn't there. No data file changes.
pub(crate) fn put_fresh(draft: &mut Draft, name: &Name, collection: bool) -> Result<u32, NsFault>
    requires table { IsTable (ns_in draft.old.image) }
    requires absent { get (table_of (ns_in draft.old.image)) name.now ≡ None }
    requires kind { is_collection name.now ≡ collection }
    ensures put { IfOk result (λ node. (details : Details) × (IsFresh name.now details
        × (table_of (ns_in draft.new.image) ≡ insert (table_of (ns_in draft.old.image)) name.now (record { node = node; details = details })))) }
    ensures used { IfOk result (λ node. is_used (ns_in draft.new.image) node ≡ true) }
    ensures kept { IsTable (ns_in draft.new.image) }
    ensures others { IfOk result (λ node. (k : ℕ) → k < count_of (ns_in draft.old.image) → k ≢ node → node_at (ns_in draft.new.image) k ≡ node_at (ns_in draft.old.image) k) }
    ensures lengths { OnOk result ((file : ℕ) → len_of draft.new.image file ≡ len_of draft.old.image file) }
    ensures files { OnOk result ((file : ℕ) → file < 8 → bytes_at draft.new.image file ≡ bytes_at draft.old.image file) }
    ensures full { IsErrOf result NsFault.NsFull ↔ (count_by is_free (nodes_of (ns_in draft.old.image)) ≡ 0) }
    ensures weight { DeclaresAtMost 640 draft.old draft.new }
    ensures err { OnErr result (draft.new ≡ draft.old) }
{
    let _bytes = name.bytes();
    let details = fresh_details(collection);
    insert(draft, name, &details)
}
