//! The laws, each of which is a call that does nothing.

use mm_bson::{arrays_are_documents, order_is_total, spellings_are_unique};
use mm_keys::{key_order_by_fields, key_order_is_total};
use mm_notation::{texts_are_unique, written_is_text};
use mm_query::{contraries, empty_filter_matches_all, one_filter_is_itself};
use mm_update::{changes_keep_other_paths, changes_keep_the_id, set_puts_its_value};

#[test]
fn laws() {
    spellings_are_unique();
    arrays_are_documents();
    order_is_total();
    key_order_is_total();
    key_order_by_fields();
    texts_are_unique();
    written_is_text();
    empty_filter_matches_all();
    one_filter_is_itself();
    contraries();
    changes_keep_the_id();
    changes_keep_other_paths();
    set_puts_its_value();
}
