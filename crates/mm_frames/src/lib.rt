//! The frames of MMAPv1's data files (MongoDB 2.6): the headers of a file, an extent, a record and a deleted block, the header and the
//! key nodes of a bucket, and the head, the details and the index pairs of a node of the `.ns` file. And those of its journal: the header
//! of a file, the header, the entries and the footer of a section, and the lsn file.
//!
//! For each frame there are a struct, `read_x(bytes, at)` and `put_x(bytes, at, &x)`. None of them takes memory, and all ask that the
//! frame lies inside `bytes`. What is promised of each:
//!
//! - a reader's answer is a function of the frame's own bytes (`x_of`); a place with file -1 is null, whatever its offset;
//! - a writer fixes each byte of the frame (`x_bytes`): reserved bytes are zero, a null place has offset 0;
//! - what was written is read, and no byte outside the frame changes (`Puts`).
//!
//! `x_frame(&x)` is the frame alone, as an array.
//!
//! `specs/` has one table for each frame, with its offsets as the format gives them. Some fields have writers of their own (`PutsField`).
//! No reader looks at reserved bytes, nor says whether a value is right: `is_file_header` tests the zeros of a file's header, `is_footer`
//! those of a footer, and whether numbers and links make sense is for the crates above. `read_journal_header` says exactly which header
//! stands at the front of a file, and `read_lsn` reads a number exactly where the bytes are its spelling.
#![tactic(auto)]

mod bucket_header;
mod deleted_header;
mod details;
mod entry_head;
mod extent_header;
mod file_header;
mod footer;
mod free_ends;
mod index_pair;
mod journal_header;
mod key_node;
mod lsn;
mod node_head;
mod rec_header;
mod section_header;

pub use bucket_header::BUCKET_FLAGS;
pub use bucket_header::BUCKET_HEADER_LEN;
pub use bucket_header::BucketHeader;
pub use bucket_header::PARENT_AT;
pub use bucket_header::bucket_header_frame;
pub use bucket_header::put_bucket_header;
pub use bucket_header::put_parent;
pub use bucket_header::read_bucket_header;
pub use deleted_header::DELETED_HEADER_LEN;
pub use deleted_header::DeletedHeader;
pub use deleted_header::NEXT_DELETED_AT;
pub use deleted_header::deleted_header_frame;
pub use deleted_header::put_deleted_header;
pub use deleted_header::put_next_deleted;
pub use deleted_header::read_deleted_header;
pub use details::COLLECTION_FLAGS;
pub use details::DATASIZE_AT;
pub use details::DELETED_AT;
pub use details::DELETED_LISTS;
pub use details::DETAILS_LEN;
pub use details::Details;
pub use details::INDEX_PAIRS;
pub use details::MAX_DOCS_UNCAPPED;
pub use details::NODE_LEN;
pub use details::PADDING;
pub use details::details_frame;
pub use details::put_counts;
pub use details::put_details;
pub use details::put_list_head;
pub use details::read_details;
pub use entry_head::ENTRY_HEAD_LEN;
pub use entry_head::EntryHead;
pub use entry_head::MADE_ENTRY_LEN;
pub use entry_head::MADE_WORD;
pub use entry_head::MAX_RANGE_LEN;
pub use entry_head::MadeEntry;
pub use entry_head::NAME_WORD;
pub use entry_head::entry_head_frame;
pub use entry_head::made_entry_frame;
pub use entry_head::put_entry_head;
pub use entry_head::put_made_entry;
pub use entry_head::read_entry_head;
pub use entry_head::read_made_entry;
pub use extent_header::EXTENT_HEADER_LEN;
pub use extent_header::EXTENT_MAGIC;
pub use extent_header::ExtentHeader;
pub use extent_header::FIRST_RECORD_AT;
pub use extent_header::LAST_RECORD_AT;
pub use extent_header::XNEXT_AT;
pub use extent_header::XPREV_AT;
pub use extent_header::extent_header_frame;
pub use extent_header::put_extent_header;
pub use extent_header::put_first_record;
pub use extent_header::put_last_record;
pub use extent_header::put_xnext;
pub use extent_header::put_xprev;
pub use extent_header::read_extent_header;
pub use file_header::DATA_FILE_VERSION;
pub use file_header::DATA_FILE_VERSION_MINOR;
pub use file_header::FILE_HEADER_LEN;
pub use file_header::FileHeader;
pub use file_header::file_header_frame;
pub use file_header::is_file_header;
pub use file_header::put_file_header;
pub use file_header::read_file_header;
pub use footer::FOOTER_LEN;
pub use footer::FOOTER_WORD;
pub use footer::Footer;
pub use footer::HASH_LEN;
pub use footer::footer_frame;
pub use footer::is_footer;
pub use footer::put_footer;
pub use footer::read_footer;
pub use free_ends::FreeEnds;
pub use index_pair::INDEX_PAIR_LEN;
pub use index_pair::IndexPair;
pub use index_pair::put_index_pair;
pub use index_pair::read_index_pair;
pub use journal_header::HeaderKind;
pub use journal_header::JOURNAL_HEADER_LEN;
pub use journal_header::JOURNAL_VERSION;
pub use journal_header::journal_header_frame;
pub use journal_header::put_journal_header;
pub use journal_header::read_journal_header;
pub use key_node::KEY_NODE_LEN;
pub use key_node::KeyNode;
pub use key_node::key_node_frame;
pub use key_node::put_key_node;
pub use key_node::read_key_node;
pub use lsn::LSN_LEN;
pub use lsn::put_lsn;
pub use lsn::read_lsn;
pub use node_head::NODE_HEAD_LEN;
pub use node_head::NodeHead;
pub use node_head::node_head_frame;
pub use node_head::put_node_head;
pub use node_head::read_node_head;
pub use rec_header::CHAIN_END;
pub use rec_header::NEXT_OFS_AT;
pub use rec_header::PREV_OFS_AT;
pub use rec_header::REC_HEADER_LEN;
pub use rec_header::RecHeader;
pub use rec_header::put_next_ofs;
pub use rec_header::put_prev_ofs;
pub use rec_header::put_rec_header;
pub use rec_header::read_rec_header;
pub use rec_header::rec_header_frame;
pub use section_header::SECTION_ALIGNMENT;
pub use section_header::SECTION_HEADER_LEN;
pub use section_header::SectionHeader;
pub use section_header::put_section_header;
pub use section_header::read_section_header;
pub use section_header::section_header_frame;
