//! What is first wrong in a database's files (MongoDB 2.6, MMAPv1): the phases `file` to `counts` of the order of the check.
//!
//! - `specs/Findings.antt` says, phase by phase, that nothing is found, and what is found first: a list of questions, or of chains that
//!   are followed in their order. Each phase's rules stand in a file of their own (`FileQuestions`, `NodeQuestions`, `ExtentChain`,
//!   `RecordChain`, `ListChain`, `BlockQuestions`, `CountQuestions`).
//! - `proofs/` has the laws. Both ways, where nothing is found and what stands by `mm_records`: the files (`FileQuestionLaws`), the nodes
//!   (`NodeLaws`), the extents' chains (`ExtentsBack`), the live records (`RecordLaws`, `RecordsBack`, `PhaseBack`), the deleted lists
//!   (`ListLaws`, `ListsBack`), the blocks of an extent (`BlockLaws`, `BlocksBack`) and the constant fields of details (`CountLaws`). That
//!   extents tile each file is said from the check to what stands in `AreaLaws` and `Tiled`, and the other way in `StandsFiles`.
//! - The laws of all phases are joined in one (`clear_where_some_shape_stands`): no phase finds anything exactly where points 1 to 5 of what
//!   stands hold with some shape (`specs/Standing.antt`), and that shape is the one that the walks find; the database's name has no dot, which
//!   the way from what stands to the check doesn't ask. What the phases find meets the premises of their laws (`FoundExtents`, `FoundAreas`,
//!   `FoundRecords`, `FoundHeap`, `FoundLists`, `FoundStands`), and what stands is what they find (`StandsFiles`, `StandsChains`,
//!   `StandsBlocks`, `StandsClear`, `StandsShape`).
//! - `check` answers a report exactly where no phase finds anything or no file is there, else the first finding, and no other finding is the
//!   first. Where it reports files that are there, some shape stands, and where it has a finding, none does. `check_files` runs the phases
//!   in a row. Each phase is a call of its own: `wrong_file`, `wrong_node` within the crate, `file_extents`, `node_extents`, `first_lost`,
//!   `live_records`, `deleted_blocks`, `first_gap_of` and `wrong_counts`. Those that follow chains answer all places exactly where each
//!   chain is whole, else the one place that is first wrong.
//!
//! Each walk ends on any bytes. Want of memory has its own answer.
#![tactic(auto)]

mod chains;
mod constants;
mod counts;
mod extents;
mod files;
mod forms;
mod frames;
mod gaps;
mod hash;
mod laws;
mod lists;
mod lost;
mod nodes;
mod numbers;
mod order;
mod owners;
mod phases;
mod places;
mod records;
mod report;
mod table;

pub use counts::wrong_counts;
pub use files::wrong_file;
pub use gaps::first_gap_of;
pub use laws::clear_where_some_shape_stands;
pub use lost::first_lost;
pub use order::check_files;
pub use owners::Owned;
pub use phases::{deleted_blocks, file_extents, live_chains, live_records, node_extents};
pub use records::Records;
pub use report::check;
