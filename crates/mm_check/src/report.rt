//! The check of a database, and what it tells where it finds nothing.

ghost use Rattle.std.specs.Prelude.{◌≡◌, ◌+◌, ◌<◌, ◌&&◌, ◌^◌, ◌-◌, ℕ, true, false, min, length, IfOk};
ghost use Rattle.mm_links.specs.Links.{Place};
ghost use Rattle.mm_model.specs.declared.finding.What.{What};
ghost use Rattle.mm_nstable.specs.Nodes.{count_of, is_used};
ghost use Rattle.mm_records.specs.Constants.{is_collection};
ghost use Rattle.mm_records.specs.Shape.{Shape};
ghost use Rattle.mm_records.specs.Stands.{ns_in};
ghost use Rattle.mm_check.specs.ExtentChain.{nat_of};
ghost use Rattle.mm_check.specs.Findings.{files_from, nodes_in, name_of, details_at, IsClear};
ghost use Rattle.mm_check.specs.Reports.{no_file, collections_of, told_of, IsReport, IsEmptyReport};
ghost use Rattle.mm_check.specs.Standing.{HasNoDot, HasShape};
ghost use Rattle.mm_check.specs.TheCheck.{IsFinding, IfFound};

use crate::constants::is_collection;
use crate::files::{DATA_FILES, none_from};
use crate::nodes::{node_count, node_details, node_head};
use crate::numbers::count;
use crate::order::check_files;
use crate::owners::text_of;
use mm_base::Name;
use mm_model::{CheckFault, Report};
use mm_views::{NS_FILE, Views};
use std::alloc::Global;

// What is told of a database without files.
fn empty_report() -> Report
    ensures { IsEmptyReport result }
{
    Report {
        files: 0,
        collections: 0,
        documents: 0,
        indexes: 0,
        buckets: 0,
    }
}

// No file of the database is there.
fn has_no_file(views: &Views) -> bool
    ensures { result ≡ no_file views.now.private }
{
    views.len(NS_FILE).is_none() && none_from(views, 0)
}

// How many data files are there.
fn file_count(views: &Views) -> u32
    ensures { result ≡ length (files_from views.now.private 0 8) }
{
    let mut files = 0;
    for file in 0..DATA_FILES {
        if views.len(file).is_some() {
            files += 1;
        }
    }
    files
}

// A node is used, and is a collection's.
fn has_collection(views: &Views, node: u32) -> bool
    requires { node < count_of (ns_in views.now.private) }
    ensures { result ≡ (is_used (ns_in views.now.private) node && is_collection (name_of views.now.private node)) }
{
    let head = node_head(views, node);
    if head.hash == 0 {
        return false;
    }
    is_collection(text_of(&head.name))
}

// How many collections there are.
fn collection_count(views: &Views) -> u64
    ensures { result ≡ collections_of views.now.private (nodes_in views.now.private) }
{
    let mut collections = 0;
    for node in 0..node_count(views) {
        if has_collection(views, node) {
            collections += 1;
        }
    }
    collections
}

// How many records the details of a node tell; 0 for a negative number.
fn told(views: &Views, node: u32) -> u64
    requires { node < count_of (ns_in views.now.private) }
    ensures { result ≡ nat_of (details_at views.now.private node).nrecords }
{
    count(node_details(views, node).nrecords)
}

// How many records the details of the collections tell; no more than 2^64 - 1.
fn told_count(views: &Views) -> u64
    ensures { result ≡ min (told_of views.now.private (nodes_in views.now.private)) (2 ^ 64 - 1) }
{
    let mut documents: u64 = 0;
    for node in 0..node_count(views) {
        if has_collection(views, node) {
            documents = documents.saturating_add(told(views, node));
        }
    }
    documents
}

// What is told of files in which nothing is found.
fn report_of(name: &Name, views: &Views) -> Report
    requires { IsClear name.now views.now.private }
    ensures { IsReport name.now views.now.private result }
{
    Report {
        files: file_count(views),
        collections: collection_count(views),
        documents: told_count(views),
        indexes: 0,
        buckets: 0,
    }
}

/// Whether the private image of a database's files stands for a database, as far as the phases `file` to `counts` see: a report exactly
/// where they find nothing or no file is there, else the first finding, which is the only one that is first. The trees
/// aren't looked at, so a report tells of no indexes and no buckets. After `NoMemory` nothing is known.
pub fn check(alloc: Global, name: &Name, views: &Views) -> Result<Report, CheckFault>
    ensures empty { IfOk result (λ report. no_file views.now.private ≡ true → IsEmptyReport report) }
    ensures clear { IfOk result (λ report. no_file views.now.private ≡ false → IsReport name.now views.now.private report) }
    ensures none { IfOk result (λ report. no_file views.now.private ≡ false → (what : What) (at : Place) → IsFinding name.now views.now.private what at → ⊥) }
    ensures there { IfFound result (λ f. no_file views.now.private ≡ false) }
    ensures found { IfFound result (λ f. IsFinding name.now views.now.private f.what (f.file, f.at)) }
    ensures only { IfFound result (λ f. (what : What) (at : Place) → IsFinding name.now views.now.private what at → (what ≡ f.what) × (at ≡ (f.file, f.at))) }
    ensures unclear { IfFound result (λ f. IsClear name.now views.now.private → ⊥) }
    ensures stands { IfOk result (λ report. no_file views.now.private ≡ false → HasNoDot name.now → (s : Shape) × HasShape name.now views.now.private s) }
    ensures nowhere { IfFound result (λ f. (s : Shape) → HasShape name.now views.now.private s → ⊥) }
{
    if has_no_file(views) {
        return Ok(empty_report());
    }
    match check_files(alloc, name, views) {
        Err(fault) => Err(fault),
        Ok(()) => Ok(report_of(name, views)),
    }
}
