// The texts of a run.
ghost use Rattle.std.specs.Prelude.{◌≡◌, ◌++◌, IfOk, OnOk, string_bytes};
ghost use Rattle.std.specs.Fmt.{decimal};
ghost use Rattle.mm_main.specs.Answers.{reply_lines, reply_text};
ghost use Rattle.mm_main.specs.Contents.{doc_line, doc_lines};
ghost use Rattle.mm_main.specs.Texts.{usage_text, disk_fault_text, source_fault_text, no_memory_text, refusal_text, present_text, word_of, finding_text};

use crate::answers::Reply;
use crate::finding::{Finding, What};
use crate::script::line_of;
use mm_base::NoMemory;
use mm_bson::Doc;
use mm_model::Action;
use mm_notation::write_doc;
use mm_script::LineWhat;
use std::alloc::{AllocError, Global};
use std::fmt::Write;

/// What is said where the words give no command.
#[tactic(auto, unfolding(crate::specs::Texts::usage_text))]
pub fn usage() -> &'static str
    ensures { result.now ≡ usage_text }
{
    "usage: mmap play or run or recover or dump or check or gen FOLDER [--db LIST] [--nsmb N] [--jkb N] [--commit N] [--flush N] [--stamp N] [--seed N] [--count N]\n"
}

/// What is said of a fault of the disk.
pub fn disk_fault() -> &'static str
    ensures { result.now ≡ disk_fault_text }
{
    "disk fault\n"
}

/// What is said of a fault of the source.
pub fn source_fault() -> &'static str
    ensures { result.now ≡ source_fault_text }
{
    "source fault\n"
}

/// What is said where memory ran out.
pub fn no_memory() -> &'static str
    ensures { result.now ≡ no_memory_text }
{
    "no memory\n"
}

// Appends the line of a reply.
fn push_reply(out: &mut String, number: u32, reply: Reply) -> Result<(), AllocError>
    ensures { OnOk result (string_bytes out.new ≡ string_bytes out.old ++ (decimal number ++ reply_text reply)) }
{
    match reply {
        Reply::Done => write!(out, "{number} ok 1\n"),
        Reply::NoSpace => write!(out, "{number} NoSpace\n"),
    }
}

// Appends a line for each reply to an action.
fn push_replies(out: &mut String, actions: &[Action], replies: &[Reply]) -> Result<(), AllocError>
    ensures { OnOk result (string_bytes out.new ≡ string_bytes out.old ++ reply_lines actions.now replies.now) }
{
    let mut rest = replies;
    for action in actions {
        let [reply, others @ ..] = rest else {
            return Ok(());
        };
        push_reply(out, line_of(action), *reply)?;
        rest = others;
    }
    Ok(())
}

/// A line for each reply to an action, with the number of the action's line.
pub fn replies_text(
    alloc: Global,
    actions: &[Action],
    replies: &[Reply],
) -> Result<String, NoMemory>
    ensures { IfOk result (λ text. string_bytes text ≡ reply_lines actions.now replies.now) }
{
    let mut text = String::new(alloc);
    push_replies(&mut text, actions, replies)?;
    Ok(text)
}

/// What is said of a script of which this line is refused.
pub fn refusal(alloc: Global, line: u32, what: LineWhat) -> Result<String, NoMemory>
    ensures { IfOk result (λ text. string_bytes text ≡ refusal_text line what) }
{
    let word = what.text();
    Ok(format!(in alloc; "line {line}: {word}\n")?)
}

/// What is said of a file that is there.
pub fn presence(alloc: Global, name: &str) -> Result<String, NoMemory>
    ensures { IfOk result (λ text. string_bytes text ≡ present_text name.now) }
{
    Ok(format!(in alloc; "bad file {name} 0 present\n")?)
}

// The word of a part of the format.
fn word_of(what: What) -> &'static str
    ensures { result.now ≡ word_of what }
{
    match what {
        What::File => "file",
        What::Extent => "extent",
        What::Chain => "chain",
        What::Tiling => "tiling",
        What::Document => "document",
    }
}

/// What is said of what is first wrong in the data file.
pub fn finding(alloc: Global, found: &Finding) -> Result<String, NoMemory>
    ensures { IfOk result (λ text. string_bytes text ≡ finding_text found.now.at found.now.what) }
{
    let at = found.at;
    let word = word_of(found.what);
    Ok(format!(in alloc; "bad file test.0 {at} {word}\n")?)
}

// Appends the line of a document of the collection with this full name.
fn push_doc(out: &mut Vec<u8>, name: &[u8], doc: &Doc) -> Result<(), NoMemory>
    ensures { OnOk result (out.new.items ≡ out.old.items ++ doc_line name.now doc.now) }
{
    out.extend_from_slice(name)?;
    out.extend_from_slice(b" ")?;
    if write_doc(doc, out).is_err() {
        return Err(NoMemory);
    }
    out.extend_from_slice(b"\n")?;
    Ok(())
}

/// A line for each document of the collection with this full name.
pub fn docs_text(alloc: Global, name: &[u8], docs: &[Doc]) -> Result<Vec<u8>, NoMemory>
    ensures { IfOk result (λ text. text.items ≡ doc_lines name.now docs.now) }
{
    let mut out = Vec::new(alloc);
    for doc in docs {
        push_doc(&mut out, name, doc)?;
    }
    Ok(out)
}
