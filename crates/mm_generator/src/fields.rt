//! The documents of generated lines.

ghost use Rattle.std.specs.Prelude.{◌≡◌, ◌<◌, ◌^◌, IfOk, OnOk, codes, ◌++◌, decimal};
ghost use Rattle.mm_bson.specs.Tree.{no_elements, element, append, tree_depth};
ghost use Rattle.mm_bson.specs.View.{tree};
ghost use Rattle.mm_bson.specs.Spelling.{HasNoZero};
ghost use Rattle.mm_generator.specs.Generator.{number as number_field, by_k, bulk_document, one_more};

use mm_base::NoMemory;
use mm_bson::{Doc, Text, Value};
use std::alloc::Global;

/// Puts a field behind the others. A document whose length doesn't fit its
/// i32 finds no memory.
fn put(doc: &mut Doc, name: Text, value: Value) -> Result<(), NoMemory>
    requires name { HasNoZero name }
    requires levels { tree_depth (tree value) < 100 }
    ensures { OnOk result (doc.new ≡ append doc.old (element name (tree value) no_elements)) }
{
    if !doc.fits(name.as_bytes(), &value) {
        return Err(NoMemory);
    }
    Ok(doc.push(name, value)?)
}

/// Puts a number behind the others. One that doesn't fit its i32 finds no
/// memory.
fn put_number(alloc: Global, doc: &mut Doc, name: &str, number: u32) -> Result<(), NoMemory>
    requires { HasNoZero name.now }
    ensures { OnOk result (doc.new ≡ append doc.old (number_field name.now number no_elements)) }
{
    match i32::try_from(number) {
        Ok(number) => put(doc, Text::from_str(alloc, name)?, Value::Int32(number)),
        Err(_) => Err(NoMemory),
    }
}

/// `{"k": K}`.
pub(crate) fn by_key(alloc: Global, key: u32) -> Result<Doc, NoMemory>
    ensures { IfOk result (λ d. d ≡ by_k key) }
{
    let mut doc = Doc::new(alloc)?;
    put_number(alloc, &mut doc, "k", key)?;
    Ok(doc)
}

/// The text `vS`.
fn text_of(alloc: Global, number: u32) -> Result<Text, NoMemory>
    ensures { IfOk result (λ t. t ≡ codes "v" ++ decimal number) }
{
    let text = format!(in alloc; "v{number}")?;
    Ok(Text::from_str(alloc, &text)?)
}

/// `{"_id": i, "k": K, "s": "vS"}`.
pub(crate) fn bulk_fields(alloc: Global, line: u32, key: u32, value: u32) -> Result<Doc, NoMemory>
    ensures { IfOk result (λ d. d ≡ bulk_document line key value) }
{
    let mut doc = Doc::new(alloc)?;
    put_number(alloc, &mut doc, "_id", line)?;
    put_number(alloc, &mut doc, "k", key)?;
    let value = text_of(alloc, value)?;
    put(&mut doc, Text::from_str(alloc, "s")?, Value::String(value))?;
    Ok(doc)
}

/// `{"$inc": {"c": 1}}`.
pub(crate) fn counting(alloc: Global) -> Result<Doc, NoMemory>
    ensures { IfOk result (λ d. d ≡ one_more) }
{
    let mut by = Doc::new(alloc)?;
    put_number(alloc, &mut by, "c", 1)?;
    let mut doc = Doc::new(alloc)?;
    put(
        &mut doc,
        Text::from_str(alloc, "$inc")?,
        Value::Document(by),
    )?;
    Ok(doc)
}
