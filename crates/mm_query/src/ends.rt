//! The values that end the classes in the order of values.

ghost use Rattle.std.specs.Prelude.{◌≡◌, [], true, false};
ghost use Rattle.mm_bson.specs.Tree.{min_key, null, string, document, array, binary, object_id, boolean, timestamp, max_key, no_elements, no_values};
ghost use Rattle.mm_bson.specs.View.{tree};
ghost use Rattle.mm_query.specs.Bounds.{no_id};
ghost use Rattle.mm_query.specs.TreeCode.{tree_code};
ghost use Rattle.std.specs.Coded.{Coded-set};

use crate::memory::NoMemory;
use crate::side::Side;
use mm_bson::{Blob, Doc, Text, Value, ValueList};
use std::alloc::Global;

/// Values at the ends of classes. Most are the least of their class.
#[derive(Drop)]
pub(crate) struct Ends {
    first: Value,
    missing: Value,
    text: Value,
    inner: Value,
    list: Value,
    blob: Value,
    id: Value,
    no: Value,
    yes: Value,
    moment: Value,
    last: Value,
    ghost is_first: { tree first ≡ min_key } by { Coded-set tree_code (tree first) (min_key) },
    ghost is_missing: { tree missing ≡ null } by { Coded-set tree_code (tree missing) (null) },
    ghost is_text: { tree text ≡ string [] } by { Coded-set tree_code (tree text) (string []) },
    ghost is_inner: { tree inner ≡ document no_elements } by { Coded-set tree_code (tree inner) (document no_elements) },
    ghost is_list: { tree list ≡ array no_values } by { Coded-set tree_code (tree list) (array no_values) },
    ghost is_blob: { tree blob ≡ binary 0 [] } by { Coded-set tree_code (tree blob) (binary 0 []) },
    ghost is_id: { tree id ≡ object_id no_id } by { Coded-set tree_code (tree id) (object_id no_id) },
    ghost is_no: { tree no ≡ boolean false } by { Coded-set tree_code (tree no) (boolean false) },
    ghost is_yes: { tree yes ≡ boolean true } by { Coded-set tree_code (tree yes) (boolean true) },
    ghost is_moment: { tree moment ≡ timestamp 0 0 } by { Coded-set tree_code (tree moment) (timestamp 0 0) },
    ghost is_last: { tree last ≡ max_key } by { Coded-set tree_code (tree last) (max_key) },
}

impl Ends {
    ghost use Rattle.mm_query.specs.Bounds.{extreme as extreme_of, least as least_of, greatest as greatest_of, class_end};

    pub(crate) fn new(alloc: Global) -> Result<Ends, NoMemory> {
        let text = Text::from_str(alloc, "")?;
        let inner = Doc::new(alloc)?;
        let list = ValueList::new(alloc)?;
        let bytes = Blob::from_slice(alloc, &[])?;
        Ok(Ends {
            first: Value::MinKey,
            missing: Value::Null,
            text: Value::String(text),
            inner: Value::Document(inner),
            list: Value::Array(list),
            blob: Value::Binary { subtype: 0, bytes },
            id: Value::ObjectId([0, 0, 0, 0, 0, 0, 0, 0, 0, 0, 0, 0]),
            no: Value::Boolean(false),
            yes: Value::Boolean(true),
            moment: Value::Timestamp {
                seconds: 0,
                increment: 0,
            },
            last: Value::MaxKey,
        })
    }

    /// What a missing value counts as.
    pub(crate) fn missing(&self) -> &Value
        ensures { tree result.now ≡ null }
    {
        &self.missing
    }

    /// The first or the last value of all.
    pub(crate) fn extreme(&self, side: Side) -> &Value
        ensures { tree result.now ≡ extreme_of side }
    {
        match side {
            Side::Low => &self.first,
            Side::High => &self.last,
        }
    }

    fn least<'a>(&'a self, value: &Value) -> &'a Value
        ensures { tree result.now ≡ least_of (tree value.now) }
    {
        match value {
            Value::MinKey => &self.first,
            Value::Null | Value::Int32(_) | Value::Int64(_) => &self.missing,
            Value::String(_) => &self.text,
            Value::Document(_) => &self.inner,
            Value::Array(_) => &self.list,
            Value::Binary { .. } | Value::ObjectId(_) => &self.blob,
            Value::Boolean(_) => &self.no,
            Value::Date(_) => &self.yes,
            Value::Timestamp { .. } => &self.moment,
            Value::MaxKey => &self.last,
        }
    }

    fn greatest<'a>(&'a self, value: &Value) -> &'a Value
        ensures { tree result.now ≡ greatest_of (tree value.now) }
    {
        match value {
            Value::MinKey => &self.first,
            Value::Null => &self.missing,
            Value::Int32(_) | Value::Int64(_) => &self.text,
            Value::String(_) => &self.inner,
            Value::Document(_) => &self.list,
            Value::Array(_) => &self.blob,
            Value::Binary { .. } => &self.id,
            Value::ObjectId(_) => &self.no,
            Value::Boolean(_) => &self.yes,
            Value::Date(_) => &self.moment,
            Value::Timestamp { .. } | Value::MaxKey => &self.last,
        }
    }

    /// The end of a value's class on a side, or where the class has none, the
    /// value next to it.
    pub(crate) fn end<'a>(&'a self, side: Side, value: &Value) -> &'a Value
        ensures { tree result.now ≡ class_end side (tree value.now) }
    {
        match side {
            Side::Low => self.least(value),
            Side::High => self.greatest(value),
        }
    }
}
