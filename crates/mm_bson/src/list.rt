//! Lists of documents.

ghost use Rattle.std.specs.Prelude.{◌≡◌, [], ◌∷◌, ◌++◌, IfOk, OnOk, OnErr};

use crate::doc::Doc;
use std::alloc::{AllocError, Global};
use std::marker::Model;

/// Documents, seen as their list.
#[derive(Drop)]
pub struct DocList {
    documents: Vec<Doc>,
}

impl Model for DocList {
    ghost use Rattle.std.specs.Prelude.{List};
    ghost use Rattle.mm_bson.specs.Tree.{Elements};
    ghost use Rattle.mm_bson.specs.Code.{documents_code};

    ghost Value = { List Elements };

    ghost coded = { documents_code };

    ghost view = { λ l. l.documents.items };
}

impl DocList {
    /// No documents. It takes no memory.
    pub fn new(alloc: Global) -> DocList
        ensures { result ≡ [] }
    {
        DocList {
            documents: Vec::new(alloc),
        }
    }

    /// Puts a document behind the others. It is dropped where memory runs out.
    pub fn push(&mut self, document: Doc) -> Result<(), AllocError>
        ensures ok { OnOk result (self.new ≡ self.old ++ document ∷ []) }
        ensures err { OnErr result (self.new ≡ self.old) }
    {
        self.documents.push(document)?;
        Ok(())
    }

    /// The documents, in their order.
    pub fn documents(&self) -> &[Doc]
        ensures { result.now ≡ self.now }
    {
        self.documents.as_slice()
    }

    /// The list again.
    pub fn copy(&self) -> Result<DocList, AllocError>
        ensures { IfOk result (λ l. l ≡ self.now) }
    {
        let documents = self.documents();
        let mut copied = Vec::with_capacity(*self.documents.allocator(), documents.len())?;
        for document in documents {
            copied.push(document.copy()?)?;
        }
        Ok(DocList { documents: copied })
    }
}
