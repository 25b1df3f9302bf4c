//! Changes.

ghost use Rattle.std.specs.Prelude.{◌≡◌, IfOk};
ghost use Rattle.mm_update.specs.Form.{form, Passes};
ghost use Rattle.mm_update.specs.Edit.{plan};

use crate::fault::ChangeFault;
use crate::form::{check_replacement, edits};
use crate::path::has_dollar;
use crate::step::Step;
use mm_bson::Doc;
use std::alloc::{AllocError, Global};
use std::marker::Model;

/// What a change says.
#[derive(Drop)]
pub(crate) enum Body {
    Replacement(Doc),
    Edits(Vec<Step>),
}

/// A change of right form: a replacement, or edits in reading order.
#[derive(Drop)]
pub struct Change {
    pub(crate) alloc: Global,
    pub(crate) body: Body,
}

impl Model for Change {
    ghost use Rattle.mm_update.specs.Edit.{Plan};
    ghost use Rattle.mm_update.specs.PlanView.{plan_in, plan_code, IsApart};

    ghost Value = { Plan };

    ghost coded = { plan_code };

    ghost view = { λ c. plan_in c.body };

    ghost invariant = { λ c. IsApart c.body };
}

impl Change {
    /// The change that a document is. It refuses a document of wrong form by the
    /// first place in reading order at which something is wrong: `BadChange`
    /// with the operator or the path, `ChangesId`, `NotNumber`.
    pub fn from_doc(alloc: Global, doc: &Doc) -> Result<Change, ChangeFault>
        ensures ok { IfOk result (λ c. c ≡ plan doc.now) }
        ensures form { Passes result (form doc.now) }
    {
        let fields = doc.elements();
        match fields {
            [first, ..] if has_dollar(first.name.as_bytes()) => Ok(Change {
                alloc,
                body: Body::Edits(edits(alloc, fields)?),
            }),
            _ => {
                check_replacement(fields)?;
                Ok(Change {
                    alloc,
                    body: Body::Replacement(doc.copy()?),
                })
            }
        }
    }
}
