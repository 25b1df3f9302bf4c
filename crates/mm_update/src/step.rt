//! The edits of a change.

ghost use Rattle.std.specs.Prelude.{◌≡◌};
ghost use Rattle.mm_bson.specs.Spelling.{HasNoZero};
ghost use Rattle.mm_bson.specs.View.{tree};

use mm_bson::{Text, Value};
use std::marker::Model;

/// What an edit does at its path.
#[derive(Clone, Copy, PartialEq, Eq)]
pub(crate) enum Operator {
    Set,
    Unset,
    Inc,
    Push,
}

/// An operator, its path and the value given with it.
#[derive(Drop)]
pub(crate) struct Step {
    operator: Operator,
    path: Text,
    operand: Value,
}

impl Model for Step {
    ghost use Rattle.mm_update.specs.Edit.{Edit};
    ghost use Rattle.mm_bson.specs.Spelling.{HasNoZero};
    ghost use Rattle.mm_bson.specs.View.{tree};

    ghost Value = { Edit };

    ghost use Rattle.mm_update.specs.EditCode.{edit_code};

    ghost coded = { edit_code };

    ghost view = { λ s. record { operator = s.operator; path = s.path; operand = tree s.operand } };

    ghost invariant = { λ s. HasNoZero s.path };
}

impl Step {
    pub(crate) fn new(operator: Operator, path: Text, operand: Value) -> Step
        requires { HasNoZero path }
        ensures operator { result.operator ≡ operator }
        ensures path { result.path ≡ path }
        ensures operand { result.operand ≡ tree operand }
    {
        Step {
            operator,
            path,
            operand,
        }
    }

    pub(crate) fn operator(&self) -> Operator
        ensures { result ≡ self.now.operator }
    {
        self.operator
    }

    pub(crate) fn path(&self) -> &Text
        ensures path { result.now ≡ self.now.path }
        ensures name { HasNoZero self.now.path }
    {
        &self.path
    }

    pub(crate) fn operand(&self) -> &Value
        ensures { tree result.now ≡ self.now.operand }
    {
        &self.operand
    }
}
