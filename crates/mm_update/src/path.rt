//! Paths and their steps.

ghost use Rattle.std.specs.Prelude.{◌≡◌, ◌∷◌, ◌<◌, length, IfSome};
ghost use Rattle.mm_bson.specs.Path.{names};
ghost use Rattle.mm_bson.specs.Spelling.{HasNoZero};
ghost use Rattle.mm_update.specs.Paths.{behind, has_dollar as begins_with_dollar, has_empty_step as has_empty_step_in, leads as leads_by, is_id as is_id_path};

/// The name whose value tells documents apart, which no change touches.
pub(crate) const ID: &str = "_id";

/// A path's first step, and what is behind its dot where there is one.
#[derive(Clone, Copy)]
pub(crate) struct FirstStep<'a> {
    pub(crate) name: &'a str,
    pub(crate) rest: Option<&'a str>,
}

pub(crate) fn split(path: &str) -> FirstStep<'_>
    ensures steps { names path.now ≡ result.name.now ∷ behind result.rest }
    ensures shorter { IfSome result.rest (λ rest. length rest.now < length path.now) }
    ensures name { HasNoZero path.now → HasNoZero result.name.now }
    ensures rest { HasNoZero path.now → IfSome result.rest (λ rest. HasNoZero rest.now) }
{
    match path.split_once('.') {
        Some((name, rest)) => FirstStep {
            name,
            rest: Some(rest),
        },
        None => FirstStep {
            name: path,
            rest: None,
        },
    }
}

/// Whether a name begins with a dollar sign.
pub(crate) fn has_dollar(name: &[u8]) -> bool
    ensures { result ≡ begins_with_dollar name.now }
{
    match name {
        [first, ..] => *first == b'$',
        [] => false,
    }
}

/// Whether a step of the path is empty.
pub(crate) fn has_empty_step(path: &str) -> bool
    ensures { result ≡ has_empty_step_in path.now }
{
    let mut rest = path;
    loop {
        let here = split(rest);
        if here.name.is_empty() {
            return true;
        }
        match here.rest {
            Some(behind) => rest = behind,
            None => return false,
        }
    }
}

/// Whether the steps of one path begin the other one, or are all of it.
pub(crate) fn leads(path: &str, other: &str) -> bool
    ensures { result ≡ leads_by (names path.now) (names other.now) }
{
    let mut left = path;
    let mut right = other;
    loop {
        let a = split(left);
        let b = split(right);
        if a.name.as_bytes() != b.name.as_bytes() {
            return false;
        }
        match (a.rest, b.rest) {
            (None, _) => return true,
            (Some(_), None) => return false,
            (Some(after_a), Some(after_b)) => {
                left = after_a;
                right = after_b;
            }
        }
    }
}

/// Whether the path is `_id` or below it.
pub(crate) fn is_id(path: &str) -> bool
    ensures { result ≡ is_id_path path.now }
{
    split(path).name == ID
}
