//! One command, tried in a draft.

ghost use Rattle.std.specs.Prelude.{◌≡◌, ◌+◌, ◌≤◌, IfOk, IfErr, OnErr};
ghost use Rattle.mm_views.specs.State.{IsCovered, drafting_of, weight_in};
ghost use Rattle.mm_model.specs.Laws.{is_ok};
ghost use Rattle.mm_held.specs.Meaning.{Stored};
ghost use Rattle.mm_held.specs.Steps.{IsStep, IsCause};
ghost use Rattle.mm_held.specs.Fates.{IsFate, IsReadyFor, IsTwice, IsWeighed, IsTooMuch, AreSame};

use crate::engine::Engine;
use crate::fault::Refused;
use mm_base::NoMemory;
use mm_model::{Command, Reply};
use mm_views::{Draft, Views};

/// How many bytes the draft of one command may weigh.
pub const MAX_STEP_WEIGHT: u64 = 67_108_864;

/// How many bytes a group may weigh in one database.
pub const MAX_GROUP_WEIGHT: u64 = 134_217_728;

/// A reply, and its copy for the log.
#[derive(Drop)]
pub struct Answer {
    pub reply: Reply,
    pub kept: Reply,
}

/// What becomes of a draft.
#[derive(Drop)]
pub enum Fate {
    Adopted(Answer),
    GivenUp(Answer),
}

fn is_ok(reply: &Reply) -> bool
    ensures { result ≡ is_ok reply.now }
{
    matches!(reply, Reply::Done(_) | Reply::Found(_))
}

fn twice(reply: Reply) -> Result<Answer, NoMemory>
    ensures { IfOk result (λ a. IsTwice a reply) }
{
    let kept = reply.copy()?;
    Ok(Answer { reply, kept })
}

/// Weighs a draft in which a command was carried out, and takes the memory for adopting it.
fn weighed(draft: &mut Draft, reply: Reply, used: u64) -> Result<Fate, Refused>
    requires { used ≤ 134217728 }
    ensures same { AreSame draft.old draft.new }
    ensures ready { IfOk result (λ fate. IsReadyFor used draft.new fate) }
    ensures weighed { IfOk result (λ fate. IsWeighed draft.old reply fate) }
    ensures full { IfErr result (λ refused. IsTooMuch used draft.old refused) }
{
    let weight = draft.weigh();
    if weight > MAX_STEP_WEIGHT {
        return Ok(Fate::GivenUp(twice(Reply::OpTooLarge { weight })?));
    }
    if used + weight > MAX_GROUP_WEIGHT {
        return Err(Refused::GroupFull {
            weight: used + weight,
        });
    }
    draft.reserve()?;
    Ok(Fate::Adopted(twice(reply)?))
}

/// Carries a command out in a new draft, beside `used` bytes that are opened.
fn fate_of<E: Engine>(
    engine: &E,
    draft: &mut Draft,
    command: &Command,
    used: u64,
) -> Result<Fate, Refused>
    requires fresh { draft.old ≡ drafting_of draft.old.views }
    requires stands { (db : Stored) × (E.means engine.now).stands draft.old.image db }
    requires used { used ≤ 134217728 }
    ensures views { draft.new.views ≡ draft.old.views }
    ensures ready { IfOk result (λ fate. IsReadyFor used draft.new fate) }
    ensures fate { IfOk result (λ fate. (db : Stored) → (E.means engine.now).stands draft.old.image db
        → IsFate (E.means engine.now) db command.now draft.old draft.new fate) }
    ensures full { IfErr result (λ refused. (db : Stored) → (E.means engine.now).stands draft.old.image db
        → IsCause (E.means engine.now) db command.now draft.old.image used refused) }
{
    let reply = engine.step(draft, command)?;
    if is_ok(&reply) {
        return weighed(draft, reply, used);
    }
    Ok(Fate::GivenUp(twice(reply)?))
}

/// Carries a command out on views, whose opened intents weigh no more than a group may.
pub fn attempt<E: Engine>(
    engine: &E,
    views: Views,
    command: &Command,
) -> (Views, Result<Answer, Refused>)
    requires stands { (db : Stored) × (E.means engine.now).stands views.private db }
    requires light { weight_in views.made views.opened ≤ 134217728 }
    ensures twice { IfOk result.1 (λ a. a.kept ≡ a.reply) }
    ensures step { IfOk result.1 (λ a. (db : Stored) → (E.means engine.now).stands views.private db
        → IsStep (E.means engine.now) db command.now views result.0 a.reply) }
    ensures shared { result.0.shared ≡ views.shared }
    ensures closed { result.0.closed ≡ views.closed }
    ensures covered { IsCovered result.0 }
    ensures light { weight_in result.0.made result.0.opened ≤ 134217728 }
    ensures full { IfErr result.1 (λ refused. (db : Stored) → (E.means engine.now).stands views.private db
        → IsCause (E.means engine.now) db command.now views.private (weight_in views.made views.opened) refused) }
    ensures err { OnErr result.1 (result.0 ≡ views) }
{
    let used = views.weight();
    let mut draft = views.draft();
    match fate_of(engine, &mut draft, command, used) {
        Ok(Fate::Adopted(answer)) => (draft.adopt(), Ok(answer)),
        Ok(Fate::GivenUp(answer)) => (draft.give_up(), Ok(answer)),
        Err(refused) => (draft.give_up(), Err(refused)),
    }
}
