//! What is asked of the engine that carries commands out.

ghost use Rattle.std.specs.Prelude.{◌≡◌, ◌≤◌, OnOk, IfOk, IfErr};
ghost use Rattle.std.specs.FinMap.{empty};
ghost use Rattle.mm_views.specs.State.{drafting_of, weight_in};
ghost use Rattle.mm_held.specs.Meaning.{Meaning, Stored};
ghost use Rattle.mm_held.specs.Steps.{IsAnswered, IsSetUp, IsFound};

use mm_base::NoMemory;
use mm_model::{CheckFault, Command, Reply};
use mm_views::{Draft, Views};

/// Carries commands out in drafts. It keeps no state.
pub trait Engine: Drop {
    /// Which image stands for which database, what follows a command, and what its draft may weigh.
    ghost means: { Self → Meaning };

    /// Makes the files of a new database in a draft without files, as `Views::draft` gave it.
    fn setup(&self, draft: &mut Draft) -> Result<(), NoMemory>
        requires fresh { draft.old ≡ drafting_of draft.old.views }
        requires no_file { draft.old.image ≡ empty }
        ensures views { draft.new.views ≡ draft.old.views }
        ensures weight { OnOk result (weight_in draft.new.made draft.new.declared ≤ 67108864) }
        ensures stands { OnOk result (IsSetUp (means self.now) draft.old.image draft.new.image) };

    /// Carries a command out in a draft, as `Views::draft` gave it, of files that stand for a database. After a refusal, and after want
    /// of memory, the draft is to be dropped.
    fn step(&self, draft: &mut Draft, command: &Command) -> Result<Reply, NoMemory>
        requires fresh { draft.old ≡ drafting_of draft.old.views }
        requires stands { (db : Stored) × (means self.now).stands draft.old.image db }
        ensures views { draft.new.views ≡ draft.old.views }
        ensures answered { IfOk result (λ reply. (db : Stored) → (means self.now).stands draft.old.image db
            → IsAnswered (means self.now) db command.now draft.old draft.new reply) };

    /// Whether the files of the private image stand for a database, and else what is first found wrong with them.
    fn accept(&self, views: &Views) -> Result<(), CheckFault>
        ensures ok { OnOk result ((db : Stored) × (means self.now).stands views.now.private db) }
        ensures found { IfErr result (λ fault. IsFound (means self.now) views.now.private fault) };
}
