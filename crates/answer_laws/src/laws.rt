//! What the states of a run say in the words of its report, each law the contract of a function that does nothing.
ghost use Rattle.std.specs.Prelude.{ℕ, List, IsTrue};
ghost use Rattle.cache_model.specs.Change.{Change};
ghost use Rattle.fault_count.specs.Rose.{Rose};
ghost use Rattle.script_lines.specs.declared.command.Command.{Command};
ghost use Rattle.script_lines.specs.declared.answer.Answer.{Answer};
ghost use Rattle.cluster_commands.specs.State.{State, files_at};
ghost use Rattle.answer_laws.specs.Run.{Run};
ghost use Rattle.answer_laws.specs.Answered.{HasCreated, changes_answered};
ghost use Rattle.answer_laws.specs.AnswersAllow.{AnswersLeave, MayHave};
ghost use Rattle.cluster_commands.specs.OnDisk.{DiskIsIn, HoldChanges};

use disk_trait::Disk;

/// Whatever changes the store may have after a run, they are those that its answers allow, after some that it may have
/// had before: each answered change since the last answered create once, in their order, and of those under which the
/// disk failed each once or not at all.
#[tactic(auto, using(crate::proofs::AnswersAllowLemmas::answers_allow))]
pub fn answers_say_what_is_stored()
    ensures { (hosts : List (List ℕ)) (first last : State) (commands : List Command) (answers : List Answer) (after : List Change)
        → IsTrue first.tells → Run hosts first commands answers last → MayHave (files_at last.stage) after
        → (before : List Change) × MayHave (files_at first.stage) before × AnswersLeave before commands answers after }
{}

/// After a run in which a create was answered and the disk didn't fail, the newest of the two files stands in each image for
/// exactly the changes that were answered since the last answered create.
pub fn answered_changes_are_stored<D: Disk>(disk: &D)
    ensures { (hosts : List (List ℕ)) (first last : State) (commands : List Command) (answers : List Answer)
        → IsTrue first.tells → Run hosts first commands answers last → DiskIsIn (D.view disk.now) last → HasCreated answers → (Rose first.faults (D.view disk.now).faults → ⊥)
        → HoldChanges (changes_answered commands answers) (D.view disk.now) }
{}
