//! What a run keeps of a cluster: each law is the contract of a function that does nothing.
ghost use Rattle.std.specs.Prelude.{List};
ghost use Rattle.cluster_model.specs.Memory.{Setting};
ghost use Rattle.cluster_model.specs.Site.{SiteShape};
ghost use Rattle.command_plans.specs.Asked.{SiteCommand, CommandAnswer};
ghost use Rattle.command_plans.specs.Kept.{IsSite, IsKeptStage, IsKeptAfterRestart};
ghost use Rattle.command_plans.specs.Stage.{closed, RunStage, RunState};
ghost use Rattle.command_plans.specs.Steps.{nothing_kept, CommandRuns, RunsAll, CommandBreaksOff};

/// A run over disks that keep a cluster, or that never had one, keeps it: after each command, whatever it is answered, and after a restart
/// wherever a command is broken off. Does nothing.
pub fn a_run_keeps_the_cluster()
    ensures empty { (shape : SiteShape) → IsKeptStage shape (closed nothing_kept) }
    ensures command { (setting : Setting) (old new : RunState) (command : SiteCommand) (answer : CommandAnswer) → IsSite setting.shape → IsKeptStage setting.shape old.stage → CommandRuns setting old command answer new
        → IsKeptStage setting.shape new.stage }
    ensures run { (setting : Setting) (old new : RunState) (commands : List SiteCommand) (answers : List CommandAnswer) → IsSite setting.shape → IsKeptStage setting.shape old.stage → RunsAll setting old commands answers new
        → IsKeptStage setting.shape new.stage }
    ensures broken { (setting : Setting) (old : RunState) (command : SiteCommand) (stage : RunStage) → IsSite setting.shape → IsKeptStage setting.shape old.stage → CommandBreaksOff setting old command stage
        → IsKeptAfterRestart setting.shape stage }
{}
