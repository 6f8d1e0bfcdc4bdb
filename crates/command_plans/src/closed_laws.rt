//! What is kept where no cluster is open: each law is the contract of a function that does nothing.
ghost use Rattle.std.specs.Prelude.{◌≡◌};
ghost use Rattle.cluster_model.specs.Agreement.{Durable};
ghost use Rattle.cluster_model.specs.Memory.{Setting};
ghost use Rattle.cluster_model.specs.Restart.{Picks};
ghost use Rattle.cluster_model.specs.Site.{SiteShape};
ghost use Rattle.command_plans.specs.Asked.{SiteCommand, CommandAnswer};
ghost use Rattle.command_plans.specs.Kept.{IsSite, MayBePicked, KeepsClosed, IsKeptStage, IsKeptAfterRestart};
ghost use Rattle.command_plans.specs.Stage.{closed, RunStage, RunState};
ghost use Rattle.command_plans.specs.Steps.{CommandRuns, CommandBreaksOff};

/// Whatever a restart picks, it is a closed cluster again. Does nothing.
pub fn a_restart_closes_the_cluster()
    ensures { (shape : SiteShape) (old new : Durable) → MayBePicked shape old → Picks shape old new → KeepsClosed shape new }
{}

/// A closed cluster stays one, or is opened, whatever is asked: also where a disk fails, and after a restart where a creation or a
/// recovery is broken off. Does nothing.
pub fn a_closed_cluster_is_kept()
    ensures runs { (setting : Setting) (durable : Durable) (old new : RunState) (command : SiteCommand) (answer : CommandAnswer) → IsSite setting.shape → KeepsClosed setting.shape durable → old.stage ≡ closed durable
        → CommandRuns setting old command answer new → IsKeptStage setting.shape new.stage }
    ensures broken { (setting : Setting) (durable : Durable) (old : RunState) (command : SiteCommand) (stage : RunStage) → IsSite setting.shape → KeepsClosed setting.shape durable → old.stage ≡ closed durable
        → CommandBreaksOff setting old command stage → IsKeptAfterRestart setting.shape stage }
{}
