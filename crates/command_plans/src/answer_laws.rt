//! What commands are answered: each law is the contract of a function that does nothing.
ghost use Rattle.std.specs.Prelude.{◌≡◌};
ghost use Rattle.roster_form.specs.Membership.{Host};
ghost use Rattle.cluster_model.specs.Memory.{Setting};
ghost use Rattle.cluster_model.specs.Site.{FaultCounts};
ghost use Rattle.command_plans.specs.Asked.{SiteCommand, stop, CommandAnswer};
ghost use Rattle.command_plans.specs.Stage.{OpenSite, opened, RunState};
ghost use Rattle.command_plans.specs.Steps.{CommandRuns, NamesFaultOf, HasRisenAt};

/// With a cluster open every command has an answer, and leaves one open, but a stop; so has each of its events, with no
/// fault. Does nothing.
pub fn every_command_is_answered()
    ensures { (setting : Setting) (command : SiteCommand) (site : OpenSite) (faults : FaultCounts) → (command ≡ stop → ⊥)
        → (answer : CommandAnswer) × (new : OpenSite) × CommandRuns setting (record { stage = opened site; faults = faults }) command answer (record { stage = opened new; faults = faults }) }
{}

/// A fault that a command answers, or one of its events, has its rise in that command: a disk of the host that it names failed
/// there. Does nothing.
pub fn a_fault_has_its_rise()
    ensures { (setting : Setting) (old new : RunState) (command : SiteCommand) (answer : CommandAnswer) (host : Host) → CommandRuns setting old command answer new → NamesFaultOf answer host
        → HasRisenAt setting.shape old.faults new.faults host }
{}
