//! What a join and a leave keep of a cluster: each law is the contract of a function that does nothing.
ghost use Rattle.roster_form.specs.Membership.{Host};
ghost use Rattle.cluster_model.specs.Memory.{Setting};
ghost use Rattle.command_plans.specs.ChangePlans.{join_plan, leave_plan};
ghost use Rattle.command_plans.specs.Kept.{IsSite, HoldsThroughout, HoldsWhereCalled, NoneJoins, KeepsCluster, KeepsOpen};
ghost use Rattle.command_plans.specs.Stage.{OpenSite};

/// A join and a leave keep the cluster before, within and after each of their acts, and wherever one of them fails no host is
/// joining of which no roster is being written. Does nothing.
pub fn a_change_keeps_the_cluster()
    ensures join { (setting : Setting) (site : OpenSite) (host : Host) → IsSite setting.shape → KeepsOpen setting.shape site → HoldsThroughout (KeepsCluster setting.shape site.memory.parts) (join_plan setting site host).acts site.durable }
    ensures joined { (setting : Setting) (site : OpenSite) (host : Host) → IsSite setting.shape → KeepsOpen setting.shape site → HoldsWhereCalled NoneJoins (join_plan setting site host).acts site.durable }
    ensures leave { (setting : Setting) (site : OpenSite) (host : Host) → IsSite setting.shape → KeepsOpen setting.shape site → HoldsThroughout (KeepsCluster setting.shape site.memory.parts) (leave_plan setting site host).acts site.durable }
    ensures left { (setting : Setting) (site : OpenSite) (host : Host) → IsSite setting.shape → KeepsOpen setting.shape site → HoldsWhereCalled NoneJoins (leave_plan setting site host).acts site.durable }
{}
