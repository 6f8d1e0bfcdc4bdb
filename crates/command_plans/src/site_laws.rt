//! What the plans of an open cluster keep of its site: each law is the contract of a function that does nothing.
ghost use Rattle.std.specs.Prelude.{◌≡◌, ℕ, Some};
ghost use Rattle.cache_key.specs.declared.request.Request.{Request};
ghost use Rattle.cluster_model.specs.Agreement.{two_of, Durable, KeepsSite};
ghost use Rattle.cluster_model.specs.Carried.{IsCarriedOver};
ghost use Rattle.cluster_model.specs.Memory.{Setting};
ghost use Rattle.cluster_model.specs.Site.{SiteImage};
ghost use Rattle.command_plans.specs.Asked.{SiteEvent};
ghost use Rattle.command_plans.specs.ChangePlans.{join_plan, leave_plan};
ghost use Rattle.command_plans.specs.Kept.{IsSite, KeepsOpen};
ghost use Rattle.command_plans.specs.Plan.{Plan};
ghost use Rattle.command_plans.specs.Stage.{OpenSite};
ghost use Rattle.command_plans.specs.Steps.{call_plan, event_plan};
ghost use Rattle.roster_form.specs.Membership.{Host};

/// Where the acts of a plan are carried out over images of the site, each as the contracts of its calls say of one disk, the invariant of the
/// site is kept: after all of them, and wherever they are cut short. Does nothing.
pub fn each_plan_keeps_the_site()
    ensures join { (setting : Setting) (site : OpenSite) (host : Host) (kept : Durable) (old new : SiteImage) → IsSite setting.shape → KeepsOpen setting.shape site → KeepsSite setting.shape site.durable (two_of site.durable.rosters) old
        → IsCarriedOver setting.shape (join_plan setting site host).acts site.durable kept old new → KeepsSite setting.shape kept (two_of kept.rosters) new }
    ensures leave { (setting : Setting) (site : OpenSite) (host : Host) (kept : Durable) (old new : SiteImage) → IsSite setting.shape → KeepsOpen setting.shape site → KeepsSite setting.shape site.durable (two_of site.durable.rosters) old
        → IsCarriedOver setting.shape (leave_plan setting site host).acts site.durable kept old new → KeepsSite setting.shape kept (two_of kept.rosters) new }
    ensures event { (setting : Setting) (site : OpenSite) (event : SiteEvent) (plan : Plan) (kept : Durable) (old new : SiteImage) → KeepsOpen setting.shape site → event_plan setting site event ≡ Some plan
        → KeepsSite setting.shape plan.durable (two_of plan.durable.rosters) old → IsCarriedOver setting.shape plan.acts plan.durable kept old new → KeepsSite setting.shape kept (two_of kept.rosters) new }
    ensures call { (setting : Setting) (site : OpenSite) (part : ℕ × Request) (kept : Durable) (old new : SiteImage) → KeepsOpen setting.shape site
        → KeepsSite setting.shape (call_plan setting site part).durable (two_of (call_plan setting site part).durable.rosters) old
        → IsCarriedOver setting.shape (call_plan setting site part).acts (call_plan setting site part).durable kept old new → KeepsSite setting.shape kept (two_of kept.rosters) new }
{}
