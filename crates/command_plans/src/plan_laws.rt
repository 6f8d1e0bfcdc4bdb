//! How plans are carried out: each law is the contract of a function that does nothing.
ghost use Rattle.std.specs.Prelude.{◌≡◌, ◌⊎◌, []};
ghost use Rattle.fault_count.specs.Rose.{Rose};
ghost use Rattle.cluster_model.specs.Site.{SiteShape, DiskOf};
ghost use Rattle.cluster_model.specs.Acts.{all_done};
ghost use Rattle.command_plans.specs.Asked.{SiteAnswer, refused, fault_of};
ghost use Rattle.command_plans.specs.Stage.{RunStage, RunState, goes_on, GoesTo};
ghost use Rattle.command_plans.specs.Plan.{Plan, name_of, host_of_disk};
ghost use Rattle.command_plans.specs.Steps.{NoneErased, FollowsPlan, NoneRose};

/// A plan is answered by its own answer, unless a disk fails in it, and then by a fault of that disk's host; where no disk fails it is
/// carried out in one way. Does nothing.
pub fn a_plan_is_carried_out()
    // A refusal that calls no disk is the only answer.
    ensures refused { (shape : SiteShape) (plan : Plan) (old new : RunState) (answer : SiteAnswer) → plan.acts ≡ [] → FollowsPlan shape plan old answer new → (answer ≡ plan.answer) × GoesTo shape (plan.done_goes plan.durable) new.stage }
    ensures fault { (shape : SiteShape) (plan : Plan) (old new : RunState) (answer : SiteAnswer) → FollowsPlan shape plan old answer new
        → (answer ≡ plan.answer) ⊎ ((disk : DiskOf) × Rose (old.faults disk) (new.faults disk) × (answer ≡ refused (fault_of (name_of shape (host_of_disk disk))))) }
    ensures answer { (shape : SiteShape) (plan : Plan) (old new : RunState) (answer : SiteAnswer) → NoneRose old.faults new.faults → FollowsPlan shape plan old answer new → answer ≡ plan.answer }
    // The next stage is the same each time, too, where no store in doubt can have been erased.
    ensures once { (shape : SiteShape) (plan : Plan) (old one other : RunState) (first second : SiteAnswer) (stage : RunStage) → NoneRose old.faults one.faults → NoneRose old.faults other.faults
        → NoneErased plan.acts (all_done plan.acts plan.durable) → plan.done_goes (all_done plan.acts plan.durable) ≡ goes_on stage → FollowsPlan shape plan old first one → FollowsPlan shape plan old second other
        → (first ≡ second) × (one.stage ≡ stage) × (other.stage ≡ stage) }
    ensures some { (shape : SiteShape) (plan : Plan) (old : RunState) (stage : RunStage) → plan.done_goes (all_done plan.acts plan.durable) ≡ goes_on stage → FollowsPlan shape plan old plan.answer (record { stage = stage; faults = old.faults }) }
{}
