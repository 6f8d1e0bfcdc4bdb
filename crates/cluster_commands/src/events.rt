//! What each event does to an open cluster, and what it comes to.
ghost use Rattle.std.specs.Prelude.{◌≡◌, ◌≢◌, ℕ, ◌<◌, List, ◌∷◌, [], IfOk, IfErr, OnErr, Some};
ghost use Rattle.cache_key.specs.declared.request.Request.{Request};
ghost use Rattle.cache_model.specs.Parts.{HasPart};
ghost use Rattle.disk_trait.specs.Moments.{Onward};
ghost use Rattle.partition_cell.specs.declared.refusal.MoveRefusal.TheVariants.{VersionEnd};
ghost use Rattle.script_lines.specs.declared.answer.Outcome.TheVariants.{Replied, Renewed, Refused};
ghost use Rattle.script_lines.specs.declared.answer.Refusal.{Refusal as Shown};
ghost use Rattle.script_lines.specs.declared.command.Event.TheVariants.{Call, Renew};
ghost use Rattle.cluster_commands.specs.Breaks.{PartBreaks, EventBreaks, EventsBreak};
ghost use Rattle.cluster_commands.specs.Events.{PartStep, EventStep, EventRun};
ghost use Rattle.cluster_commands.specs.OnDisk.{IsServing, StateSteps, disks_in, lane_view};
ghost use Rattle.cluster_commands.specs.Refusals.{call_refusal_at, renewal_refusal, IsServedRefusal, IsServedMove};
ghost use Rattle.cluster_commands.specs.State.{partition_count};

use crate::answers::{refused_call, refused_renewal};
use crate::cluster::Opened;
use cache_key::{Reply, Request};
use cache_model::asks_nothing;
use call_trail::{CallRefusal, Receipt};
use disk_trait::Disk;
use partition_cell::MoveRefusal;
use script_lines::{Event, Outcome, Refusal};
use std::alloc::{AllocError, Global};
use store_ident::StoreId;

/// The number of the client that asks the events of a script.
const CLIENT: u16 = 0;

/// The number of the one partition.
const PARTITION: u16 = 0;

/// The epoch of a cluster that has had one roster.
const EPOCH: u64 = 1;

/// Carries out the events one after the other. After running out of memory some of them may be done.
pub fn run_events<D: Disk>(
    alloc: Global,
    cluster: &mut Opened<D>,
    events: Vec<Event>,
) -> Result<Vec<Outcome>, AllocError>
    requires serving { IsServing cluster.old.kept }
    ensures run { IfOk result (λ outcomes. StateSteps D.view cluster.old cluster.new (λ before after. EventRun before events.items outcomes.items after)) }
    ensures broken { OnErr result (StateSteps D.view cluster.old cluster.new (λ before after. EventsBreak before events.items after)) }
    ensures serving { IsServing cluster.new.kept }
    ensures onward { Onward (lane_view D.view (disks_in cluster.old)) (lane_view D.view (disks_in cluster.new)) }
{
    let mut outcomes = Vec::new(alloc);
    for event in events {
        let outcome = run_event(alloc, cluster, event)?;
        outcomes.push(outcome)?;
    }
    Ok(outcomes)
}

fn run_event<D: Disk>(
    alloc: Global,
    cluster: &mut Opened<D>,
    event: Event,
) -> Result<Outcome, AllocError>
    requires serving { IsServing cluster.old.kept }
    ensures step { IfOk result (λ outcome. StateSteps D.view cluster.old cluster.new (λ before after. EventStep before event outcome after)) }
    ensures broken { OnErr result (StateSteps D.view cluster.old cluster.new (λ before after. EventBreaks before event after)) }
    ensures serving { IsServing cluster.new.kept }
    ensures onward { Onward (lane_view D.view (disks_in cluster.old)) (lane_view D.view (disks_in cluster.new)) }
{
    match event {
        Event::Call { request } => call(alloc, cluster, request),
        Event::Renew { partition } => renew(alloc, cluster, partition),
    }
}

// Asks each partition for its part of the request: the one that there is for the whole, if it has a part.
fn call<D: Disk>(
    alloc: Global,
    cluster: &mut Opened<D>,
    request: Request,
) -> Result<Outcome, AllocError>
    requires serving { IsServing cluster.old.kept }
    ensures step { IfOk result (λ outcome. StateSteps D.view cluster.old cluster.new (λ before after. EventStep before (Call request) outcome after)) }
    ensures broken { OnErr result (StateSteps D.view cluster.old cluster.new (λ before after. EventBreaks before (Call request) after)) }
    ensures serving { IsServing cluster.new.kept }
    ensures onward { Onward (lane_view D.view (disks_in cluster.old)) (lane_view D.view (disks_in cluster.new)) }
{
    if asks_nothing(&request) {
        return Ok(Outcome::Replied { reply: Reply::Done });
    }
    ask(alloc, cluster, request)
}

// Asks the partition.
fn ask<D: Disk>(
    alloc: Global,
    cluster: &mut Opened<D>,
    request: Request,
) -> Result<Outcome, AllocError>
    requires part { HasPart request }
    requires serving { IsServing cluster.old.kept }
    ensures step { IfOk result (λ outcome. StateSteps D.view cluster.old cluster.new (λ before after. PartStep before request outcome after)) }
    ensures broken { OnErr result (StateSteps D.view cluster.old cluster.new (λ before after. PartBreaks before request after)) }
    ensures serving { IsServing cluster.new.kept }
    ensures onward { Onward (lane_view D.view (disks_in cluster.old)) (lane_view D.view (disks_in cluster.new)) }
{
    match ask_cell(alloc, cluster, request) {
        Ok(receipt) => Ok(Outcome::Replied {
            reply: receipt.reply,
        }),
        Err(refusal) => {
            let refusal = refused_call(refusal, &cluster.host)?;
            Ok(Outcome::Refused { refusal })
        }
    }
}

// Asks the cell of the partition. What its refusal comes to depends on whether there is memory to show it.
fn ask_cell<D: Disk>(
    alloc: Global,
    cluster: &mut Opened<D>,
    request: Request,
) -> Result<Receipt, CallRefusal>
    requires part { HasPart request }
    requires serving { IsServing cluster.old.kept }
    ensures replied { IfOk result (λ receipt. StateSteps D.view cluster.old cluster.new (λ before after. PartStep before request (Replied receipt.reply) after)) }
    ensures refused { IfErr result (λ refusal. (shown : Shown) → call_refusal_at refusal cluster.new.host ≡ Some shown → StateSteps D.view cluster.old cluster.new (λ before after. PartStep before request (Refused shown) after)) }
    ensures broken { OnErr result (StateSteps D.view cluster.old cluster.new (λ before after. PartBreaks before request after)) }
    ensures served { IfErr result (λ refusal. IsServedRefusal refusal) }
    ensures serving { IsServing cluster.new.kept }
    ensures onward { Onward (lane_view D.view (disks_in cluster.old)) (lane_view D.view (disks_in cluster.new)) }
{
    let number = cluster.calls.saturating_add(1);
    cluster.calls = number;
    cluster.kept.follows_its_trail();
    let asked = cluster.kept.call(alloc, EPOCH, CLIENT, number, request);
    cluster.kept.follows_its_trail();
    asked
}

// Builds the store of a partition anew.
fn renew<D: Disk>(
    alloc: Global,
    cluster: &mut Opened<D>,
    partition: u16,
) -> Result<Outcome, AllocError>
    requires serving { IsServing cluster.old.kept }
    ensures step { IfOk result (λ outcome. StateSteps D.view cluster.old cluster.new (λ before after. EventStep before (Renew partition) outcome after)) }
    ensures broken { OnErr result (StateSteps D.view cluster.old cluster.new (λ before after. EventBreaks before (Renew partition) after)) }
    ensures serving { IsServing cluster.new.kept }
    ensures onward { Onward (lane_view D.view (disks_in cluster.old)) (lane_view D.view (disks_in cluster.new)) }
{
    if partition != PARTITION {
        let refusal = Refusal::NoPartition { partition };
        return Ok(Outcome::Refused { refusal });
    }
    match renew_cell(alloc, cluster) {
        Ok(id) => Ok(Outcome::Renewed { partition, id }),
        Err(refusal) => {
            let refusal = refused_renewal(refusal, &cluster.host)?;
            Ok(Outcome::Refused { refusal })
        }
    }
}

// Builds the store of the one partition anew.
fn renew_cell<D: Disk>(alloc: Global, cluster: &mut Opened<D>) -> Result<StoreId, MoveRefusal>
    requires serving { IsServing cluster.old.kept }
    ensures renewed { (partition : ℕ) → partition < partition_count → IfOk result (λ id. StateSteps D.view cluster.old cluster.new (λ before after. EventStep before (Renew partition) (Renewed partition id) after)) }
    ensures refused { (partition : ℕ) → partition < partition_count → IfErr result (λ refusal. (shown : Shown) → renewal_refusal refusal cluster.new.host ≡ Some shown → StateSteps D.view cluster.old cluster.new (λ before after. EventStep before (Renew partition) (Refused shown) after)) }
    ensures broken { (partition : ℕ) → partition < partition_count → IfErr result (λ refusal. refusal ≢ VersionEnd → StateSteps D.view cluster.old cluster.new (λ before after. EventBreaks before (Renew partition) after)) }
    ensures served { IfErr result (λ refusal. IsServedMove refusal) }
    ensures serving { IsServing cluster.new.kept }
    ensures onward { Onward (lane_view D.view (disks_in cluster.old)) (lane_view D.view (disks_in cluster.new)) }
{
    let renewed = cluster.kept.renew(alloc, EPOCH);
    cluster.kept.follows_its_trail();
    renewed
}
