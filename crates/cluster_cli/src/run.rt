//! The top call.
ghost use Rattle.std.specs.Prelude.{◌≡◌, ◌≢◌, ◌⊎◌, ℕ, ◌<◌, ◌≤◌, List, [], ◌∷◌, length, vec_len, vec_capacity, Some};
ghost use Rattle.fault_count.specs.Rose.{Rose};
ghost use Rattle.disk_trait.specs.Moments.{Later};
ghost use Rattle.plan_words.specs.Words.{IsSiteOf, HasNoPlan, words_of};
ghost use Rattle.script_lines.specs.declared.command.Command.{Command};
ghost use Rattle.script_loop.specs.Codes.{code_of};
ghost use Rattle.script_loop.specs.Ends.{EndsReport, IsSurvived};
ghost use Rattle.script_loop.specs.Script.{IsScriptOf};
ghost use Rattle.script_loop.specs.declared.status.Status.{Status};
ghost use Rattle.cluster_cli.specs.Ends.{HasPlan, StatusHasCause, IsRefused};
ghost use Rattle.cluster_commands.specs.OnDisk.{IsInState, IsReady, IsDiskRestarted, lane_view};
ghost use Rattle.cluster_cli.specs.Sites.{IsThere, HasOneDisk, lane_left, HasLanes, ForRuns, FromStart, IsLeftBy, IsGivenBack, run_on};
ghost use Rattle.cluster_commands.specs.State.{State};

use crate::machine::ClusterMachine;
use crate::site::{Ended, Lane, Reason, Site};
use byte_streams::{Sink, Source};
use cache_key::HostName;
use cluster_commands::{Cluster, restart_lane};
use disk_trait::Disk;
use plan_words::{WordFault, site_plan};
use report_lines::Fault;
use script_loop::{Finish, Status, code, report_fault, report_script};
use std::alloc::Global;

/// Carries out the script of the source by the plan of the arguments, on the site, and writes its report to the sink.
///
/// The arguments don't have the program's own name. The site has the plan's hosts and partitions; it is given back, with what
/// its disks then hold. The status and the last line for each way to end: docs/SCRIPT.md. Always returns: the limits end a
/// script.
pub fn run_steps<R, S: Source, K: Sink, D: Disk, V>(
    _rt: &R,
    alloc: Global,
    words: &[String],
    source: &mut S,
    sink: &mut K,
    mut site: Site<D, V>,
) -> Ended<D, V>
    requires site { IsSiteOf (words_of words.now) site.hosts.items site.partitions }
    requires lanes { HasLanes site.lanes.items site.partitions (vec_len site.hosts) }

    // A run ends in one of six ways, each of which has its cause.
    ensures known { result.status ≤ 5 }
    ensures cause { (status : Status) → result.status ≡ code_of status → StatusHasCause status (HasNoPlan (words_of words.now)) (Rose (S.faults source.old) (S.faults source.new)) (Rose (K.faults sink.old) (K.faults sink.new)) }

    // What is written, how far the script was read, and what the disks then hold, by the way that the run ends.
    ensures ends { HasPlan (words_of words.now) → (status : Status) → result.status ≡ code_of status → (script : List ℕ) → S.left source.old ≡ Some script
        → ForRuns status D.view site result.site (λ span. EndsReport span script (Rose (S.faults source.old) (S.faults source.new)) (K.written sink.old) status (S.left source.new) (K.written sink.new)) }

    // However it ends, also after a device call that failed, each image that a stop may leave then has what was answered.
    ensures survives { HasPlan (words_of words.now) → (status : Status) → result.status ≡ code_of status → (script : List ℕ) → S.left source.old ≡ Some script
        → ForRuns status D.view site result.site (λ span. IsSurvived span script (K.written sink.old) (K.written sink.new)) }

    // Whatever the streams tell, the disks are left as commands leave them; one is broken off only where memory ran out.
    ensures kept { HasPlan (words_of words.now) → (status : Status) → result.status ≡ code_of status → ForRuns status D.view site result.site (IsLeftBy status) }

    // Without a plan the line that says so is written; nothing is read, and nothing of the site is touched.
    ensures refused { HasNoPlan (words_of words.now) → (status : Status) → result.status ≡ code_of status → IsRefused status (S.left source.old) (S.left source.new) (K.written sink.old) (K.written sink.new) site result.site }

    // A good script is answered to its end, unless a stream fails or memory runs out.
    ensures complete { HasPlan (words_of words.now) → (script : List ℕ) (commands : List Command) → S.left source.old ≡ Some script → IsScriptOf script commands
        → (Rose (S.faults source.old) (S.faults source.new) → ⊥) → (Rose (K.faults sink.old) (K.faults sink.new) → ⊥) → (result.status ≡ 0) ⊎ (result.status ≡ 5) }

    // The site is given back with its disks.
    ensures given_back { IsGivenBack D.view site result.site }
{
    let ran = run_words(alloc, words, source, sink, &mut site);
    Ended {
        status: code(ran.status),
        reason: ran.reason,
        site,
    }
}

// How a run ended, and what was wrong.
#[derive(Drop)]
struct Ran {
    status: Status,
    reason: Option<Reason>,
}

// Carries out a script by the plan of the arguments, if they have one.
fn run_words<S: Source, K: Sink, D: Disk, V>(
    alloc: Global,
    words: &[String],
    source: &mut S,
    sink: &mut K,
    site: &mut Site<D, V>,
) -> Ran
    requires site { IsSiteOf (words_of words.now) site.old.hosts.items site.old.partitions }
    requires lanes { HasLanes site.old.lanes.items site.old.partitions (vec_len site.old.hosts) }
    ensures words { result.status ≡ Status.WordFault → HasNoPlan (words_of words.now) }
    ensures read { result.status ≡ Status.ReadFault → Rose (S.faults source.old) (S.faults source.new) }
    ensures write { result.status ≡ Status.WriteFault → Rose (K.faults sink.old) (K.faults sink.new) }
    ensures ends { HasPlan (words_of words.now) → (script : List ℕ) → S.left source.old ≡ Some script → ForRuns result.status D.view site.old site.new (λ span. EndsReport span script (Rose (S.faults source.old) (S.faults source.new)) (K.written sink.old) result.status (S.left source.new) (K.written sink.new)) }
    ensures kept { HasPlan (words_of words.now) → ForRuns result.status D.view site.old site.new (IsLeftBy result.status) }
    ensures refused { HasNoPlan (words_of words.now) → IsRefused result.status (S.left source.old) (S.left source.new) (K.written sink.old) (K.written sink.new) site.old site.new }
    ensures complete { HasPlan (words_of words.now) → (script : List ℕ) (commands : List Command) → S.left source.old ≡ Some script → IsScriptOf script commands → result.status ≢ Status.ScriptFault }
    ensures given_back { IsGivenBack D.view site.old site.new }
{
    match site_plan(alloc, words) {
        Ok(_) => {}
        Err(WordFault::Words { reason }) => {
            return Ran {
                status: report_fault(alloc, sink, Fault::Words),
                reason: Some(Reason::Words { reason }),
            };
        }
        Err(WordFault::NoMemory) => {
            return Ran {
                status: Status::NoMemory,
                reason: None,
            };
        }
    }
    let disks = take_disks(&mut site.lanes);
    let planned = run_plan(alloc, &site.hosts, source, sink, disks);
    site.lanes.push_reserved(Lane {
        disks: planned.disks,
    });
    Ran {
        status: planned.finish.status,
        reason: planned.finish.faulty.map(|line| Reason::Line { line }),
    }
}

// Takes the lane out, which is the only one. Room is left for it.
fn take_disks<D>(lanes: &mut Vec<Lane<D>>) -> Vec<D>
    requires lanes { HasLanes lanes.old.items 1 1 }
    ensures taken { lanes.old.items ≡ record { disks = result } ∷ [] }
    ensures none { lanes.new.items ≡ [] }
    ensures room { vec_len lanes.new < vec_capacity lanes.new }
    ensures one { length result.items ≡ 1 }
{
    match lanes.pop() {
        Some(lane) => lane.disks,
        None => unreachable!(),
    }
}

// How a run by a plan ended, with the disks of the lane.
#[derive(Drop)]
struct Planned<D> {
    finish: Finish,
    disks: Vec<D>,
}

// Carries out a script by a plan, on the disks of the lane, of which the one is restarted. Gives the disks back.
fn run_plan<S: Source, K: Sink, D: Disk>(
    alloc: Global,
    hosts: &[HostName],
    source: &mut S,
    sink: &mut K,
    disks: Vec<D>,
) -> Planned<D>
    requires one { length disks.items ≡ 1 }
    ensures words { result.finish.status ≢ Status.WordFault }
    ensures ends { (script : List ℕ) → S.left source.old ≡ Some script → FromStart result.finish.status (lane_view D.view disks.items) (lane_view D.view result.disks.items) (λ first. EndsReport (run_on hosts.now first (lane_view D.view result.disks.items)) script (Rose (S.faults source.old) (S.faults source.new)) (K.written sink.old) result.finish.status (S.left source.new) (K.written sink.new)) }
    ensures kept { FromStart result.finish.status (lane_view D.view disks.items) (lane_view D.view result.disks.items) (λ first. IsLeftBy result.finish.status (run_on hosts.now first (lane_view D.view result.disks.items))) }
    ensures complete { (script : List ℕ) (commands : List Command) → S.left source.old ≡ Some script → IsScriptOf script commands → result.finish.status ≢ Status.ScriptFault }
    ensures read { result.finish.status ≡ Status.ReadFault → Rose (S.faults source.old) (S.faults source.new) }
    ensures write { result.finish.status ≡ Status.WriteFault → Rose (K.faults sink.old) (K.faults sink.new) }
    ensures later { Later (lane_view D.view disks.items) (lane_view D.view result.disks.items) }
    ensures one { length result.disks.items ≡ 1 }
{
    let disks = restarted(disks);
    let mut machine = ClusterMachine {
        hosts,
        cluster: Some(Cluster::Closed { disks }),
    };
    let finish = drive(alloc, source, sink, &mut machine);
    let disks = disks_of(machine.cluster);
    Planned { finish, disks }
}

// The disks of the lane, of which the one was restarted.
fn restarted<D: Disk>(mut disks: Vec<D>) -> Vec<D>
    requires one { length disks.items ≡ 1 }
    ensures restarted { IsDiskRestarted (lane_view D.view disks.items) (lane_view D.view result.items) }
    ensures one { length result.items ≡ 1 }
{
    restart_lane(disks.as_mut_slice());
    disks
}

// The disks of the lane of a cluster, which is there.
fn disks_of<D: Disk>(cluster: Option<Cluster<D>>) -> Vec<D>
    requires one { IsThere cluster HasOneDisk }
    ensures left { result.items ≡ lane_left cluster }
    ensures one { length result.items ≡ 1 }
{
    match cluster {
        Some(cluster) => cluster.into_lane(),
        None => unreachable!(),
    }
}

// Carries out a script on the machine.
fn drive<S: Source, K: Sink, D: Disk>(
    alloc: Global,
    source: &mut S,
    sink: &mut K,
    machine: &mut ClusterMachine<D>,
) -> Finish
    requires ready { IsThere machine.old.cluster (IsReady D.view) }
    ensures words { result.status ≢ Status.WordFault }
    ensures ends { (first : State) (script : List ℕ) → IsThere machine.old.cluster (λ cluster. IsInState D.view cluster first) → S.left source.old ≡ Some script → EndsReport (run_on machine.old.hosts.now first (lane_view D.view (lane_left machine.new.cluster))) script (Rose (S.faults source.old) (S.faults source.new)) (K.written sink.old) result.status (S.left source.new) (K.written sink.new) }
    ensures kept { (first : State) → IsThere machine.old.cluster (λ cluster. IsInState D.view cluster first) → IsLeftBy result.status (run_on machine.old.hosts.now first (lane_view D.view (lane_left machine.new.cluster))) }
    ensures complete { (script : List ℕ) (commands : List Command) → S.left source.old ≡ Some script → IsScriptOf script commands → result.status ≢ Status.ScriptFault }
    ensures read { result.status ≡ Status.ReadFault → Rose (S.faults source.old) (S.faults source.new) }
    ensures write { result.status ≡ Status.WriteFault → Rose (K.faults sink.old) (K.faults sink.new) }
    ensures later { Later (lane_view D.view (lane_left machine.old.cluster)) (lane_view D.view (lane_left machine.new.cluster)) }
    ensures one { IsThere machine.new.cluster HasOneDisk }
{
    report_script(alloc, source, sink, machine)
}
