//! The JSON values of answers and faults.
ghost use Rattle.std.specs.Prelude.{◌≡◌, IfOk};
ghost use Rattle.serde_json.specs.View.{view, items_view};
ghost use Rattle.report_lines.specs.Line.{dump_data, dumps_data, reply_data, outcome_data, outcomes_data, host_refusal, refusal_data, answer_data, fault_data};

use crate::contents::caches_members;
use crate::fault::Fault;
use cache_key::{HostName, Reply};
use script_lines::{Answer, Outcome, Outcomes, PartitionDump, PartitionDumps, Refusal};
use serde_json::{Value, json};
use std::alloc::{AllocError, Global};

/// The epoch of a new cluster.
const FIRST_EPOCH: u64 = 1;

/// The value of an answer.
pub(crate) fn answer_value(alloc: Global, answer: &Answer) -> Result<Value, AllocError>
    ensures { IfOk result (λ value. view value ≡ answer_data answer.now) }
{
    match answer {
        Answer::Created { host } => {
            json!(in alloc; {"created": host.text(), "epoch": FIRST_EPOCH})
        }
        Answer::Dumped { partitions } => {
            let dumps = dump_values(alloc, partitions)?;
            json!(in alloc; {"dump": dumps})
        }
        Answer::Stepped { outcomes } => {
            let steps = outcome_values(alloc, outcomes)?;
            json!(in alloc; {"steps": steps})
        }
        Answer::Refused { refusal } => refusal_value(alloc, refusal),
        Answer::Stopped => json!(in alloc; {"stopped": true}),
        Answer::Recovered {
            epoch,
            host,
            opened,
        } => json!(in alloc; {"epoch": *epoch, "hosts": [host.text()], "opened": *opened}),
    }
}

/// The value of a fault.
pub(crate) fn fault_value(alloc: Global, fault: Fault) -> Result<Value, AllocError>
    ensures { IfOk result (λ value. view value ≡ fault_data fault) }
{
    match fault {
        Fault::Words => json!(in alloc; {"fault": "words"}),
        Fault::Script { line } => json!(in alloc; {"fault": "script", "line": line}),
        Fault::Read => json!(in alloc; {"fault": "read"}),
    }
}

fn dump_value(alloc: Global, dump: &PartitionDump) -> Result<Value, AllocError>
    ensures { IfOk result (λ value. view value ≡ dump_data dump.now) }
{
    let caches = caches_members(alloc, dump.caches.caches())?;
    let id = dump.id.text(alloc)?;
    json!(in alloc; {
        "caches": caches,
        "host": dump.host.text(),
        "id": id,
        "partition": dump.id.partition
    })
}

fn dump_values(alloc: Global, dumps: &PartitionDumps) -> Result<Vec<Value>, AllocError>
    ensures { IfOk result (λ values. items_view values.items ≡ dumps_data dumps.now) }
{
    let mut values = Vec::new(alloc);
    for dump in dumps.as_slice() {
        values.push(dump_value(alloc, dump)?)?;
    }
    Ok(values)
}

fn outcome_value(alloc: Global, outcome: &Outcome) -> Result<Value, AllocError>
    ensures { IfOk result (λ value. view value ≡ outcome_data outcome.now) }
{
    match outcome {
        Outcome::Replied { reply } => reply_value(alloc, reply),
        Outcome::Refused { refusal } => refusal_value(alloc, refusal),
        Outcome::Renewed { partition, id } => {
            let id = id.text(alloc)?;
            json!(in alloc; {"id": id, "renewed": *partition})
        }
    }
}

fn reply_value(alloc: Global, reply: &Reply) -> Result<Value, AllocError>
    ensures { IfOk result (λ value. view value ≡ reply_data reply.now) }
{
    match reply {
        Reply::Value(Some(value)) => json!(in alloc; {"value": value.text()}),
        Reply::Value(None) => json!(in alloc; {"value": null}),
        Reply::Count(count) => json!(in alloc; {"count": *count}),
        Reply::Done => json!(in alloc; "done"),
    }
}

fn outcome_values(alloc: Global, outcomes: &Outcomes) -> Result<Vec<Value>, AllocError>
    ensures { IfOk result (λ values. items_view values.items ≡ outcomes_data outcomes.now) }
{
    let mut values = Vec::new(alloc);
    for outcome in outcomes.as_slice() {
        values.push(outcome_value(alloc, outcome)?)?;
    }
    Ok(values)
}

fn refusal_value(alloc: Global, refusal: &Refusal) -> Result<Value, AllocError>
    ensures { IfOk result (λ value. view value ≡ refusal_data refusal.now) }
{
    match refusal {
        Refusal::Closed => json!(in alloc; {"refused": "closed"}),
        Refusal::Open => json!(in alloc; {"refused": "open"}),
        Refusal::NotMember { host } => host_refusal_value(alloc, "notMember", host),
        Refusal::Fault { host } => host_refusal_value(alloc, "fault", host),
        Refusal::NotCreated => json!(in alloc; {"refused": "notCreated"}),
        Refusal::Damaged {
            host,
            partition,
            file,
            at,
        } => json!(in alloc; {
            "at": *at,
            "file": *file,
            "host": host.text(),
            "partition": *partition,
            "refused": "damaged"
        }),
        Refusal::NoPartition { partition } => {
            json!(in alloc; {"partition": *partition, "refused": "noPartition"})
        }
        Refusal::StoreFull { live } => json!(in alloc; {"live": *live, "refused": "storeFull"}),
        Refusal::TrailFull => json!(in alloc; {"refused": "trailFull"}),
        Refusal::VersionEnd => json!(in alloc; {"refused": "versionEnd"}),
    }
}

/// The value of a refusal that names a host.
fn host_refusal_value(alloc: Global, name: &str, host: &HostName) -> Result<Value, AllocError>
    ensures { IfOk result (λ value. view value ≡ host_refusal name.now host.now) }
{
    json!(in alloc; {"host": host.text(), "refused": name})
}
