//! A site whose disks are in memory.
ghost use Rattle.std.specs.Prelude.{◌≡◌, ℕ, [], IfOk, vec_len, Option, Some};
ghost use Rattle.disk_memory.specs.declared.disk.MemoryDisk.{MemoryDisk};
ghost use Rattle.disk_memory.specs.History.{history_of, view_of, planned};
ghost use Rattle.disk_trait.specs.View.{Image, View, Tells};
ghost use Rattle.plan_words.specs.Words.{HasNoPlan, IsDiskPlan, IsSiteOf, words_of};
ghost use Rattle.cluster_cli.specs.Sites.{HasLanes, first_disk};
ghost use Rattle.plan_site.specs.Planned.{cut_history};

use cluster_cli::{Lane, Site};
use disk_memory::{DiskPlan, MemoryDisk};
use plan_words::{WordFault, site_plan};
use std::alloc::{AllocError, Global};

/// The site of the arguments' plan, with an empty disk in memory, which fails from the call of their cut on and of which a
/// restart takes the image of their pick. For arguments that have no plan, a site without hosts and disks.
pub fn memory_site(alloc: Global, words: &[String]) -> Result<Site<MemoryDisk, ()>, AllocError>
    ensures site { IfOk result (λ site. IsSiteOf (words_of words.now) site.hosts.items site.partitions) }
    ensures lanes { IfOk result (λ site. HasLanes site.lanes.items site.partitions (vec_len site.hosts)) }
    ensures disk { IfOk result (λ site. (disk : MemoryDisk) (cut : Option ℕ) (pick : ℕ) → first_disk site.lanes.items ≡ Some disk → IsDiskPlan (words_of words.now) cut pick → history_of disk ≡ cut_history cut pick) }
    ensures empty { IfOk result (λ site. (disk : MemoryDisk) → first_disk site.lanes.items ≡ Some disk → Tells (view_of disk) × ((m : Image) → (view_of disk).images m → (f : ℕ) → m f ≡ [])) }
    ensures no_plan { IfOk result (λ site. HasNoPlan (words_of words.now) → (site.partitions ≡ 0) × (site.hosts.items ≡ []) × (site.lanes.items ≡ [])) }
    ensures services { IfOk result (λ site. site.services.items ≡ []) }
{
    let plan = match site_plan(alloc, words) {
        Ok(plan) => plan,
        Err(WordFault::Words { reason: _ }) => return Ok(without_disks(alloc)),
        Err(WordFault::NoMemory) => return Err(AllocError),
    };
    let disk = MemoryDisk::new(alloc, disk_plan(alloc, plan.cut, plan.pick))?;
    let lanes = one_lane(alloc, disk)?;
    Ok(Site {
        partitions: plan.partitions,
        hosts: plan.hosts,
        lanes,
        services: Vec::new(alloc),
        vault: (),
    })
}

// What goes wrong on a disk that is cut at this call, if at any.
fn disk_plan(alloc: Global, cut: Option<u64>, pick: u8) -> DiskPlan
    ensures { planned result ≡ cut_history cut pick }
{
    DiskPlan {
        fail: Vec::new(alloc),
        fail_reads: Vec::new(alloc),
        fuse: cut,
        pick,
    }
}

// A site of no host and no partition.
fn without_disks(alloc: Global) -> Site<MemoryDisk, ()>
    ensures hosts { result.hosts.items ≡ [] }
    ensures partitions { result.partitions ≡ 0 }
    ensures lanes { result.lanes.items ≡ [] }
    ensures services { result.services.items ≡ [] }
{
    Site {
        partitions: 0,
        hosts: Vec::new(alloc),
        lanes: Vec::new(alloc),
        services: Vec::new(alloc),
        vault: (),
    }
}

// One lane with one disk.
fn one_lane(alloc: Global, disk: MemoryDisk) -> Result<Vec<Lane<MemoryDisk>>, AllocError>
    ensures lanes { IfOk result (λ lanes. HasLanes lanes.items 1 1) }
    ensures disk { IfOk result (λ lanes. first_disk lanes.items ≡ Some disk) }
{
    let mut disks = Vec::new(alloc);
    disks.push(disk)?;
    let mut lanes = Vec::new(alloc);
    lanes.push(Lane { disks })?;
    Ok(lanes)
}
