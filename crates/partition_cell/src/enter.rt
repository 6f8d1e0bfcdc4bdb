//! A mutation, over a cell that may have to be renewed first.
ghost use Rattle.std.specs.Prelude.{◌≡◌, ◌≢◌, ◌⊎◌, ℕ, ◌+◌, ◌*◌, ◌<◌, ◌≤◌, ◌^◌, List, [], ◌∷◌, ◌++◌, length, slice_get, OnOk, OnErr, IsErrOf, None, Some};
ghost use Rattle.cache_model.specs.Change.{Change, change_of};
ghost use Rattle.cache_model.specs.PlainList.{live};
ghost use Rattle.partition_map.specs.After.{AgreesWith, IsReadyFor};

use crate::cell::Cell;
use crate::prepare::Prepared;
use crate::refusal::refused_call;
use call_trail::CallRefusal;
use disk_trait::Disk;
use std::alloc::Global;

impl<D: Disk> Cell<D> {
    ghost use Rattle.call_trail.specs.declared.refusal.CallRefusal.TheVariants.{Fault, NoMemory};
    ghost use Rattle.disk_lane.specs.Lanes.{LaneImage, LaneEvent, HasFailedOn};
    ghost use Rattle.partition_cell.specs.Beyond.{OthersStay};
    ghost use Rattle.partition_cell.specs.Cells.{caches_of, Surviving, SurvivingBefore, NoneForgotten, IsSoundCell};
    ghost use Rattle.partition_cell.specs.Entered.{HasGrown, IsNotRenewed, IsNotEntered};
    ghost use Rattle.partition_cell.specs.Limits.{IsFit};
    ghost use Rattle.slot_board.specs.Slots.{told_by};

    /// Makes a prepared mutation durable, and changes the contents; where it is due, the store is built anew first, in this epoch.
    ///
    /// A fit cell isn't built anew. After a refusal the contents are as before; and either the renewal was refused, and the store and
    /// what was in flight are as before, or the mutation is in flight. Takes memory for a renewal, a batch at a time.
    pub fn enter(
        &mut self,
        alloc: Global,
        epoch: u64,
        prepared: Prepared,
    ) -> Result<(), CallRefusal>
        requires still { self.old.moving ≡ None }
        requires least { 1 ≤ epoch }
        requires epoch { epoch < 2 ^ 58 }
        requires ready { IsReadyFor (change_of prepared.mutation) self.old.maps }
        requires version { (IsFit self.old → ⊥) → told_by self.old.board + 1 < 2 ^ 58 }

        ensures applied { OnOk result ((changes : List Change) → AgreesWith changes self.old.maps → AgreesWith (changes ++ change_of prepared.mutation ∷ []) self.new.maps) }
        ensures sound { OnOk result (IsSoundCell self.new) }
        ensures grown { OnOk result (HasGrown self.old self.new epoch (length prepared.tail)) }
        ensures short { OnOk result (self.new.store.end ≤ 2 * live (caches_of self.old) + 65536 + length prepared.tail) }
        ensures refused { OnErr result ((self.new.maps ≡ self.old.maps) × IsNotEntered self.old self.new epoch prepared.mutation) }
        ensures owner { (self.new.owner ≡ self.old.owner) × (self.new.number ≡ self.old.number) × (self.new.moving ≡ None) }
        ensures known { NoneForgotten self.old.board self.new.board }

        // At every moment, in every image, the files stand for what was durable, or for it and what was in flight, or for it and
        // the mutation.
        ensures event { LaneEvent D.view self.old.owner self.old.disks self.new.disks (λ ms. Surviving self.old ms ⊎ SurvivingBefore self.old (change_of prepared.mutation) ms) }

        // Files 2 and up hold what they held, at every moment, in every image.
        ensures others { OthersStay D.view self.old.owner self.old.disks self.new.disks }

        ensures fault { (host : ℕ) → IsErrOf result (Fault host) → (host ≡ self.old.owner) × HasFailedOn D.view host self.old.disks self.new.disks }
        ensures only { OnErr result ((IsErrOf result NoMemory) ⊎ (IsErrOf result (Fault self.old.owner))) }

        // Where the disk's calls take no memory, it runs out in a renewal alone.
        ensures no_memory { IsErrOf result NoMemory → (disk : D) → slice_get self.old.disks self.old.owner ≡ Some disk → (D.view disk).spares → (IsFit self.old → ⊥) × IsNotRenewed self.old self.new }
    {
        self.make_fit(alloc, epoch)?;
        self.commit(prepared)
    }

    /// Builds the store anew where it is due.
    fn make_fit(&mut self, alloc: Global, epoch: u64) -> Result<(), CallRefusal>
        requires still { self.old.moving ≡ None }
        requires least { 1 ≤ epoch }
        requires epoch { epoch < 2 ^ 58 }
        requires version { (IsFit self.old → ⊥) → told_by self.old.board + 1 < 2 ^ 58 }
        ensures fit { OnOk result (IsFit self.new) }
        ensures grown { OnOk result (HasGrown self.old self.new epoch 0) }
        ensures refused { OnErr result ((IsFit self.old → ⊥) × IsNotRenewed self.old self.new) }
        ensures kept { (self.new.maps ≡ self.old.maps) × (self.new.owner ≡ self.old.owner) × (self.new.number ≡ self.old.number) × (self.new.moving ≡ None) }
        ensures known { NoneForgotten self.old.board self.new.board }
        ensures event { LaneEvent D.view self.old.owner self.old.disks self.new.disks (Surviving self.old) }
        ensures others { OthersStay D.view self.old.owner self.old.disks self.new.disks }
        ensures fault { (host : ℕ) → IsErrOf result (Fault host) → (host ≡ self.old.owner) × HasFailedOn D.view host self.old.disks self.new.disks }
        ensures only { OnErr result ((IsErrOf result NoMemory) ⊎ (IsErrOf result (Fault self.old.owner))) }
    {
        let _ = &self.owner;
        if !self.due() {
            return Ok(());
        }
        let host = self.owner;
        match self.rebuild(alloc, epoch) {
            Ok(_) => Ok(()),
            Err(refusal) => Err(refused_call(host, refusal)),
        }
    }
}
