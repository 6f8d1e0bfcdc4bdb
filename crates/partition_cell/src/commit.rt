//! A mutation is made durable.
ghost use Rattle.std.specs.Prelude.{◌≡◌, ◌≢◌, ◌⊎◌, ℕ, ◌+◌, ◌≤◌, List, [], ◌∷◌, ◌++◌, length, slice_get, OnOk, OnErr, IsErrOf, None, Some, Err};
ghost use Rattle.cache_model.specs.Change.{Change, change_of};
ghost use Rattle.partition_map.specs.After.{AgreesWith, IsReadyFor};

use crate::cell::Cell;
use crate::prepare::Prepared;
use crate::refusal::refused_call;
use cache_key::Mutation;
use call_trail::CallRefusal;
use disk_trait::Disk;

impl<D: Disk> Cell<D> {
    ghost use Rattle.call_trail.specs.declared.refusal.CallRefusal.TheVariants.{Fault, NoMemory};
    ghost use Rattle.disk_lane.specs.Lanes.{LaneEvent, HasFailedOn};
    ghost use Rattle.partition_cell.specs.Beyond.{OthersStay};
    ghost use Rattle.partition_cell.specs.Cells.{SurvivingBefore, IsSoundCell};

    /// Makes a mutation durable, and then changes the contents.
    ///
    /// Takes no memory but the disk's. After a refusal the contents are as before, and the mutation is in flight: a stop may
    /// show it or not. Four device calls on the owner's disk: write, sync, write, sync.
    pub fn commit(&mut self, prepared: Prepared) -> Result<(), CallRefusal>
        requires sound { IsSoundCell self.old }
        requires still { self.old.moving ≡ None }
        requires ready { IsReadyFor (change_of prepared.mutation) self.old.maps }

        ensures applied { OnOk result ((changes : List Change) → AgreesWith changes self.old.maps → AgreesWith (changes ++ change_of prepared.mutation ∷ []) self.new.maps) }
        ensures durable { OnOk result ((self.new.flight ≡ None) × (self.new.store.end ≡ self.old.store.end + length prepared.tail)) }
        ensures refused { OnErr result ((self.new.maps ≡ self.old.maps) × (self.new.store ≡ self.old.store) × (self.new.flight ≡ Some prepared.mutation)) }
        ensures kept { self.new ≡ record self.old { disks = self.new.disks; store = self.new.store; maps = self.new.maps; flight = self.new.flight } }
        ensures store { (self.new.store.id ≡ self.old.store.id) × (self.new.store.file ≡ self.old.store.file) }

        // At every moment, in every image, the files stand for what was durable, or for it and the mutation.
        ensures event { LaneEvent D.view self.old.owner self.old.disks self.new.disks (SurvivingBefore self.old (change_of prepared.mutation)) }

        // Files 2 and up hold what they held, at every moment, in every image.
        ensures others { OthersStay D.view self.old.owner self.old.disks self.new.disks }

        ensures fault { (host : ℕ) → IsErrOf result (Fault host) → (host ≡ self.old.owner) × HasFailedOn D.view host self.old.disks self.new.disks }
        ensures no_memory { IsErrOf result NoMemory → (disk : D) → slice_get self.old.disks self.old.owner ≡ Some disk → (D.view disk).spares → ⊥ }
        ensures only { OnErr result ((IsErrOf result NoMemory) ⊎ (IsErrOf result (Fault self.old.owner))) }
    {
        let host = self.owner;
        let Prepared { mutation, tail } = prepared;
        match self.store.append(&mut self.disks[host as usize], &tail) {
            Ok(()) => {
                self.map.apply(mutation);
                Ok(())
            }
            Err(refusal) => {
                set_in_flight(&mut self.flight, mutation);
                Err(refused_call(host, refusal))
            }
        }
    }
}

// The mutation is in flight.
//
// Apart, so that the proof of `commit` has no case for each kind of mutation that was in flight before.
fn set_in_flight(flight: &mut Option<Mutation>, mutation: Mutation)
    ensures { flight.new ≡ Some mutation }
{
    *flight = Some(mutation);
}
