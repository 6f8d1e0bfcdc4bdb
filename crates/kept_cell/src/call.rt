//! A client's call.
ghost use Rattle.std.specs.Prelude.{◌≡◌, ◌⊎◌, ℕ, ◌+◌, ◌<◌, ◌≤◌, ◌^◌, List, [], ◌∷◌, ◌++◌, length, slice_get, IfOk, OnOk, OnErr, IsErrOf, None, Some};
ghost use Rattle.cache_key.specs.declared.request.Mutation.{Mutation};
ghost use Rattle.cache_model.specs.Change.{change_of};
ghost use Rattle.cache_model.specs.PlainList.{HasPairs};
ghost use Rattle.cache_model.specs.Reply.{mutation_of, reply_after};
ghost use Rattle.call_trail.specs.Trails.{trail_changes, most_entries};
ghost use Rattle.kept_cell.specs.KeptCells.{request_asking};
ghost use Rattle.partition_map.specs.After.{IsReadyFor};

use crate::asked::request_of;
use crate::kept::Kept;
use cache_key::{Mutation, Request};
use cache_model::{as_mutation, is_mutation};
use call_trail::{CallRefusal, Entry, Receipt};
use disk_trait::Disk;
use partition_cell::Prepared;
use std::alloc::{AllocError, Global};

impl<D: Disk> Kept<D> {
    ghost use Rattle.call_trail.specs.declared.refusal.CallRefusal.TheVariants.{Fault, NoMemory};
    ghost use Rattle.disk_lane.specs.Lanes.{LaneImage, LaneEvent, HasFailedOn};
    ghost use Rattle.kept_cell.specs.KeptCells.{entry_of, receipt_after, IsAskable, ReadCauses, ChangeCauses, IsReadied, IsHeldBack, IsHeldEarly};
    ghost use Rattle.partition_cell.specs.Beyond.{OthersStay};
    ghost use Rattle.partition_cell.specs.Cells.{caches_of, Surviving, SurvivingBefore, IsSoundCell};
    ghost use Rattle.partition_cell.specs.Entered.{record_length, HasGrown, IsNotRenewed, IsNotEntered};
    ghost use Rattle.partition_cell.specs.Limits.{IsFit};
    ghost use Rattle.slot_board.specs.Slots.{told_by};

    /// Answers a request, and enters it into the trail: a get or a size at once, any other once its mutation is durable. Where it is
    /// due, the store is built anew first, in this epoch.
    ///
    /// A `PutAll` has pairs. After a refusal the contents and the trail are as before; where the owner's disk failed or ran out of
    /// memory, either what was in flight still is, or the mutation is. Takes memory for three copies of the request and two of the
    /// reply, beside the record: all before the first device call but that of a renewal.
    pub fn call(
        &mut self,
        alloc: Global,
        epoch: u64,
        client: u16,
        number: u64,
        request: Request,
    ) -> Result<Receipt, CallRefusal>
        requires least { 1 ≤ epoch }
        requires epoch { epoch < 2 ^ 58 }
        requires pairs { IsAskable request }

        ensures receipt { IfOk result (λ receipt. receipt ≡ receipt_after self.old client number request) }
        ensures entered { IfOk result (λ receipt. self.new.trail.entries ≡ self.old.trail.entries ++ entry_of receipt ∷ []) }
        ensures base { self.new.trail.base ≡ self.old.trail.base }
        ensures place { (self.new.cell.owner ≡ self.old.cell.owner) × (self.new.cell.number ≡ self.old.cell.number) × (self.new.cell.moving ≡ self.old.cell.moving) }
        ensures refused { OnErr result ((self.new.trail.entries ≡ self.old.trail.entries) × (caches_of self.new.cell ≡ caches_of self.old.cell)) }

        // A read calls no disk and leaves the cell.
        ensures read { mutation_of request ≡ None → (self.new.cell ≡ self.old.cell) × ReadCauses self.old result }

        // Of a mutation, at every moment, in every image, the files stand for what was durable, or for it and what was in flight, or
        // for it and the mutation.
        ensures event { (mutation : Mutation) → mutation_of request ≡ Some mutation → LaneEvent D.view self.old.cell.owner self.old.cell.disks self.new.cell.disks (λ ms. Surviving self.old.cell ms ⊎ SurvivingBefore self.old.cell (change_of mutation) ms) }
        ensures others { (mutation : Mutation) → mutation_of request ≡ Some mutation → OthersStay D.view self.old.cell.owner self.old.cell.disks self.new.cell.disks }
        ensures durable { (mutation : Mutation) → mutation_of request ≡ Some mutation → OnOk result (IsSoundCell self.new.cell) }

        // Which store the cell has then: a fit cell's is the old one, and any other's was built anew.
        ensures grown { (mutation : Mutation) → mutation_of request ≡ Some mutation → OnOk result (HasGrown self.old.cell self.new.cell epoch (record_length mutation)) }
        ensures left { (mutation : Mutation) → mutation_of request ≡ Some mutation → OnErr result (IsHeldBack self.old.cell self.new.cell epoch mutation) }
        ensures failed { (mutation : Mutation) (host : ℕ) → mutation_of request ≡ Some mutation → IsErrOf result (Fault host) → IsNotEntered self.old.cell self.new.cell epoch mutation }
        ensures early { OnErr result (IsReadied self.old.cell self.new.cell ⊎ IsErrOf result NoMemory ⊎ IsErrOf result (Fault self.old.cell.owner)) }

        ensures causes { (mutation : Mutation) → mutation_of request ≡ Some mutation → ChangeCauses self.old mutation result }
        ensures fault { (host : ℕ) → IsErrOf result (Fault host) → HasFailedOn D.view host self.old.cell.disks self.new.cell.disks }

        // Where the owner's disk takes no memory, the program's own ran out before the commit.
        ensures no_memory { (mutation : Mutation) → mutation_of request ≡ Some mutation → IsErrOf result NoMemory → (disk : D) → slice_get self.old.cell.disks self.old.cell.owner ≡ Some disk → (D.view disk).spares → IsHeldEarly self.old.cell self.new.cell }
    {
        if !is_mutation(&request) {
            return self.read(alloc, client, number, request);
        }
        match as_mutation(request) {
            Some(mutation) => self.change(alloc, epoch, client, number, mutation),
            None => unreachable!(),
        }
    }

    /// Answers a request that changes nothing.
    fn read(
        &mut self,
        alloc: Global,
        client: u16,
        number: u64,
        request: Request,
    ) -> Result<Receipt, CallRefusal>
        requires read { mutation_of request ≡ None }
        ensures receipt { IfOk result (λ receipt. receipt ≡ receipt_after self.old client number request) }
        ensures entered { IfOk result (λ receipt. self.new.trail.entries ≡ self.old.trail.entries ++ entry_of receipt ∷ []) }
        ensures base { self.new.trail.base ≡ self.old.trail.base }
        ensures cell { self.new.cell ≡ self.old.cell }
        ensures refused { OnErr result (self.new.trail.entries ≡ self.old.trail.entries) }
        ensures causes { ReadCauses self.old result }
    {
        if self.trail.is_full() {
            return Err(CallRefusal::TrailFull);
        }
        match self.spell(alloc, client, number, request) {
            Ok((entry, receipt)) => {
                self.trail.push(entry);
                Ok(receipt)
            }
            Err(_) => Err(CallRefusal::NoMemory),
        }
    }

    /// Makes a mutation durable, and enters its request.
    fn change(
        &mut self,
        alloc: Global,
        epoch: u64,
        client: u16,
        number: u64,
        mutation: Mutation,
    ) -> Result<Receipt, CallRefusal>
        requires least { 1 ≤ epoch }
        requires epoch { epoch < 2 ^ 58 }
        requires pairs { HasPairs mutation }
        ensures receipt { IfOk result (λ receipt. receipt ≡ receipt_after self.old client number (request_asking mutation)) }
        ensures entered { IfOk result (λ receipt. self.new.trail.entries ≡ self.old.trail.entries ++ entry_of receipt ∷ []) }
        ensures base { self.new.trail.base ≡ self.old.trail.base }
        ensures place { (self.new.cell.owner ≡ self.old.cell.owner) × (self.new.cell.number ≡ self.old.cell.number) × (self.new.cell.moving ≡ self.old.cell.moving) }
        ensures refused { OnErr result ((self.new.trail.entries ≡ self.old.trail.entries) × (caches_of self.new.cell ≡ caches_of self.old.cell)) }
        ensures event { LaneEvent D.view self.old.cell.owner self.old.cell.disks self.new.cell.disks (λ ms. Surviving self.old.cell ms ⊎ SurvivingBefore self.old.cell (change_of mutation) ms) }
        ensures grown { OnOk result (HasGrown self.old.cell self.new.cell epoch (record_length mutation)) }
        ensures left { OnErr result (IsHeldBack self.old.cell self.new.cell epoch mutation) }
        ensures failed { (host : ℕ) → IsErrOf result (Fault host) → IsNotEntered self.old.cell self.new.cell epoch mutation }
        ensures early { OnErr result (IsReadied self.old.cell self.new.cell ⊎ IsErrOf result NoMemory ⊎ IsErrOf result (Fault self.old.cell.owner)) }
        ensures others { OthersStay D.view self.old.cell.owner self.old.cell.disks self.new.cell.disks }
        ensures no_memory { IsErrOf result NoMemory → (disk : D) → slice_get self.old.cell.disks self.old.cell.owner ≡ Some disk → (D.view disk).spares → IsHeldEarly self.old.cell self.new.cell }
        ensures durable { OnOk result (IsSoundCell self.new.cell) }
        ensures causes { ChangeCauses self.old mutation result }
        ensures fault { (host : ℕ) → IsErrOf result (Fault host) → HasFailedOn D.view host self.old.cell.disks self.new.cell.disks }
    {
        self.cell.survives();
        if let Some(to) = self.cell.target() {
            return Err(CallRefusal::Pinned { to });
        }
        if self.trail.is_full() {
            return Err(CallRefusal::TrailFull);
        }
        let prepared = self.cell.prepare(alloc, mutation)?;
        let (entry, receipt) = match self.spell_change(alloc, client, number, &prepared) {
            Ok(spelled) => spelled,
            Err(_) => return Err(CallRefusal::NoMemory),
        };
        self.finish(alloc, epoch, prepared, entry)?;
        Ok(receipt)
    }

    /// Makes what was prepared durable, and adds its entry.
    fn finish(
        &mut self,
        alloc: Global,
        epoch: u64,
        prepared: Prepared,
        entry: Entry,
    ) -> Result<(), CallRefusal>
        requires least { 1 ≤ epoch }
        requires epoch { epoch < 2 ^ 58 }
        requires still { self.old.cell.moving ≡ None }
        requires ready { IsReadyFor (change_of prepared.mutation) self.old.cell.maps }
        requires version { (IsFit self.old.cell → ⊥) → told_by self.old.cell.board + 1 < 2 ^ 58 }
        requires room { 0 < self.old.trail.room }
        requires more { length self.old.trail.entries < most_entries }
        requires asked { entry.request ≡ request_asking prepared.mutation }
        requires right { entry.reply ≡ reply_after (trail_changes self.old.trail.base self.old.trail.entries) entry.request }
        ensures entered { OnOk result (self.new.trail.entries ≡ self.old.trail.entries ++ entry ∷ []) }
        ensures base { self.new.trail.base ≡ self.old.trail.base }
        ensures place { (self.new.cell.owner ≡ self.old.cell.owner) × (self.new.cell.number ≡ self.old.cell.number) × (self.new.cell.moving ≡ self.old.cell.moving) }
        ensures refused { OnErr result ((self.new.trail.entries ≡ self.old.trail.entries) × (self.new.cell.maps ≡ self.old.cell.maps)) }
        ensures event { LaneEvent D.view self.old.cell.owner self.old.cell.disks self.new.cell.disks (λ ms. Surviving self.old.cell ms ⊎ SurvivingBefore self.old.cell (change_of prepared.mutation) ms) }
        ensures grown { OnOk result (HasGrown self.old.cell self.new.cell epoch (record_length prepared.mutation)) }
        ensures left { OnErr result (IsNotEntered self.old.cell self.new.cell epoch prepared.mutation) }
        ensures others { OthersStay D.view self.old.cell.owner self.old.cell.disks self.new.cell.disks }
        ensures no_memory { IsErrOf result NoMemory → (disk : D) → slice_get self.old.cell.disks self.old.cell.owner ≡ Some disk → (D.view disk).spares → (IsFit self.old.cell → ⊥) × IsNotRenewed self.old.cell self.new.cell }
        ensures durable { OnOk result (IsSoundCell self.new.cell) }
        ensures fault { (host : ℕ) → IsErrOf result (Fault host) → (host ≡ self.old.cell.owner) × HasFailedOn D.view host self.old.cell.disks self.new.cell.disks }
        ensures only { OnErr result ((IsErrOf result NoMemory) ⊎ (IsErrOf result (Fault self.old.cell.owner))) }
    {
        let _ = self.cell.contents();
        let _ = prepared.mutation();
        self.cell.enter(alloc, epoch, prepared)?;
        self.trail.push(entry);
        Ok(())
    }

    /// The entry and the receipt of a mutation, with room for the entry.
    fn spell_change(
        &mut self,
        alloc: Global,
        client: u16,
        number: u64,
        prepared: &Prepared,
    ) -> Result<(Entry, Receipt), AllocError>
        ensures spelled { IfOk result (λ spelled. (spelled.1 ≡ receipt_after self.old client number (request_asking prepared.now.mutation)) × (spelled.0 ≡ entry_of spelled.1)) }
        ensures room { OnOk result (0 < self.new.trail.room) }
        ensures cell { self.new.cell ≡ self.old.cell }
        ensures trail { (self.new.trail.entries ≡ self.old.trail.entries) × (self.new.trail.base ≡ self.old.trail.base) }
    {
        let request = request_of(prepared.mutation())?;
        self.spell(alloc, client, number, request)
    }

    /// The entry and the receipt of a request, with room for the entry.
    fn spell(
        &mut self,
        alloc: Global,
        client: u16,
        number: u64,
        request: Request,
    ) -> Result<(Entry, Receipt), AllocError>
        ensures spelled { IfOk result (λ spelled. (spelled.1 ≡ receipt_after self.old client number request) × (spelled.0 ≡ entry_of spelled.1)) }
        ensures room { OnOk result (0 < self.new.trail.room) }
        ensures cell { self.new.cell ≡ self.old.cell }
        ensures trail { (self.new.trail.entries ≡ self.old.trail.entries) × (self.new.trail.base ≡ self.old.trail.base) }
    {
        let _ = self.cell.contents();
        let reply = self.cell.answer(alloc, &request)?;
        let entry = Entry {
            client,
            number,
            request: request.copy()?,
            reply: reply.copy()?,
        };
        self.trail.reserve()?;
        let receipt = Receipt {
            partition: self.cell.partition(),
            place: self.trail.len(),
            client,
            number,
            request,
            reply,
        };
        Ok((entry, receipt))
    }
}
