//! A mutation is prepared: its memory is taken before the first device call.
ghost use Rattle.std.specs.Prelude.{◌≡◌, ◌≢◌, ℕ, ◌+◌, ◌*◌, ◌<◌, ◌≤◌, ◌^◌, List, [], ◌∷◌, length, IsTrue, ◌↔◌, IfOk, OnOk, IsErrOf, false, true, None, Some};
ghost use Rattle.cache_key.specs.declared.request.Mutation.{Mutation};
ghost use Rattle.cache_model.specs.Change.{Change, change_of};
ghost use Rattle.cache_model.specs.PlainList.{live, HasPairs};
ghost use Rattle.partition_map.specs.After.{AgreesWith, IsReadyFor};
ghost use Rattle.partition_cell.specs.Limits.{TakesRoom};

use crate::cell::Cell;
use cache_key::Mutation;
use cache_model::growth;
use call_trail::CallRefusal;
use disk_trait::Disk;
use record_form::{Group, encode_tail};
use std::alloc::{AllocError, Global};
use std::marker::Model;

/// The longest store of the contents that a mutation may lead to: 64 MiB.
const MOST_LIVE: u64 = 67_108_864;

/// How long a store may be beside twice the length that its contents need.
const SPARE_LENGTH: u64 = 65_536;

/// A mutation and the tail of its record: all that a commit needs beside the disk.
#[derive(Drop)]
pub struct Prepared {
    pub(crate) mutation: Mutation,
    pub(crate) tail: Vec<u8>,
}

impl Model for Prepared {
    ghost use Rattle.std.specs.Prelude.{◌≡◌, [], ◌∷◌};
    ghost use Rattle.record_form.specs.GroupText.{IsGroup, tail_text};
    ghost use Rattle.partition_cell.specs.Cells.{Prepared as PreparedSeen};

    ghost Value = { PreparedSeen };

    ghost view = { λ p. record { mutation = p.mutation; tail = p.tail.items } };

    ghost invariant = { λ p. IsGroup (p.mutation ∷ []) × (p.tail.items ≡ tail_text (p.mutation ∷ [])) };
}

impl Prepared {
    ghost use Rattle.partition_cell.specs.Entered.{record_length};

    /// The mutation that was prepared.
    pub fn mutation(&self) -> &Mutation
        ensures mutation { result.now ≡ self.now.mutation }
        ensures pairs { HasPairs self.now.mutation }
        ensures spelled { length self.now.tail ≡ record_length self.now.mutation }
    {
        &self.mutation
    }
}

impl<D: Disk> Cell<D> {
    ghost use Rattle.call_trail.specs.declared.refusal.CallRefusal.TheVariants.{Suspended, Pinned, TrailFull, StoreFull, VersionEnd, Fault};
    ghost use Rattle.partition_cell.specs.Cells.{caches_of, list_of, IsSoundCell};
    ghost use Rattle.partition_cell.specs.Limits.{IsFit, IsFullFor};
    ghost use Rattle.partition_cell.specs.declared.moving.Moving.{Moving};
    ghost use Rattle.slot_board.specs.Slots.{told_by};

    /// Whether the store is to be built anew before the next commit: it isn't sound, or it is longer than twice the length that
    /// its contents need and 65,536 bytes more.
    pub fn due(&self) -> bool
        ensures { (result ≡ false) ↔ IsFit self.now }
    {
        !self.is_sound() || self.is_long()
    }

    fn is_long(&self) -> bool
        ensures { IsTrue result ↔ (2 * live (caches_of self.now) + 65536 < self.now.store.end) }
    {
        self.store.end > 2 * self.map.live() + SPARE_LENGTH
    }

    /// Prepares a mutation, and takes all memory that its commit needs. The contents stay, also after a refusal.
    ///
    /// A batch has 1 to 64 pairs. Refused in this order: where a store is being built, where the mutation finds no room, where the
    /// store has to be built anew and no version is left, and where memory runs out.
    pub fn prepare(&mut self, alloc: Global, mutation: Mutation) -> Result<Prepared, CallRefusal>
        requires pairs { HasPairs mutation }

        ensures prepared { IfOk result (λ prepared. (prepared.mutation ≡ mutation) × IsReadyFor (change_of mutation) self.new.maps) }
        ensures kept { self.new ≡ record self.old { maps = self.new.maps } }
        ensures contents { (changes : List Change) → AgreesWith changes self.old.maps → AgreesWith changes self.new.maps }
        ensures same { caches_of self.new ≡ caches_of self.old }

        ensures pinned { (to : ℕ) → IsErrOf result (Pinned to) ↔ ((moving : Moving) × (self.old.moving ≡ Some moving) × (moving.host ≡ to)) }
        ensures full { (length : ℕ) → IsErrOf result (StoreFull length) ↔ ((self.old.moving ≡ None) × (length ≡ live (caches_of self.old)) × IsFullFor self.old mutation) }
        ensures version_end { IsErrOf result VersionEnd ↔ ((self.old.moving ≡ None) × (IsFullFor self.old mutation → ⊥) × (IsFit self.old → ⊥) × (told_by self.old.board + 1 ≡ 2 ^ 58)) }
        ensures still { OnOk result ((self.old.moving ≡ None) × (IsFullFor self.old mutation → ⊥) × ((IsFit self.old → ⊥) → told_by self.old.board + 1 < 2 ^ 58)) }
        ensures no_fault { (host : ℕ) → ¬ IsErrOf result (Fault host) }
        ensures no_suspension { (number : ℕ) → ¬ IsErrOf result (Suspended number) }
        ensures no_trail { ¬ IsErrOf result TrailFull }
    {
        if let Some(to) = self.target() {
            return Err(CallRefusal::Pinned { to });
        }
        if self.is_full_for(&mutation) {
            return Err(CallRefusal::StoreFull {
                live: self.map.live(),
            });
        }
        if self.due() && self.next_version().is_none() {
            return Err(CallRefusal::VersionEnd);
        }
        match self.make_ready(alloc, mutation) {
            Ok(prepared) => Ok(prepared),
            Err(_) => Err(CallRefusal::NoMemory),
        }
    }

    /// Whether the mutation finds no room.
    fn is_full_for(&self, mutation: &Mutation) -> bool
        ensures { IsTrue result ↔ IsFullFor self.now mutation.now }
    {
        takes_room(mutation) && self.map.live() + growth(mutation) > MOST_LIVE
    }

    /// Takes the memory for the mutation and its record.
    fn make_ready(&mut self, alloc: Global, mutation: Mutation) -> Result<Prepared, AllocError>
        requires pairs { HasPairs mutation }
        requires still { self.old.moving ≡ None }
        ensures prepared { IfOk result (λ prepared. (prepared.mutation ≡ mutation) × IsReadyFor (change_of mutation) self.new.maps) }
        ensures kept { self.new ≡ record self.old { maps = self.new.maps } }
        ensures contents { (changes : List Change) → AgreesWith changes self.old.maps → AgreesWith changes self.new.maps }
        ensures same { caches_of self.new ≡ caches_of self.old }
    {
        self.map.ready(&mutation)?;
        record_of(alloc, mutation)
    }
}

/// The mutation with the tail of its record.
fn record_of(alloc: Global, mutation: Mutation) -> Result<Prepared, AllocError>
    requires pairs { HasPairs mutation }
    ensures { IfOk result (λ prepared. prepared.mutation ≡ mutation) }
{
    let group = Group::one(alloc, mutation)?;
    let tail = encode_tail(alloc, &group)?;
    match group.into_mutations().pop() {
        Some(mutation) => Ok(Prepared { mutation, tail }),
        None => unreachable!(),
    }
}

/// Whether the mutation may lengthen a store of the contents.
fn takes_room(mutation: &Mutation) -> bool
    ensures { IsTrue result ↔ TakesRoom mutation.now }
{
    match mutation {
        Mutation::Put(_, _, _) | Mutation::Ensure(_) | Mutation::Batch(_, _) => true,
        Mutation::Remove(_, _) | Mutation::Truncate(_) | Mutation::Destroy(_) => false,
    }
}
