//! A group of mutations, and the bytes that frame it.
ghost use Rattle.std.specs.Prelude.{◌≡◌, ◌↔◌, ◌⊎◌, ◌≤◌, ◌<◌, [], ◌∷◌, ◌++◌, length, IfOk, OnOk, IfErr, OnErr, IsErrAnd};
ghost use Rattle.cache_model.specs.PlainList.{HasPairs};
ghost use Rattle.record_form.specs.declared.group.GroupRefusal.TheVariants.{Full};
ghost use Rattle.record_form.specs.GroupText.{IsGroup, group_text, most_mutations, most_group_bytes};

use crate::length::length_of;
use cache_key::Mutation;
use std::alloc::{AllocError, Global};
use std::marker::Model;

/// The tag of a put.
pub(crate) const PUT_TAG: u8 = 1;

/// The tag of a remove.
pub(crate) const REMOVE_TAG: u8 = 2;

/// The tag of an ensure.
pub(crate) const ENSURE_TAG: u8 = 3;

/// The tag of a truncate.
pub(crate) const TRUNCATE_TAG: u8 = 4;

/// The tag of a destroy.
pub(crate) const DESTROY_TAG: u8 = 5;

/// The tag of a batch, the last one.
pub(crate) const BATCH_TAG: u8 = 6;

/// The most mutations of a group.
pub const MOST_MUTATIONS: usize = 64;

/// The most bytes of a group's payload.
pub const MOST_GROUP_BYTES: usize = 8_388_608;

/// The bytes of a record before its payload: the gate, and the length in four bytes.
pub const RECORD_HEAD: usize = 5;

/// A closed gate: no record begins at it. Any other byte is an open one.
pub const CLOSED_GATE: u8 = 0;

/// Why a mutation isn't added to a group.
#[derive(Clone, Copy, Debug, PartialEq, Eq)]
pub enum GroupRefusal {
    /// There are 64 mutations, or the payload would have more than 8,388,608 bytes.
    Full,
    /// There was no memory.
    NoMemory,
}

/// Mutations of one partition that are kept together or not at all: 1 to 64.
#[derive(Debug, Drop)]
pub struct Group {
    mutations: Vec<Mutation>,
    size: u64,
}

impl Model for Group {
    ghost use Rattle.std.specs.Prelude.{List, length, ◌≡◌};
    ghost use Rattle.cache_key.specs.declared.request.Mutation.{Mutation};
    ghost use Rattle.record_form.specs.GroupText.{IsGroup, group_text};

    ghost Value = { List Mutation };

    ghost view = { λ group. group.mutations.items };

    ghost invariant = { λ group. IsGroup group.mutations.items × (group.size ≡ length (group_text group.mutations.items)) };
}

impl Group {
    /// The group of one mutation. Takes memory.
    #[tactic(auto, using(crate::proofs::GroupLengthLemmas::group_of_one, crate::proofs::GroupLengthLemmas::length_of_one))]
    pub fn one(alloc: Global, mutation: Mutation) -> Result<Group, AllocError>
        requires { HasPairs mutation }
        ensures { IfOk result (λ group. group ≡ mutation ∷ []) }
    {
        let size = 1 + length_of(&mutation);
        let mut mutations = Vec::new(alloc);
        mutations.push(mutation)?;
        Ok(Group { mutations, size })
    }

    /// The group of mutations that were read, whose payload has this size.
    pub(crate) fn read(mutations: Vec<Mutation>, size: u64) -> Group
        requires group { IsGroup mutations.items }
        requires size { size ≡ length (group_text mutations.items) }
        ensures { result ≡ mutations.items }
    {
        Group { mutations, size }
    }

    /// Adds a mutation at the end.
    ///
    /// Takes memory. A refusal gives the mutation back.
    #[tactic(auto, using(crate::proofs::GroupLengthLemmas::group_more, crate::proofs::GroupLengthLemmas::group_pushed))]
    pub fn push(&mut self, mutation: Mutation) -> Result<(), (GroupRefusal, Mutation)>
        requires { HasPairs mutation }
        ensures ok { OnOk result (self.new ≡ self.old ++ mutation ∷ []) }
        ensures full { IsErrAnd result (λ refusal. refusal.0 ≡ Full)
            ↔ ((most_mutations ≤ length self.old) ⊎ (most_group_bytes < length (group_text (self.old ++ mutation ∷ [])))) }
        ensures unchanged { OnErr result (self.new ≡ self.old) }
        ensures back { IfErr result (λ refusal. refusal.1 ≡ mutation) }
    {
        let added = length_of(&mutation);
        if self.mutations.len() >= MOST_MUTATIONS {
            return Err((GroupRefusal::Full, mutation));
        }
        if self.size + added > MOST_GROUP_BYTES as u64 {
            return Err((GroupRefusal::Full, mutation));
        }
        match self.mutations.push(mutation) {
            Ok(()) => {
                self.size += added;
                Ok(())
            }
            Err(refused) => Err((GroupRefusal::NoMemory, refused.value)),
        }
    }

    /// Its mutations in their order.
    pub fn mutations(&self) -> &[Mutation]
        ensures mutations { result.now ≡ self.now }
        ensures limits { IsGroup self.now }
    {
        self.mutations.as_slice()
    }

    /// Gives its mutations back, in their order. Takes no memory.
    pub fn into_mutations(self) -> Vec<Mutation>
        ensures mutations { result.items ≡ self }
        ensures limits { IsGroup self }
    {
        self.mutations
    }

    /// How many bytes its payload has.
    pub fn size(&self) -> u64
        ensures size { result ≡ length (group_text self.now) }
        ensures most { result ≤ most_group_bytes }
    {
        self.size
    }
}
