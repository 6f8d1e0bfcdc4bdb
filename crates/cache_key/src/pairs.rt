//! A list of pairs of a key and a value: at most 64.
ghost use Rattle.std.specs.Prelude.{◌≡◌, ◌≤◌, ◌↔◌, ◌++◌, ◌∷◌, ◌&&◌, [], length, slice_get, All, IfOk, IsNone, OnOk, OnErr, IsErrOf, nat_eq};
ghost use Rattle.std.specs.Option.{option_map};
ghost use Rattle.std.specs.Cmp.{partial_equiv_from_equiv, on_equiv, and_equiv};
ghost use Rattle.std.specs.Cmp.Lexicographic.{pointwise, nat_list_eq_equiv, lists_equiv};
ghost use Rattle.cache_key.specs.Names.{IsPair, most_pairs};

use crate::fault::PairsFault;
use crate::keys::{Key, Value};
use crate::limits::MOST_PAIRS;
use std::alloc::{AllocError, Global};
use std::marker::Model;

/// Pairs of a key and a value, in their order. A key may stand in several.
#[derive(Debug, Drop)]
pub struct Pairs {
    pairs: Vec<(Key, Value)>,
}

impl Model for Pairs {
    ghost use Rattle.std.specs.Prelude.{ℕ, List, ◌≤◌, length, All};
    ghost use Rattle.cache_key.specs.Names.{IsPair, most_pairs};

    ghost Value = { List (List ℕ × List ℕ) };

    ghost view = { λ list. list.pairs.items };

    ghost invariant = { λ list. (length list.pairs.items ≤ most_pairs) × All IsPair list.pairs.items };
}

impl Pairs {
    /// No pairs. Takes no memory.
    pub fn new(alloc: Global) -> Pairs
        ensures { result ≡ [] }
    {
        Pairs {
            pairs: Vec::new(alloc),
        }
    }

    /// How many there are.
    pub fn len(&self) -> u32
        ensures count { result ≡ length self.now }
        ensures most { length self.now ≤ most_pairs }
    {
        self.pairs.len() as u32
    }

    /// The pair with this index, from 0, if there are so many.
    pub fn get(&self, index: u32) -> Option<(&Key, &Value)>
        ensures pair { option_map (λ pair. (pair.0.now, pair.1.now)) result ≡ slice_get self.now index }
        ensures past_the_end { IsNone result ↔ (length self.now ≤ index) }
    {
        match self.pairs.get(index as usize) {
            Some(pair) => Some((&pair.0, &pair.1)),
            None => None,
        }
    }

    /// The pairs in their order.
    pub fn as_slice(&self) -> &[(Key, Value)]
        ensures pairs { result.now ≡ self.now }
        ensures most { length self.now ≤ most_pairs }
        ensures limits { All IsPair self.now }
    {
        self.pairs.as_slice()
    }

    /// The pairs in their order, to take. Takes no memory.
    pub fn into_list(self) -> Vec<(Key, Value)>
        ensures { result.items ≡ self }
    {
        self.pairs
    }

    /// Adds a pair at the end. Takes memory.
    pub fn push(&mut self, key: Key, value: Value) -> Result<(), PairsFault>
        ensures ok { OnOk result (self.new ≡ self.old ++ (key, value) ∷ []) }
        ensures full { IsErrOf result PairsFault.Full ↔ (most_pairs ≤ length self.old) }
        ensures unchanged { OnErr result (self.new ≡ self.old) }
    {
        push_pair(&mut self.pairs, key, value)
    }

    /// Makes an equal one. Takes memory.
    pub fn copy(&self) -> Result<Self, AllocError>
        ensures { IfOk result (λ copied. copied ≡ self.now) }
    {
        let pairs = copy_pairs(*self.pairs.allocator(), self.pairs.as_slice())?;
        Ok(Pairs { pairs })
    }
}

// Adds a pair where there is room.
fn push_pair(pairs: &mut Vec<(Key, Value)>, key: Key, value: Value) -> Result<(), PairsFault>
    requires most { length pairs.now.items ≤ most_pairs }
    requires limits { All IsPair pairs.now.items }
    ensures ok { OnOk result (pairs.new.items ≡ pairs.old.items ++ (key, value) ∷ []) }
    ensures full { IsErrOf result PairsFault.Full ↔ (most_pairs ≤ length pairs.old.items) }
    ensures unchanged { OnErr result (pairs.new.items ≡ pairs.old.items) }
    ensures most { length pairs.new.items ≤ most_pairs }
    ensures limits { All IsPair pairs.new.items }
{
    if pairs.len() >= MOST_PAIRS {
        return Err(PairsFault::Full);
    }
    let _key = key.text();
    let _value = value.text();
    match pairs.push((key, value)) {
        Ok(()) => Ok(()),
        Err(_) => Err(PairsFault::NoMemory),
    }
}

// The same pairs once more.
fn copy_pairs(alloc: Global, pairs: &[(Key, Value)]) -> Result<Vec<(Key, Value)>, AllocError>
    ensures { IfOk result (λ copied. copied.items ≡ pairs.now) }
{
    let mut copied = Vec::with_capacity(alloc, pairs.len())?;
    for pair in pairs {
        copied.push((pair.0.copy()?, pair.1.copy()?))?;
    }
    Ok(copied)
}

impl PartialEq for Pairs {
    ghost eq = { pointwise (λ p q. pointwise nat_eq p.0 q.0 && pointwise nat_eq p.1 q.1) };

    ghost laws = { partial_equiv_from_equiv (lists_equiv (and_equiv (on_equiv (λ p. p.0) nat_list_eq_equiv) (on_equiv (λ p. p.1) nat_list_eq_equiv))) };

    fn eq(&self, other: &Self) -> bool {
        self.as_slice() == other.as_slice()
    }
}

impl Eq for Pairs {
    ghost laws = { lists_equiv (and_equiv (on_equiv (λ p. p.0) nat_list_eq_equiv) (on_equiv (λ p. p.1) nat_list_eq_equiv)) };
}
