//! The files whose writing was refused.
ghost use Rattle.std.specs.Prelude.{◌≡◌, ◌↔◌, ◌++◌, ◌∷◌, [], Contains, IsTrue, IsOk, OnOk, OnErr};
ghost use Rattle.roster_book.specs.Places.{is_same_place, places_but, IsEachOnce};

use crate::place::Place;
use std::alloc::{AllocError, Global};
use std::marker::Model;

/// Files of service disks that a refused call may have left in part, each once, in the order in which they were added: until
/// such a file is written or erased again, nothing is read from it.
#[derive(Debug, Drop)]
pub struct Doubts {
    places: Vec<Place>,
}

impl Model for Doubts {
    ghost use Rattle.std.specs.Prelude.{List};
    ghost use Rattle.roster_book.specs.Places.{IsEachOnce};
    ghost use Rattle.roster_book.specs.declared.place.Place.{Place};

    ghost Value = { List Place };

    ghost view = { λ list. list.places.items };

    ghost invariant = { λ list. IsEachOnce list.places.items };
}

impl Doubts {
    /// No files. Takes no memory.
    pub fn new(alloc: Global) -> Doubts
        ensures { result ≡ [] }
    {
        Doubts {
            places: Vec::new(alloc),
        }
    }

    /// The files in their order.
    pub fn as_slice(&self) -> &[Place]
        ensures places { result.now ≡ self.now }
        ensures once { IsEachOnce self.now }
    {
        self.places.as_slice()
    }

    /// Whether this file is one of them.
    pub fn contains(&self, place: Place) -> bool
        ensures { IsTrue result ↔ Contains self.now place }
    {
        is_among(self.places.as_slice(), place)
    }

    /// Adds a file at the end, unless it is there. Takes memory where it isn't.
    pub fn add(&mut self, place: Place) -> Result<(), AllocError>
        ensures there { Contains self.old place → IsOk result × (self.new ≡ self.old) }
        ensures added { ¬ Contains self.old place → OnOk result (self.new ≡ self.old ++ place ∷ []) }
        ensures unchanged { OnErr result (self.new ≡ self.old) }
    {
        add_place(&mut self.places, place)
    }

    /// Takes a file out, if it is there; the others stay in their order. Takes no memory.
    pub fn remove(&mut self, place: Place)
        ensures { self.new ≡ places_but place self.old }
    {
        remove_place(&mut self.places, place);
    }
}

// Whether this file is one of them.
fn is_among(places: &[Place], place: Place) -> bool
    ensures { IsTrue result ↔ Contains places.now place }
{
    places.contains(&place)
}

// Adds a file at the end, unless it is there.
fn add_place(places: &mut Vec<Place>, place: Place) -> Result<(), AllocError>
    requires { IsEachOnce places.old.items }
    ensures there { Contains places.old.items place → IsOk result × (places.new.items ≡ places.old.items) }
    ensures added { ¬ Contains places.old.items place → OnOk result (places.new.items ≡ places.old.items ++ place ∷ []) }
    ensures unchanged { OnErr result (places.new.items ≡ places.old.items) }
    ensures once { IsEachOnce places.new.items }
{
    if is_among(places.as_slice(), place) {
        return Ok(());
    }
    places.push(place)?;
    Ok(())
}

// Takes a file out, if it is there.
fn remove_place(places: &mut Vec<Place>, place: Place)
    requires { IsEachOnce places.old.items }
    ensures others { places.new.items ≡ places_but place places.old.items }
    ensures once { IsEachOnce places.new.items }
{
    places.retain(|each| !is_same_place(each, place));
}

// Whether they are the same file of the same host.
fn is_same_place(one: &Place, other: Place) -> bool
    ensures { result ≡ is_same_place one.now other }
{
    one.host == other.host && one.file == other.file
}
