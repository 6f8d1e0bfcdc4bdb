//! A cell and its trail.
ghost use Rattle.std.specs.Prelude.{◌≡◌, ◌↔◌, [], Bool, IsTrue, IfOk, IfErr};
ghost use Rattle.partition_cell.specs.Cells.{caches_of};

use call_trail::{HasTrail, Trail};
use disk_trait::Disk;
use partition_cell::Cell;
use std::alloc::Global;
use std::marker::Model;

/// A partition's cell, with the trail of what was asked of it.
#[derive(Drop)]
pub struct Kept<D: Disk> {
    pub(crate) cell: Cell<D>,
    pub(crate) trail: Trail,
}

impl<D: Disk> Model for Kept<D> {
    ghost use Rattle.cache_model.specs.Contents.{AreContentsAfter};
    ghost use Rattle.call_trail.specs.Trails.{trail_changes};
    ghost use Rattle.kept_cell.specs.KeptCells.{KeptCell};
    ghost use Rattle.partition_cell.specs.Cells.{caches_of};

    ghost Value = { KeptCell D };

    ghost view = { λ k. record { cell = k.cell; trail = k.trail } };

    ghost invariant = { λ k. AreContentsAfter (trail_changes k.trail.base k.trail.entries) (caches_of k.cell) };
}

impl<D: Disk> Kept<D> {
    ghost use Rattle.cache_model.specs.Contents.{AreContentsAfter};
    ghost use Rattle.call_trail.specs.Trails.{trail_changes};
    ghost use Rattle.partition_cell.specs.Cells.{IsSoundCell};

    /// A cell with a trail that begins now. Takes memory for a copy of the contents; an error gives the cell back.
    pub fn begin(alloc: Global, cell: Cell<D>) -> Result<Kept<D>, Cell<D>>
        ensures cell { IfOk result (λ kept. kept.cell ≡ cell) }
        ensures trail { IfOk result (λ kept. (kept.trail.base ≡ caches_of cell) × (kept.trail.entries ≡ [])) }
        ensures back { IfErr result (λ back. back ≡ cell) }
    {
        match cell.contents().copy(alloc) {
            Ok(base) => Ok(Kept {
                cell,
                trail: Trail::begin(alloc, base),
            }),
            Err(_) => Err(cell),
        }
    }

    /// The cell.
    pub fn cell(&self) -> &Cell<D>
        ensures { result.now ≡ self.now.cell }
    {
        &self.cell
    }

    /// The law of a kept cell: its contents are those after its trail. And it is sound or not. Changes nothing.
    pub fn follows_its_trail(&self)
        ensures contents { AreContentsAfter (trail_changes self.now.trail.base self.now.trail.entries) (caches_of self.now.cell) }
        ensures sound { (sound : Bool) × (IsTrue sound ↔ IsSoundCell self.now.cell) }
    {
        let _ = self.cell.is_sound();
    }

    /// Gives the cell, without its trail.
    pub fn into_cell(self) -> Cell<D>
        ensures { result ≡ self.cell }
    {
        self.cell
    }
}

impl<D: Disk> HasTrail for Kept<D> {
    fn trail(&self) -> &Trail {
        &self.trail
    }
}
