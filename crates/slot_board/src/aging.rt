//! Slots of all hosts at once.
ghost use Rattle.std.specs.Prelude.{◌≡◌, ℕ, get_or, ◌<◌, ◌≢◌, IsTrue, false, length};
ghost use Rattle.slot_board.specs.declared.board.SlotKind.TheVariants.{Doubt};
ghost use Rattle.slot_board.specs.Slots.{unknown_slot, superseded};

use crate::board::{Slot, SlotKind};

/// Makes stale what was current or in doubt.
pub(crate) fn supersede_all(slots: &mut [Slot])
    ensures { (k : ℕ) → get_or slots.new k unknown_slot ≡ superseded (get_or slots.old k unknown_slot) }
{
    for place in 0..slots.len() {
        slots[place] = superseded_slot(slots[place]);
    }
}

fn superseded_slot(slot: Slot) -> Slot
    ensures { result ≡ superseded slot }
{
    let kind = match slot.kind {
        SlotKind::Current | SlotKind::Doubt => SlotKind::Stale,
        kind => kind,
    };
    Slot {
        kind,
        version: slot.version,
    }
}

/// Whether one of the slots is in doubt.
pub(crate) fn doubt_in(slots: &[Slot]) -> bool
    ensures some { IsTrue result → (k : ℕ) × (k < length slots.now) × ((get_or slots.now k unknown_slot).kind ≡ Doubt) }
    ensures none { result ≡ false → (k : ℕ) → (get_or slots.now k unknown_slot).kind ≢ Doubt }
{
    for place in 0..slots.len() {
        if matches!(slots[place].kind, SlotKind::Doubt) {
            return true;
        }
    }
    false
}
