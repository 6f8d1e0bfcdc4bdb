//! The kinds of the files, and the greatest version that was told.
ghost use Rattle.std.specs.Prelude.{◌≡◌, ℕ, ◌+◌, ◌*◌, ◌<◌, ◌≤◌, ◌^◌, max, IfOk, MatchOption, vec_len, IsTrue, ◌≢◌, false};
ghost use Rattle.slot_board.specs.declared.board.SlotKind.TheVariants.{Doubt};

use crate::aging::{doubt_in, supersede_all};
use std::alloc::{AllocError, Global};

/// What is known of a file in every crash image.
#[derive(Clone, Copy, Debug, PartialEq, Eq, Drop)]
pub enum SlotKind {
    /// Shorter than 41 bytes: too short to be sealed.
    Empty,
    /// The first byte is there, and it is zero. A short file of which that is known is blank, not empty.
    Blank,
    /// Perhaps sealed, whole, with a version below the current one.
    Stale,
    /// Perhaps sealed, whole, with a version above the current one, and with the contents of the list, or of the list and
    /// what is in flight.
    Doubt,
    /// Sealed: the one store that commits go to.
    Current,
    /// Nothing is known: the host isn't recorded.
    Unknown,
}

/// A file's kind, and the version that was told of it: that of the store that may be sealed there.
#[derive(Clone, Copy, Debug, PartialEq, Eq, Drop)]
pub struct Slot {
    pub kind: SlotKind,
    pub version: u64,
}

/// The slots of files 0 and 1 on each host, and the greatest version that was told.
#[derive(Drop)]
pub struct Board {
    slots: Vec<Slot>,
    hosts: u16,
    told: u64,
    ghost many: { vec_len slots ≡ 2 * hosts },
    ghost below: { told < 2 ^ 58 },
}

impl Board {
    ghost use Rattle.slot_board.specs.Slots.{slot_at, hosts_of, told_by, target_of, unknown_slot, IsSet, IsSuperseded};

    /// A board of so many hosts, numbered from 0, of which nothing is known. It counts as told version 0.
    ///
    /// Takes memory for two slots a host.
    pub fn of(alloc: Global, hosts: u16) -> Result<Board, AllocError>
        ensures unknown { IfOk result (λ board. (host file : ℕ) → slot_at board host file ≡ unknown_slot) }
        ensures hosts { IfOk result (λ board. hosts_of board ≡ hosts) }
        ensures told { IfOk result (λ board. told_by board ≡ 0) }
    {
        let unknown = Slot {
            kind: SlotKind::Unknown,
            version: 0,
        };
        let mut slots = Vec::new(alloc);
        for _ in 0..2 * hosts as u32 {
            slots.push(unknown)?;
        }
        Ok(Board {
            slots,
            hosts,
            told: 0,
        })
    }

    /// How many hosts there are.
    pub fn hosts(&self) -> u16
        ensures { result ≡ hosts_of self.now }
    {
        self.hosts
    }

    /// The file's kind and the version that was told of it.
    pub fn slot(&self, host: u16, file: u8) -> Slot
        requires host { host < hosts_of self.now }
        requires file { file ≤ 1 }
        ensures { result ≡ slot_at self.now host file }
    {
        self.slots[2 * host as usize + file as usize]
    }

    /// The file's kind.
    pub fn kind(&self, host: u16, file: u8) -> SlotKind
        requires host { host < hosts_of self.now }
        requires file { file ≤ 1 }
        ensures { result ≡ (slot_at self.now host file).kind }
    {
        self.slot(host, file).kind
    }

    /// Enters what is now known of a file: its kind, and the version of the store that may be sealed in it.
    ///
    /// A version of 0 says that there is none. Every other slot stays.
    pub fn set(&mut self, host: u16, file: u8, kind: SlotKind, version: u64)
        requires host { host < hosts_of self.old }
        requires file { file ≤ 1 }
        requires version { version < 2 ^ 58 }
        ensures { IsSet self.old self.new host file (record { kind = kind; version = version }) }
    {
        self.slots[2 * host as usize + file as usize] = Slot { kind, version };
        if self.told < version {
            self.told = version;
        }
    }

    /// Makes stale what was current or in doubt, on every host: a newer store is sealed.
    ///
    /// The versions stay. The newer store's own slot is set after this.
    pub fn supersede(&mut self)
        ensures { IsSuperseded self.old self.new }
    {
        supersede_all(&mut self.slots);
    }

    /// Whether a file of any host is in doubt.
    pub fn has_doubt(&self) -> bool
        ensures some { IsTrue result → (h : ℕ) × (f : ℕ) × (f ≤ 1) × ((slot_at self.now h f).kind ≡ Doubt) }
        ensures none { result ≡ false → (h f : ℕ) → f ≤ 1 → (slot_at self.now h f).kind ≢ Doubt }
    {
        doubt_in(&self.slots)
    }

    /// One more than the greatest version that was told: a version that no store has. `None` where that is 2^58, which
    /// is no version.
    pub fn next_version(&self) -> Option<u64>
        ensures { MatchOption result (told_by self.now + 1 ≡ 2 ^ 58) (λ version. (version ≡ told_by self.now + 1) × (version < 2 ^ 58)) }
    {
        let version = self.told + 1;
        if version < 1 << 58 {
            Some(version)
        } else {
            None
        }
    }

    /// The file of the host in which a store is to be built: the least that is empty or blank, else the least that isn't
    /// current.
    pub fn choose_target(&self, host: u16) -> u8
        requires { host < hosts_of self.now }
        ensures { result ≡ target_of (slot_at self.now host 0).kind (slot_at self.now host 1).kind }
    {
        match (self.kind(host, 0), self.kind(host, 1)) {
            (SlotKind::Empty | SlotKind::Blank, _) => 0,
            (_, SlotKind::Empty | SlotKind::Blank) => 1,
            (SlotKind::Current, _) => 1,
            (_, _) => 0,
        }
    }
}
