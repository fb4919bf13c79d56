//! All that a lane has pending.

ghost use Rattle.std.specs.Prelude.{◌≡◌, ◌⊎◌, ℕ, ◌+◌, ◌<◌, ◌≤◌, ◌==◌, ◌||◌, List, length, find, None, IfErr, OnErr, OnOk};
ghost use Rattle.std.specs.List.{list_any};
ghost use Rattle.pm_objects.specs.declared.calls.Operation.TheVariants.{DeferFree, Reserve, SetValue, WriteReserved};
ghost use Rattle.pm_objects.specs.declared.pool.PoolView.{PoolView};
ghost use Rattle.pm_objects.specs.declared.refusal.Refusal.TheVariants as refusal;
ghost use Rattle.solo_model.specs.Actions.{Pending, is_to_be_freed, max_actions, none_pending, pending_count, with_free, with_put, with_reservation, with_set};
ghost use Rattle.solo_model.specs.Outside.{Outside, refusal_outside};
ghost use Rattle.solo_crash.specs.CallBlocks.{block_of};
ghost use Rattle.solo_crash.specs.OnActions.{defer_refusal, set_refusal};
ghost use Rattle.solo_crash.specs.Reserving.{IsReserveReason, IsReservedOne, put_refusal};
ghost use Rattle.solo_pending.specs.declared.pending.Reserved.{Reserved};
ghost use Rattle.solo_pending.specs.AllPending.{AreReservedOnce, IsPendingAs, count_in, object_of};
ghost use Rattle.solo_pending.specs.Pending.{action_of, refusal_in, unhindered};

use crate::actions::{MAX_ACTIONS, SetAction};
use arrayvec::ArrayVec;
use pm_image::Block;
use pm_layout::{Class, LINE_BYTES, LINES_PER_CHUNK, MAX_SIZE, WORD_BYTES, class_of};
use pm_objects::{Oid, Refusal};

/// A new object that is reserved. Its bytes are in the pool's words. pmemobj_reserve(3).
#[derive(Clone, Copy, Debug, PartialEq, Eq, Default, Drop)]
pub struct Reserved {
    /// Where it is to stand, in bytes from the pool's begin.
    pub off: u64,
    /// Its type.
    pub kind: u64,
    /// Its size, in bytes.
    pub size: u64,
}

impl Reserved {
    /// The block of its size's class: a line of 64 bytes before the object, and those that hold its bytes.
    pub fn block(self) -> Block
        requires behind { 64 ≤ self.off }
        requires size { self.size ≤ 262080 }
        ensures { result ≡ block_of (object_of self) }
    {
        let lines = match class_of(self.size) {
            Class::Lines(lines) => lines,
            Class::Chunks(chunks) => LINES_PER_CHUNK * chunks,
        };
        Block {
            place: self.off - LINE_BYTES,
            lines,
        }
    }
}

/// What a lane has pending until it publishes or cancels it: each list in the order in which its actions were asked for, 63 in all.
/// pmemobj_publish(3).
#[derive(Drop)]
pub struct PendingActions {
    /// Words of objects that are to be set.
    pub sets: ArrayVec<SetAction, 63>,
    /// Objects that are to be freed.
    pub frees: ArrayVec<Oid, 63>,
    /// New objects that are reserved.
    pub reserved: ArrayVec<Reserved, 63>,
    /// One of these was asked for of an object that was to be freed already, for which a publish is refused.
    pub late: bool,
}

impl PendingActions {
    /// Nothing is pending.
    pub fn new() -> PendingActions
        ensures { IsPendingAs result none_pending }
    {
        PendingActions {
            sets: ArrayVec::new(),
            frees: ArrayVec::new(),
            reserved: ArrayVec::new(),
            late: false,
        }
    }

    /// How many actions are pending, of whatever kind.
    pub fn count(&self) -> usize
        ensures listed { result ≡ count_in self.now }
        ensures pending { (p : Pending) → IsPendingAs self.now p → result ≡ pending_count p }
    {
        self.frees.len() + self.reserved.len() + self.sets.len()
    }

    /// Makes a set-value pending. `Unaligned` where its bytes don't begin at a multiple of eight, else `ActionsFull` where 63 actions are pending: the refusals
    /// of the plain model's call, whatever the pool; each leaves what is pending as it was. That its object is to be freed is no reason: the publish is
    /// refused for that. pmemobj_set_value(3).
    pub fn set(&mut self, action: SetAction) -> Result<(), Refusal>
        ensures answers { (pool : PoolView) (p : Pending) → IsPendingAs self.old p → refusal_outside unhindered (record { pool = pool; actions = p }) (SetValue action.id action.off action.value) ≡ refusal_in result }
        ensures reason { (p : Pending) → IsPendingAs self.old p → refusal_in result ≡ set_refusal action.off p }
        ensures causes { IfErr result (λ r. (r ≡ refusal.Unaligned) ⊎ (r ≡ refusal.ActionsFull)) }
        ensures done { OnOk result ((p : Pending) → IsPendingAs self.old p → IsPendingAs self.new (with_set (action_of action) p)) }
        ensures unchanged { OnErr result (self.new ≡ self.old) }
    {
        self.check_set(action.off)?;
        self.late = self.is_late_on(action.id.off);
        self.sets.push(action);
        Ok(())
    }

    /// Makes the free of an object pending. `ActionsFull` where 63 actions are pending: the refusal of the plain model's call, whatever the pool; it leaves what is
    /// pending as it was. pmemobj_defer_free(3).
    pub fn defer_free(&mut self, id: Oid) -> Result<(), Refusal>
        ensures answers { (pool : PoolView) (p : Pending) → IsPendingAs self.old p → refusal_outside unhindered (record { pool = pool; actions = p }) (DeferFree id) ≡ refusal_in result }
        ensures reason { (p : Pending) → IsPendingAs self.old p → refusal_in result ≡ defer_refusal p }
        ensures full { IfErr result (λ r. r ≡ refusal.ActionsFull) }
        ensures done { OnOk result ((p : Pending) → IsPendingAs self.old p → IsPendingAs self.new (with_free id p)) }
        ensures unchanged { OnErr result (self.new ≡ self.old) }
    {
        self.check_room()?;
        self.late = self.is_late_on(id.off);
        self.frees.push(id);
        Ok(())
    }

    /// Whether an object of this size, in bytes, may be reserved. `BadSize` where it is 0 or above 262,080, else `ActionsFull` where 63 actions are pending: the
    /// refusals of the plain model's call, where a block is found for it, whatever the pool. pmemobj_reserve(3).
    pub fn check_reserve(&self, size: u64) -> Result<(), Refusal>
        ensures answers { (pool : PoolView) (p : Pending) (kind : ℕ) → IsPendingAs self.now p → refusal_outside unhindered (record { pool = pool; actions = p }) (Reserve size kind) ≡ refusal_in result }
        ensures reason { IfErr result (λ r. (p : Pending) → IsPendingAs self.now p → IsReserveReason p size r) }
        ensures causes { IfErr result (λ r. (r ≡ refusal.BadSize) ⊎ (r ≡ refusal.ActionsFull)) }
        ensures some { OnOk result (1 ≤ size) }
        ensures most { OnOk result (size ≤ 262080) }
        ensures listed { OnOk result (count_in self.now < 63) }
        ensures room { OnOk result ((p : Pending) → IsPendingAs self.now p → pending_count p < max_actions) }
    {
        if size == 0 || size > MAX_SIZE {
            return Err(Refusal::BadSize);
        }
        self.check_room()
    }

    /// A new object is reserved, of zeros. pmemobj_reserve(3).
    pub fn reserve(&mut self, reserved: Reserved)
        requires { count_in self.old < 63 }
        ensures { (p : Pending) → IsPendingAs self.old p → IsPendingAs self.new (with_reservation reserved.off reserved.kind reserved.size p) }
    {
        self.reserved.push(reserved);
    }

    /// Whether so many bytes may be written into what is reserved, from a byte of it on, in a pool of this id. `NotReserved` where nothing is reserved there, else
    /// `OutOfRange` where they pass its end: the refusals of the plain model's call. Once they are written, what is pending is listed as it was. pmemobj_reserve(3).
    pub fn check_put(&self, pool: u64, id: Oid, off: u64, len: u64) -> Result<(), Refusal>
        ensures answers { (view : PoolView) (p : Pending) (bytes : List ℕ) → view.id ≡ pool → length bytes ≡ len → IsPendingAs self.now p → refusal_outside unhindered (record { pool = view; actions = p }) (WriteReserved id off bytes) ≡ refusal_in result }
        ensures reason { (p : Pending) → IsPendingAs self.now p → refusal_in result ≡ put_refusal pool p id off len }
        ensures inside { OnOk result ((p : Pending) → IsPendingAs self.now p → (has : IsReservedOne pool p id) × (off + len ≤ length has.one.bytes)) }
        ensures written { OnOk result ((p : Pending) (bytes : List ℕ) → IsPendingAs self.now p → AreReservedOnce p → length bytes ≡ len → IsPendingAs self.now (with_put id.off off bytes p)) }
    {
        if id.pool != pool {
            return Err(Refusal::NotReserved);
        }
        let Some(one) = self.reserved_at(id.off) else {
            return Err(Refusal::NotReserved);
        };
        if off > one.size || len > one.size - off {
            return Err(Refusal::OutOfRange);
        }
        Ok(())
    }

    /// Nothing is pending any more. pmemobj_publish(3), pmemobj_cancel(3).
    pub fn clear(&mut self)
        ensures { IsPendingAs self.new none_pending }
    {
        self.sets.clear();
        self.frees.clear();
        self.reserved.clear();
        self.late = false;
    }

    /// Whether a set-value at this offset in its object may be made pending.
    fn check_set(&self, off: u64) -> Result<(), Refusal>
        ensures reason { (p : Pending) → IsPendingAs self.now p → refusal_in result ≡ set_refusal off p }
        ensures causes { IfErr result (λ r. (r ≡ refusal.Unaligned) ⊎ (r ≡ refusal.ActionsFull)) }
        ensures room { OnOk result (count_in self.now < 63) }
    {
        if off % WORD_BYTES != 0 {
            return Err(Refusal::Unaligned);
        }
        self.check_room()
    }

    /// Whether there is room for one more action.
    fn check_room(&self) -> Result<(), Refusal>
        ensures reason { (p : Pending) → IsPendingAs self.now p → refusal_in result ≡ defer_refusal p }
        ensures full { IfErr result (λ r. r ≡ Refusal.ActionsFull) }
        ensures many { OnErr result (63 ≤ count_in self.now) }
        ensures room { OnOk result (count_in self.now < 63) }
    {
        if self.count() >= MAX_ACTIONS {
            return Err(Refusal::ActionsFull);
        }
        Ok(())
    }

    /// Whether an action is late, as one was or as one on the object at this offset would be now.
    fn is_late_on(&self, off: u64) -> bool
        ensures { (p : Pending) → IsPendingAs self.now p → result ≡ (is_to_be_freed p off || p.late) }
    {
        self.late || self.frees_at(off)
    }

    /// Whether an object is to be freed at this offset.
    fn frees_at(&self, off: u64) -> bool
        ensures { result ≡ list_any (λ (id : Oid). id.off == off) self.now.frees.items }
    {
        self.frees.as_slice().iter().any(|id| id.off == off)
    }

    /// The first that is reserved at this offset.
    fn reserved_at(&self, off: u64) -> Option<Reserved>
        ensures { result ≡ find (λ (r : Reserved). r.off == off) self.now.reserved.items }
    {
        self.reserved
            .as_slice()
            .iter()
            .copied()
            .find(|reserved| reserved.off == off)
    }
}
