ghost use Rattle.std.specs.Prelude.{◌≡◌, [], ◌∷◌, Some, None, true, false};
ghost use Rattle.pm_objects.specs.declared.calls.Operation.TheVariants as operation;
ghost use Rattle.pm_objects.specs.declared.history.TxErr.TheVariants as error;
ghost use Rattle.pm_objects.specs.declared.history.Value.TheVariants as value;
ghost use Rattle.pm_objects.specs.declared.refusal.Refusal.TheVariants as refusal;
ghost use Rattle.pm_model.specs.Items.{bytes_of, members_of};
ghost use Rattle.pm_model.specs.Pending.{none_pending, want_to_write};
ghost use Rattle.pm_model.specs.Transaction.{ended, idle, is_locked, processed};
ghost use Rattle.pm_model.specs.Refusals.{refusal_of};
ghost use Rattle.pm_model.specs.Inside.{value_of};
ghost use Rattle.pm_model.specs.Outside.{after_reply_outside, refusal_outside, value_outside};
ghost use Rattle.pm_model.specs.CallStep.{CallStep};
ghost use Rattle.pm_model.specs.Samples.{after_allocating, allocating, at_work, id_at, inside_after, items_after, null_id, outside, root_id, sample, unhindered, idle_lanes, with_all};
ghost use Rattle.pm_model.specs.declared.stage.Stage.TheVariants as stage;

/// Worked examples: what each operation of a transaction replies, and what it leaves of a small
/// pool. No code runs.
pub fn operations_by_example()
    ensures begin { at_work.locks ≡ record { off = 16512; write = true } ∷ [] }
    ensures lock { is_locked (inside_after
        (operation.Lock (record { id = id_at 16768; write = false })) None at_work).locks 16768 false
        ≡ true }
    ensures add_range { (inside_after (operation.AddRange root_id 0 8) None at_work).recorded
        ≡ 2064 ∷ [] }
    ensures write { bytes_of (inside_after
        (operation.Write root_id 2 (9 ∷ 9 ∷ [])) None at_work).items 16512
        ≡ 5 ∷ 0 ∷ 9 ∷ 9 ∷ 0 ∷ 0 ∷ 0 ∷ 0 ∷ [] }
    ensures read { value_of at_work (operation.Read root_id 0 2)
        ≡ Some (value.Bytes (5 ∷ 0 ∷ [])) }
    ensures increment { value_of at_work (operation.Increment root_id 0 7)
        ≡ Some (value.Number 12) }
    ensures alloc { (inside_after (operation.Alloc 2 9)
        (Some (value.Offset 17024)) at_work).items 17024
        ≡ Some (record { kind = 9; bytes = 0 ∷ 0 ∷ []; members = []; list = None }) }
    ensures free { (inside_after (operation.Free (id_at 16768)) None with_all).items 16768 ≡ None }
    ensures reserve { (inside_after (operation.Reserve 1 9)
        (Some (value.Offset 17024)) at_work).pending.reserved
        ≡ record { off = 17024; kind = 9; bytes = 0 ∷ [] } ∷ [] }
    ensures put { (inside_after (operation.WriteReserved (id_at 17024) 0 (4 ∷ [])) None
        (inside_after (operation.Reserve 1 9)
        (Some (value.Offset 17024)) at_work)).pending.reserved
        ≡ record { off = 17024; kind = 9; bytes = 4 ∷ [] } ∷ [] }
    ensures defer_free { (inside_after
        (operation.DeferFree (id_at 16768)) None with_all).pending.frees ≡ id_at 16768 ∷ [] }
    ensures set_value { (inside_after (operation.SetValue root_id 0 1) None at_work).items 16512
        ≡ at_work.items 16512 }
    ensures publish { (inside_after operation.Publish None
        (inside_after (operation.DeferFree (id_at 16768)) None with_all)).items 16768 ≡ None }
    ensures commit { bytes_of (inside_after operation.Commit None
        (inside_after operation.Publish None
        (inside_after (operation.SetValue root_id 0 1) None at_work))).items 16512
        ≡ 1 ∷ 0 ∷ 0 ∷ 0 ∷ 0 ∷ 0 ∷ 0 ∷ 0 ∷ [] }
    ensures cancel { (inside_after operation.Cancel None
        (inside_after (operation.DeferFree root_id) None at_work)).pending ≡ none_pending }
    ensures abort { (inside_after (operation.Abort 0) None
        (inside_after (operation.Free (id_at 16768)) None with_all)).items 16768
        ≡ sample.items 16768 }
    ensures abort_error { (inside_after (operation.Abort 3) None at_work).error ≡ error.User 3 }
    ensures inner_commit { (inside_after operation.Commit None
        (inside_after (operation.Begin []) None at_work)).stage ≡ stage.Work }
    ensures inner_abort { (ended (inside_after (operation.Abort 0) None
        (inside_after (operation.Begin []) None at_work))).stage ≡ stage.OnAbort }
    ensures process { (processed (processed at_work)).stage ≡ stage.Finally }
{}

/// Worked examples: the first refusal of an operation of a transaction. No code runs.
pub fn refusals_by_example()
    ensures not_added { refusal_of unhindered at_work (operation.Write root_id 0 (1 ∷ []))
        ≡ Some refusal.NotAdded }
    ensures added { refusal_of unhindered
        (inside_after (operation.AddRange root_id 0 8) None at_work)
        (operation.Write root_id 0 (1 ∷ [])) ≡ None }
    ensures not_locked { refusal_of unhindered at_work (operation.Read (id_at 16768) 0 1)
        ≡ Some refusal.NotLocked }
    ensures freed { refusal_of unhindered
        (inside_after (operation.Free (id_at 16768)) None with_all)
        (operation.Read (id_at 16768) 0 1) ≡ Some refusal.NoObject }
    ensures made_and_freed { refusal_of unhindered
        (inside_after (operation.Free (id_at 17024)) None
        (inside_after (operation.Alloc 2 9) (Some (value.Offset 17024)) at_work))
        (operation.Free (id_at 17024)) ≡ Some refusal.NoObject }
    ensures root_kept { refusal_of unhindered at_work (operation.Free root_id)
        ≡ Some refusal.RootKept }
    ensures listed { refusal_of unhindered with_all (operation.Free (id_at 16640))
        ≡ Some refusal.Listed }
    ensures out_of_range { refusal_of unhindered at_work (operation.Read root_id 7 2)
        ≡ Some refusal.OutOfRange }
    ensures empty_at_end { refusal_of unhindered at_work (operation.Read root_id 8 0) ≡ None }
    ensures bad_size { refusal_of unhindered at_work (operation.Alloc 0 1) ≡ Some refusal.BadSize }
    ensures no_space { refusal_of (record unhindered { full = true }) at_work
        (operation.Alloc 1 1) ≡ Some refusal.NoSpace }
    ensures busy { refusal_of (record unhindered { busy = true }) at_work
        (operation.Lock (want_to_write (id_at 16768))) ≡ Some refusal.Busy }
    ensures missing { refusal_of (record unhindered { missing = 16768 ∷ [] }) at_work
        (operation.Lock (want_to_write (id_at 16768))) ≡ Some refusal.NoObject }
    ensures no_place { refusal_of unhindered at_work (operation.Lock (want_to_write (id_at 100)))
        ≡ Some refusal.NoObject }
    ensures unaligned { refusal_of unhindered at_work (operation.SetValue root_id 3 1)
        ≡ Some refusal.Unaligned }
    ensures not_reserved { refusal_of unhindered at_work
        (operation.WriteReserved root_id 0 (1 ∷ [])) ≡ Some refusal.NotReserved }
    ensures late { refusal_of unhindered
        (inside_after (operation.DeferFree (id_at 16768)) None
        (inside_after (operation.DeferFree (id_at 16768)) None with_all)) operation.Publish
        ≡ Some refusal.NoObject }
    ensures deep { refusal_of unhindered (record at_work { level = 64 }) (operation.Begin [])
        ≡ Some refusal.Deep }
    ensures not_work { refusal_of unhindered (inside_after (operation.Abort 0) None at_work)
        (operation.Read root_id 0 1) ≡ Some refusal.NotWork }
    ensures no_tx { refusal_of unhindered (idle sample none_pending) operation.Commit
        ≡ Some refusal.NoTx }
{}

/// Worked examples: what each call outside of a transaction replies, and what it leaves of a small
/// pool. No code runs.
pub fn calls_outside_by_example()
    ensures alloc_to { bytes_of (items_after
        (operation.AllocTo (record { id = id_at 16896; off = 0 }) 2 9)
        (Some (value.Offset 17152))) 16896
        ≡ 7 ∷ 0 ∷ 0 ∷ 0 ∷ 0 ∷ 0 ∷ 0 ∷ 0 ∷ 0 ∷ 67 ∷ 0 ∷ 0 ∷ 0 ∷ 0 ∷ 0 ∷ 0 ∷ [] }
    ensures free_at { items_after (operation.FreeAt
        (record { id = id_at 16896; off = 0 })) None 16768 ≡ None }
    ensures free_null { refusal_outside unhindered outside
        (operation.FreeAt (record { id = root_id; off = 0 })) ≡ Some refusal.OutOfRange }
    ensures realloc_at { items_after
        (operation.ReallocAt (record { id = id_at 16896; off = 0 }) 3 8)
        (Some (value.Offset 17152)) 17152
        ≡ Some (record { kind = 8; bytes = 3 ∷ 4 ∷ 0 ∷ []; members = []; list = None }) }
    ensures usable { value_outside sample (operation.UsableSize (id_at 16640))
        ≡ Some (value.Number 64) }
    ensures type_number { value_outside sample (operation.TypeNumber (id_at 16640))
        ≡ Some (value.Number 1) }
    ensures insert { members_of (items_after
        (operation.Insert root_id (record { dest = id_at 16640; before = true })
        (id_at 16768)) None) 16512 ≡ 16768 ∷ 16640 ∷ [] }
    ensures insert_tail { members_of
        (items_after (operation.Insert root_id (record { dest = null_id; before = false })
        (id_at 16768)) None) 16512 ≡ 16640 ∷ 16768 ∷ [] }
    ensures insert_listed { refusal_outside unhindered outside
        (operation.Insert root_id (record { dest = null_id; before = true }) (id_at 16640))
        ≡ Some refusal.Listed }
    ensures insert_new { items_after
        (operation.InsertNew root_id (record { dest = null_id; before = true }) 1 9)
        (Some (value.Offset 17152)) 17152
        ≡ Some (record { kind = 9; bytes = 0 ∷ []; members = []; list = Some 16512 }) }
    ensures remove { members_of (items_after
        (operation.Remove root_id (id_at 16640) false) None) 16512 ≡ [] }
    ensures remove_free { items_after (operation.Remove root_id (id_at 16640) true) None 16640
        ≡ None }
    ensures remove_other { refusal_outside unhindered outside
        (operation.Remove root_id (id_at 16768) false) ≡ Some refusal.NotInList }
    ensures move_to { members_of (items_after
        (operation.MoveTo root_id (id_at 16768) (record { dest = null_id; before = true })
        (id_at 16640)) None) 16768 ≡ 16640 ∷ [] }
    ensures members { value_outside sample (operation.Members root_id)
        ≡ Some (value.Members (16640 ∷ [])) }
    ensures short { refusal_outside (record unhindered { room = 0 }) outside
        (operation.Members root_id) ≡ Some (refusal.Short 1) }
    ensures root { value_outside sample (operation.Root 8) ≡ Some (value.Offset 16512) }
    ensures root_listed { refusal_outside unhindered outside (operation.Root 9)
        ≡ Some refusal.Listed }
    ensures root_size { value_outside sample operation.RootSize ≡ Some (value.Number 8) }
    ensures publish { (after_reply_outside operation.Publish None
        (after_reply_outside (operation.DeferFree
        (id_at 16768)) None outside)).pool.items 16768 ≡ None }
{}

/// A worked example of a whole call: a transaction that makes an object in a pool without any.
/// No code runs.
pub fn a_call_by_example()
    ensures { CallStep idle_lanes allocating after_allocating }
{}
