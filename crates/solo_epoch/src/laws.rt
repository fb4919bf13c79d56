ghost use Rattle.std.specs.Prelude.{◌≡◌, ◌≢◌, ◌↔◌, ℕ, ◌+◌, ◌*◌, ◌<◌, ◌≤◌, Bool, IsTrue, true, false, All, Contains, List, [], ◌∷◌, ◌++◌, length, map, slice_index, Option, None, Some};
ghost use Rattle.std.specs.Int.{bit_at};
ghost use Rattle.pm_header.specs.declared.header.Header.{Header};
ghost use Rattle.pm_objects.specs.Pool.{block_lines};
ghost use Rattle.pm_objects.specs.declared.calls.Operation.{Operation};
ghost use Rattle.pm_objects.specs.declared.calls.Want.{Want};
ghost use Rattle.pm_objects.specs.declared.history.TxErr.{TxErr};
ghost use Rattle.pm_objects.specs.declared.history.Value.{Value};
ghost use Rattle.pm_objects.specs.declared.ids.Oid.{Oid};
ghost use Rattle.pm_objects.specs.declared.pool.PoolView.{PoolView};
ghost use Rattle.pm_layout.specs.Sizes.{class_of, descriptor_of};
ghost use Rattle.pm_layout.specs.declared.shape.Shape.{Shape};
ghost use Rattle.pm_layout.specs.declared.class.Class.TheVariants.{Lines};
ghost use Rattle.pm_image.specs.declared.block.Block.{Block};
ghost use Rattle.pm_image.specs.Blocks.{blocks, descriptor_word};
ghost use Rattle.pm_image.specs.HeapFaults.{heap_fault};
ghost use Rattle.pm_image.specs.Logs.{recovered_at};
ghost use Rattle.pm_image.specs.Means.{IsMeaning};
ghost use Rattle.solo_memory.specs.Keep.{IsKeptImage};
ghost use Rattle.solo_memory.specs.Solo.{Sees, Solo};
ghost use Rattle.solo_model.specs.Actions.{Action, max_entries};
ghost use Rattle.solo_model.specs.History.{opened};
ghost use Rattle.solo_model.specs.Names.{Replays};
ghost use Rattle.solo_model.specs.declared.stage.Stage.{Stage};
ghost use Rattle.solo_view.specs.declared.occ.Occ.{Occ};
ghost use Rattle.solo_view.specs.declared.occ.Occ.TheVariants.{Zone};
ghost use Rattle.solo_view.specs.Founds.{IsAlone};
ghost use Rattle.solo_view.specs.Held.{is_held};
ghost use Rattle.solo_view.specs.Log.Phase.{Idle, Open};
ghost use Rattle.solo_view.specs.Occupancy.{is_taken};
ghost use Rattle.solo_view.specs.Steps.{Step};
ghost use Rattle.solo_view.specs.Steps.Step.{Draw};
ghost use Rattle.solo_view.specs.View.{Lock, View};
ghost use Rattle.solo_view.specs.Views.{changes_heap, after, occ_in, reserves};
ghost use Rattle.solo_world.specs.Heap.{IsOcc};
ghost use Rattle.solo_world.specs.History.{Entry};
ghost use Rattle.solo_world.specs.Lanes.{IsOfShape};
ghost use Rattle.solo_world.specs.Lawful.{Allowed};
ghost use Rattle.solo_world.specs.Memory.{Memory, occ_at};
ghost use Rattle.solo_world.specs.Memory.Location.{PoolWord};
ghost use Rattle.solo_world.specs.Opening.{Opening};
ghost use Rattle.solo_world.specs.World.{Views, World};
ghost use Rattle.solo_crash.specs.HeapChanges.{AreDisjoint, HeapChange, MayBeFreed, MayChange, run_at};
ghost use Rattle.solo_crash.specs.NewObjects.{AreFreeChunks, IsFreeInRun, IsFreshBlock};
ghost use Rattle.solo_crash.specs.Held.{HoldsImage, HoldsPool};
ghost use Rattle.solo_crash.specs.Publishing.Published.{Changes, Performs};
ghost use Rattle.solo_crash.specs.Publishing.{AreInOrder, Published, all_blocks_published, all_pool_published};
ghost use Rattle.solo_crash.specs.Alone.{BeginsAgain, HasDrainedSlots, MeansCalls, WorksAlone, kept_numbered, standing};
ghost use Rattle.solo_crash.specs.CallBlocks.{LeavesReserved, MayPrecede, NewObject, TellsOfRoot, block_of, blocks_in, is_freed_in, reserved_in};
ghost use Rattle.solo_crash.specs.OpenCall.{IsCommitted, IsUnderWay, Turns};
ghost use Rattle.solo_crash.specs.Operations.{AllocatesObject, BeginsCall, FreesFound, IsMade, KeepsFound, Tells, entries_so_far};
ghost use Rattle.solo_crash.specs.Pending.{acts_alone, pending_in, state_alone};
ghost use Rattle.solo_crash.specs.Reserved.{IsBorneOut, IsReservedFor, IsUnusedChunk, root_in};
ghost use Rattle.solo_crash.specs.Reserving.{HasReserved, WritesReserved};
ghost use Rattle.solo_crash.specs.Taken.{TakenBehindAll};
ghost use Rattle.solo_fresh.specs.Filled.{IsFilled};
ghost use Rattle.solo_fresh.specs.Making.{page_in};
ghost use Rattle.solo_blocks.specs.NewRuns.{IsUnused};
ghost use Rattle.solo_alloc.specs.NewObjects.{CanMakeObject, HasNewObject};
ghost use Rattle.solo_reclaim.specs.Reclaims.{AreOfPool, HasLeft, MayReclaim, Reclaims};
ghost use Rattle.solo_sealed.specs.Sealed.{LeavesSealed, Publishes, has_nothing};
ghost use Rattle.solo_reclaim.specs.KnownTaken.{IsGiving, KnowsTaken};
ghost use Rattle.solo_epoch.specs.Allocating.{HasLockedFreed, HasSameDescriptors, IsCallAlone, IsCallAloneStill, LeavesObject, MakesObject, object_in_block, with_object_told};
ghost use Rattle.solo_epoch.specs.Epochs.{AllocatesOwn, AreOfOwnBits, HandsOver, HasEnded, HasEnteredCall, HasEntriesFor, HasSameHeap, HoldsCalls, HoldsCommitted, HoldsOpenCall, IsAtWorkAlone, IsPublishing, LoadsNoneOf, MayPublish, PromisesTaken, PublishesAlone, ReservesNoRun, RestsBehindCall};

/// A law: in a world where a lane has each word as it is, what it reserved may be allocated: a block of a run, by the class that the run's
/// descriptor says, and chunks that are described by 0; and a block that it found under a lock may be freed, unless it is the root's, where
/// the words have no fault. No code runs.
pub fn a_lane_alone_may_change_its_blocks()
    ensures run { (o : Opening) (mem : Memory) (views : Views) (log : List Entry) (decided : ℕ → Bool) (k c lines index : ℕ)
        → World o mem views log decided → k < o.lanes → ((i : ℕ) → mem (PoolWord i) ≡ slice_index (views k).words i)
        → c < 64 * o.zones → index < 64 → slice_index (views k).words (descriptor_word o.lanes c) ≡ descriptor_of (Lines lines)
        → reserves (views k) (run_at o.lanes c) index ≡ true
        → IsFreeInRun (slice_index (views k).words) o.lanes o.zones c lines index }
    ensures chunks { (o : Opening) (mem : Memory) (views : Views) (log : List Entry) (decided : ℕ → Bool) (k zone first count : ℕ)
        → World o mem views log decided → k < o.lanes → ((i : ℕ) → mem (PoolWord i) ≡ slice_index (views k).words i)
        → zone < o.zones → first < 64 → first + count ≤ 64 → ((j : ℕ) → j < count → IsUnusedChunk o.lanes (views k) zone (first + j))
        → AreFreeChunks (slice_index (views k).words) o.lanes o.zones (64 * zone + first) count }
    ensures freed { (o : Opening) (mem : Memory) (views : Views) (log : List Entry) (decided : ℕ → Bool) (k lines : ℕ) (l : Lock)
        → World o mem views log decided → k < o.lanes → ((i : ℕ) → mem (PoolWord i) ≡ slice_index (views k).words i)
        → heap_fault (slice_index (views k).words) o.lanes o.zones ≡ None → Contains (views k).locks l → l.block ≡ Some lines
        → slice_index (views k).words 64 ≢ 64 * l.line + 64
        → MayBeFreed (slice_index (views k).words) o.lanes o.zones (record { place = 64 * l.line; lines = lines }) }
{}

/// A law: in a world where a lane has each word and each occupancy word as it is, and has entered no change of a block, a chunk whose bit is clear
/// there has nothing, as the search for a block asks: no block, and nothing reserved, undrained, recorded or entered of it. No code runs.
pub fn a_clear_chunk_is_unused()
    ensures { (o : Opening) (mem : Memory) (views : Views) (log : List Entry) (decided : ℕ → Bool) (k zone chunk : ℕ)
        → World o mem views log decided → k < o.lanes → ((i : ℕ) → mem (PoolWord i) ≡ slice_index (views k).words i)
        → ((at : Occ) → mem (occ_at at) ≡ occ_in (views k) at) → changes_heap (views k) ≡ false → zone < o.zones → chunk < 64 → bit_at (occ_in (views k) (Zone zone)) chunk ≢ 1
        → IsUnused (views k) (page_in (views k).lanes zone chunk) }
{}

/// A law: such a lane, at work, may make objects, as `solo_alloc` asks. No code runs.
pub fn a_lane_alone_may_make_objects()
    ensures { (o : Opening) (mem : Memory) (views : Views) (log : List Entry) (decided : ℕ → Bool) (k : ℕ) (shape : Shape)
        → World o mem views log decided → k < o.lanes → ((i : ℕ) → mem (PoolWord i) ≡ slice_index (views k).words i)
        → ((at : Occ) → mem (occ_at at) ≡ occ_in (views k) at) → IsAtWorkAlone (views k) shape → CanMakeObject (views k) shape }
{}

/// A law: so may a lane that works alone, and is at work. No code runs.
pub fn a_lane_that_works_alone_may_make_objects()
    ensures { (o : Opening) (header : Header) (pool : PoolView) (start v : View) (steps : List Step) (shape : Shape)
        → WorksAlone o header pool start steps v → IsAtWorkAlone v shape → CanMakeObject v shape }
{}

/// A law: the block that a lane filled for an object has a new object's words in the lane's view. No code runs.
pub fn a_filled_block_is_fresh()
    ensures { (v w : View) (line lines kind size : ℕ) → IsFilled v line lines kind size w → 1 ≤ size → size ≤ 262080 → block_lines (class_of size) ≡ lines
        → IsFreshBlock (slice_index w.words) (record { place = 64 * line; lines = lines }) kind size }
{}

/// A law: where `new_object` of `solo_alloc` made an object in a memory of one lane, by what that ensures the memory may be seen as a view to which exactly its
/// steps led, within the lane's stop number. No code runs.
pub fn a_new_object_leaves_a_view()
    ensures { (m : Solo) (v : View) (size kind : ℕ) (block : Block) → HasNewObject (Sees m) v size kind block → LeavesObject m v size kind block }
{}

/// A law: where a lane works alone with a call under way, an object of 1 to 262080 bytes that it made is one that the call may tell, if the log has room for
/// its entry and for the one that ends the generation. No word that the lane knew changed, and the object's block lies apart from what the call found, made and
/// freed. What the lane has bears out what the call told then, so that it may make and tell another: docs/MODEL.md, "From call to call". Where `new_object` finds
/// no room, a refused allocation asks of the lane only that what the call did be taken back. No code runs.
pub fn a_lane_alone_may_tell_its_new_object()
    ensures allocates { (o : Opening) (header : Header) (pool : PoolView) (start v u : View) (steps : List Step) (shape : Shape) (level size kind : ℕ) (block : Block)
        → IsCallAlone o header pool start steps v shape level → MakesObject v u size kind block → 1 ≤ size → size ≤ 262080 → entries_so_far v + 2 ≤ max_entries
        → AllocatesObject v (with_object_told u (object_in_block block size kind)) (object_in_block block size kind) }
    ensures bears_out { (o : Opening) (header : Header) (pool : PoolView) (start v u : View) (steps : List Step) (shape : Shape) (level size kind : ℕ) (block : Block)
        → IsCallAlone o header pool start steps v shape level → MakesObject v u size kind block → IsBorneOut (with_object_told u (object_in_block block size kind)) }
    ensures goes_on { (o : Opening) (header : Header) (pool : PoolView) (start v u : View) (steps : List Step) (shape : Shape) (level size kind : ℕ) (block : Block) → 1 ≤ level
        → IsCallAlone o header pool start steps v shape level → MakesObject v u size kind block → 1 ≤ size → size ≤ 262080 → entries_so_far v + 2 ≤ max_entries
        → IsCallAloneStill o header pool start steps (with_object_told u (object_in_block block size kind)) shape level }
{}

/// A law: what a lane has bears out what its call told of the heap from the call's begin on, which tells nothing of it. So it does once an operation is told that
/// allocates nothing and, where it is a free, agrees with the root that the words have, if the lane has what it had reserved, and each chunk is described as it
/// was; and once bytes are written into what is reserved, if the lane has what it had. No code runs.
pub fn a_call_stays_borne_out()
    ensures begins { (v : View) (wants : List Want) → BeginsCall v wants → All (IsReservedFor v) (reserved_in v) → IsBorneOut v }
    ensures told { (o : Opening) (header : Header) (pool : PoolView) (start v w : View) (steps more : List Step) (op : Operation) (reply : Option Value)
        → WorksAlone o header pool start steps v → WorksAlone o header pool start more w → Tells v w op reply → LeavesReserved op reply (pending_in v)
        → TellsOfRoot (root_in (slice_index v.words)) op reply (pending_in v) → w.reserved ≡ v.reserved → HasSameDescriptors v w → IsBorneOut v → IsBorneOut w }
    ensures puts { (o : Opening) (header : Header) (pool : PoolView) (start v w : View) (steps more : List Step) (id : Oid) (off : ℕ) (bytes : List ℕ)
        → WorksAlone o header pool start steps v → WorksAlone o header pool start more w → HasReserved v → WritesReserved v w id off bytes
        → w.reserved ≡ v.reserved → IsBorneOut v → IsBorneOut w }
{}

/// A law: an object that the call of a lane alone made is not the pool's root, by the words, where what the lane has bears out what the call told. So a free of it
/// agrees with the root. No code runs.
pub fn a_made_object_is_not_the_root()
    ensures { (o : Opening) (header : Header) (pool : PoolView) (start v : View) (steps : List Step) (id : Oid)
        → WorksAlone o header pool start steps v → IsBorneOut v → IsMade v id → root_in (slice_index v.words) ≢ Some id.off }
{}

/// A law: of each object that a call found and freed the lane has the lock, with its block found: so it is where the call freed none, where it frees one that it
/// holds, and where it keeps the locks under which it found blocks. No code runs.
pub fn what_a_call_freed_is_locked()
    ensures none { (v : View) → (blocks_in v).freed ≡ [] → HasLockedFreed v }
    ensures frees { (v next : View) (id : Oid) → FreesFound v next id → HasLockedFreed v → HasLockedFreed next }
    ensures stays { (v next : View) → KeepsFound v next → ((off : ℕ) → is_freed_in next off ≡ is_freed_in v off) → HasLockedFreed v → HasLockedFreed next }
{}

/// A law: changes of the heap that may be made of the same words, no two of one bit of an occupancy word, may be published in any order, behind
/// any actions. No code runs.
pub fn changes_of_own_bits_are_in_order()
    ensures { (w : ℕ → ℕ) (lanes zones : ℕ) (actions : List Action) (changes : List HeapChange)
        → heap_fault w lanes zones ≡ None → All (MayChange w lanes zones) changes → AreOfOwnBits lanes changes
        → AreInOrder lanes (map Performs actions ++ map Changes changes) }
{}

/// A law: in a world where no other lane is at work, a call that draws its number may publish what its log has entries for: its words, as an image,
/// hold the pool before the call, and as they stand the pool that it made so far, on which each may be published. No code runs.
pub fn a_world_leads_to_what_is_published()
    ensures { (o : Opening) (mem : Memory) (views : Views) (log : List Entry) (decided : ℕ → Bool) (k n : ℕ) (header : Header) (before now : PoolView) (all : List Published)
        → World o mem views log decided → k < o.lanes → ((j : ℕ) → j < o.lanes → j ≢ k → (views j).log.phase ≡ Idle)
        → ((i : ℕ) → mem (PoolWord i) ≡ slice_index (views k).words i) → Allowed (views k) (Draw n) → HasEntriesFor (views k) header before now all
        → MayPublish (after (views k) (Draw n)) header before now all }
{}

/// A law: what a lane that is alone publishes is in a power failure's image as a whole or not at all. An image that has nothing of the call
/// means the pool before it; any other the pool with all that is published, whose blocks are the blocks before with those that were allocated
/// and without those that were freed. No code runs.
pub fn a_lane_alone_publishes_a_pool()
    ensures nothing { (b w : View) (header : Header) (before now : PoolView) (all : List Published) (steps : List Step) (keep : ℕ) (image : List ℕ)
        → MayPublish b header before now all → LeavesSealed b steps w keep image → has_nothing image b ≡ true
        → HoldsImage image b.lanes b.zones header before × IsMeaning image before }
    ensures all { (b w : View) (header : Header) (before now : PoolView) (all : List Published) (steps : List Step) (keep : ℕ) (image : List ℕ)
        → MayPublish b header before now all → LeavesSealed b steps w keep image → has_nothing image b ≡ false
        → HoldsImage image b.lanes b.zones header (all_pool_published b.lanes all now) × IsMeaning image (all_pool_published b.lanes all now) }
    ensures blocks { (b w : View) (header : Header) (before now : PoolView) (all : List Published) (steps : List Step) (keep : ℕ) (image : List ℕ)
        → MayPublish b header before now all → LeavesSealed b steps w keep image → has_nothing image b ≡ false
        → blocks (recovered_at image b.lanes) b.lanes b.zones ≡ all_blocks_published b.lanes all (blocks (slice_index b.words) b.lanes b.zones) }
{}

/// A law: at the log's end the words, as an image and as they stand, hold the pool with all that was published, and its blocks; and what they
/// say is taken is what they said before, with the blocks that were allocated and without those that were freed. No code runs.
pub fn a_published_pool_stands()
    ensures image { (b w : View) (header : Header) (before now : PoolView) (all : List Published) (steps : List Step)
        → MayPublish b header before now all → IsAlone b → Publishes b steps w → w.log.phase ≡ Idle
        → HoldsImage w.words b.lanes b.zones header (all_pool_published b.lanes all now) }
    ensures pool { (b w : View) (header : Header) (before now : PoolView) (all : List Published) (steps : List Step)
        → MayPublish b header before now all → IsAlone b → Publishes b steps w → w.log.phase ≡ Idle
        → HoldsPool (slice_index w.words) b.lanes b.zones header (all_pool_published b.lanes all now) }
    ensures blocks { (b w : View) (header : Header) (before now : PoolView) (all : List Published) (steps : List Step)
        → MayPublish b header before now all → IsAlone b → Publishes b steps w → w.log.phase ≡ Idle
        → blocks (slice_index w.words) b.lanes b.zones ≡ all_blocks_published b.lanes all (blocks (slice_index b.words) b.lanes b.zones) }
    ensures taken { (b w : View) (header : Header) (before now : PoolView) (all : List Published) (steps : List Step) (at : Occ) (bit : ℕ)
        → MayPublish b header before now all → IsAlone b → Publishes b steps w → w.log.phase ≡ Idle → IsOcc b.lanes b.zones at → bit < 64
        → (is_taken (slice_index w.words) b.lanes at bit ≡ true) ↔ TakenBehindAll b.lanes all at bit (is_taken (slice_index b.words) b.lanes at bit ≡ true) }
{}

/// A law: where a lane works alone, with no undrained word of a slot and no record or entry in the making, and its call has not drawn its number, its words
/// as an image hold the pool to which its calls lead, one whole call after another; and as they stand they hold the pool that its open call stored, of which
/// the copy of the plain model's transaction is that with what the call made and freed, where what the lane has bears out what the call told of the heap.
/// No code runs.
pub fn a_lane_alone_holds_its_pools()
    ensures calls { (o : Opening) (header : Header) (pool : PoolView) (v w : View) (steps : List Step)
        → WorksAlone o header pool v steps w → w.log.phase ≡ Open [] [] → HasDrainedSlots w → HoldsCalls o w header pool }
    ensures open_call { (o : Opening) (header : Header) (pool : PoolView) (v w : View) (steps : List Step) (level : ℕ) (at_stage : Stage) (error : TxErr)
        → WorksAlone o header pool v steps w → w.log.phase ≡ Open [] [] → HasDrainedSlots w → IsUnderWay w level at_stage error → IsBorneOut w
        → HoldsOpenCall o w header pool level at_stage error }
{}

/// A law: the block of an object that lies in what a lane alone reserved overlaps no block of its words, where they have no fault. No code runs.
pub fn a_reserved_block_overlaps_none()
    ensures { (o : Opening) (header : Header) (pool : PoolView) (start v : View) (steps : List Step) (n : NewObject) (b : Block)
        → WorksAlone o header pool start steps v → heap_fault (slice_index v.words) o.lanes o.zones ≡ None → IsReservedFor v n → Contains (blocks (slice_index v.words) o.lanes o.zones) b
        → AreDisjoint (block_of n) b }
{}

/// A law: where a lane works alone, with no undrained word of a slot and no record or entry in the making, and what it has bears out what its call told of the
/// heap so far, the pool before the call may precede it: it has room for what the call allocated, and its root is none that the call freed. No code runs.
pub fn a_pool_may_precede_a_call_borne_out()
    ensures { (o : Opening) (header : Header) (pool : PoolView) (start v : View) (steps : List Step)
        → WorksAlone o header pool start steps v → v.log.phase ≡ Open [] [] → HasDrainedSlots v → (held : HoldsCalls o v header pool) → IsBorneOut v
        → MayPrecede held.before v }
{}

/// A law: where a lane works alone, with no undrained word of a slot and no record or entry in the making, its call is committed and what the lane has
/// bears out what that told of the heap, the call turns the pool before it into its transaction's copy with what it published performed; and as they stand the
/// words hold the pool that the call stored, of which the copy is that with what it made and freed. No code runs.
pub fn a_committed_call_turns_its_pool()
    ensures { (o : Opening) (header : Header) (pool : PoolView) (start u : View) (steps : List Step)
        → WorksAlone o header pool start steps u → u.log.phase ≡ Open [] [] → HasDrainedSlots u → IsCommitted u → IsBorneOut u → HoldsCommitted o u header pool }
{}

/// A law: where a lane works alone, and its call turns the pool to which its calls lead into another, they lead to that one with the call, whatever number
/// it draws. No code runs.
pub fn a_published_call_is_replayed()
    ensures { (o : Opening) (header : Header) (pool : PoolView) (start u : View) (steps : List Step) (n : ℕ) (last : PoolView)
        → WorksAlone o header pool start steps u → (held : HoldsCalls o u header pool) → Turns u held.before last
        → Replays (opened pool) (acts_alone (u.entries ++ record { number = n; call = u.call } ∷ [])) (state_alone last (u.entries ++ record { number = n; call = u.call } ∷ [])) }
{}

/// A law: a lane that works alone and rests behind a call, with nothing locked and no chunk reserved that is a run, may begin again over its words as they
/// stand: as an image they hold the pool to which its calls lead, each log is clean, what it reserved is free, and its picture of the occupancy words is
/// what they say is taken and it has. No code runs.
pub fn a_lane_at_rest_may_begin_again()
    ensures { (o : Opening) (header : Header) (pool : PoolView) (v w : View) (steps : List Step)
        → WorksAlone o header pool v steps w → RestsBehindCall w → BeginsAgain (standing o w) header pool w }
{}

/// A law: what a lane that is alone has of the heap stays while it publishes its log: its pictures of the occupancy words, what it reserved and what it freed;
/// and it draws no other number. No code runs.
pub fn publishing_keeps_what_a_lane_has()
    ensures { (b w : View) (steps : List Step) → IsAlone b → Publishes b steps w → HasSameHeap b w }
{}

/// A law: where each bit of a lane's picture of an occupancy word is set exactly where what it is of is taken by its words, or the lane has it, so it is
/// when the lane has given back a lock, or what it reserved or freed. No code runs.
pub fn giving_back_keeps_what_is_taken()
    ensures { (v : View) (s : Step) → KnowsTaken v → Allowed v s → IsGiving s → KnowsTaken (after v s) }
{}

/// A law: where a lane's picture, as its call has drawn, has what is taken once all of this is published, and what the lane has, at the log's end it has what
/// the words say is taken then, and what the lane has. No code runs.
pub fn a_lane_knows_what_is_taken_behind_its_log()
    ensures { (b w : View) (header : Header) (before now : PoolView) (all : List Published) (steps : List Step)
        → MayPublish b header before now all → IsAlone b → Publishes b steps w → w.log.phase ≡ Idle → PromisesTaken b all → KnowsTaken w }
{}

/// A law: a lane whose call has ended may give back what it has, one thing after another, and its call has ended still; and once it has no lock left, and
/// nothing that it freed, it may begin again over its words as they stand. No code runs.
pub fn a_lane_whose_call_has_ended_begins_again()
    ensures gives { (o : Opening) (header : Header) (pool : PoolView) (v : View) (s : Step) → HasEnded o header pool v → Allowed v s → IsGiving s
        → HasEnded o header pool (after v s) }
    ensures begins { (o : Opening) (header : Header) (pool : PoolView) (v : View) → HasEnded o header pool v → v.locks ≡ [] → v.zone_locks ≡ [] → v.freed ≡ []
        → BeginsAgain (standing o v) header pool v }
{}

/// A law: a lane whose call has ended, and that has no line locked, may reclaim what it has; behind that its call has ended still, and it may begin again
/// over its words as they stand, with the blocks that it keeps, if any. No code runs.
pub fn a_lane_that_reclaimed_begins_again()
    ensures may { (o : Opening) (header : Header) (pool : PoolView) (v : View) (shape : Shape) → HasEnded o header pool v → v.locks ≡ [] → IsOfShape v shape
        → MayReclaim v shape }
    ensures ended { (o : Opening) (header : Header) (pool : PoolView) (v w : View) → HasEnded o header pool v → v.locks ≡ [] → Reclaims v w → HasEnded o header pool w }
    ensures begins { (o : Opening) (header : Header) (pool : PoolView) (v w : View) (kept : List Block) → HasEnded o header pool v → v.zone_locks ≡ [] → v.locks ≡ []
        → Reclaims v w → HasLeft kept w → BeginsAgain (standing o w) header pool w }
{}

/// A law: a call that a lane alone published has ended at its log's end. No code runs.
pub fn a_published_call_has_ended()
    ensures { (o : Opening) (header : Header) (pool : PoolView) (u : View) (n : ℕ) (all : List Published) (w : View) → PublishesAlone o header pool u n all w
        → HasEnded o header pool w }
{}

/// A law: where a lane works alone, its call is committed, what the lane has bears out what that told of the heap, and its log has what the call publishes, it
/// has an entry for each thing that may be published, in this order, on the pool that its words hold, which the call stored. No code runs.
pub fn a_committed_call_may_publish_what_it_entered()
    ensures { (o : Opening) (header : Header) (pool : PoolView) (start u : View) (steps : List Step) (all : List Published)
        → WorksAlone o header pool start steps u → IsCommitted u → IsBorneOut u → (held : HoldsCommitted o u header pool) → HasEnteredCall u all
        → HasEntriesFor u header held.held.before held.to.base all }
{}

/// A law: while a lane that is alone publishes its committed call, each image that a power failure leaves of its words means the pool to which the calls
/// that it does not lose lead, in order, from the pool at the opening; and it has the opening's length and header page. Once the call has ended the image
/// means the pool to which all of them lead. No code runs.
pub fn a_publishing_lane_leaves_its_whole_calls()
    ensures meaning { (o : Opening) (header : Header) (pool : PoolView) (u : View) (n : ℕ) (all : List Published) (w : View) (keep : ℕ) (image : List ℕ)
        → IsPublishing o header pool u n all w → IsKeptImage keep w.words (w.changes ∷ []) image → MeansCalls image o.lanes o.zones pool (kept_numbered image w) }
    ensures header_page { (o : Opening) (header : Header) (pool : PoolView) (u : View) (n : ℕ) (all : List Published) (w : View) (keep : ℕ) (image : List ℕ)
        → IsPublishing o header pool u n all w → IsKeptImage keep w.words (w.changes ∷ []) image → (i : ℕ) → i < 512 → slice_index image i ≡ slice_index o.words i }
    ensures size { (o : Opening) (header : Header) (pool : PoolView) (u : View) (n : ℕ) (all : List Published) (w : View) (keep : ℕ) (image : List ℕ)
        → IsPublishing o header pool u n all w → IsKeptImage keep w.words (w.changes ∷ []) image → length image ≡ length o.words }
    ensures ended { (o : Opening) (header : Header) (pool : PoolView) (v : View) (keep : ℕ) (image : List ℕ)
        → HasEnded o header pool v → IsKeptImage keep v.words (v.changes ∷ []) image → MeansCalls image o.lanes o.zones pool v.entries }
{}

/// A law: where each bit of a lane's picture of an occupancy word is set exactly where what it is of is taken by its words, or the lane has it, and it freed
/// nothing, its picture promises, as its call draws, what will be taken. No code runs.
pub fn a_draw_promises_what_will_be_taken()
    ensures { (v : View) (n : ℕ) (all : List Published) → KnowsTaken v → v.freed ≡ [] → HandsOver v (after v (Draw n)) all → PromisesTaken (after v (Draw n)) all }
{}

/// A law: a lane that works alone has freed nothing before its call draws, and, where no chunk that it reserved is a run, each bit of its picture of an
/// occupancy word is set exactly where what it is of is taken by its words, or the lane has it. No code runs.
pub fn a_lane_at_work_knows_what_is_taken()
    ensures freed { (o : Opening) (header : Header) (pool : PoolView) (v w : View) (steps : List Step) → WorksAlone o header pool v steps w → w.freed ≡ [] }
    ensures taken { (o : Opening) (header : Header) (pool : PoolView) (v w : View) (steps : List Step)
        → WorksAlone o header pool v steps w → ReservesNoRun w.lanes w → KnowsTaken w }
{}

/// A law: where a lane works alone, with an entry for each thing that it publishes, and allocates only what it reserved, the draw hands over: it has no
/// longer reserved what is allocated, and has from then on what is freed, which its words say is taken. No code runs.
pub fn a_draw_hands_over()
    ensures { (o : Opening) (header : Header) (pool before now : PoolView) (start v : View) (steps : List Step) (n : ℕ) (all : List Published)
        → WorksAlone o header pool start steps v → HasEntriesFor v header before now all → AllocatesOwn v all → HandsOver v (after v (Draw n)) all }
{}

/// A law: from its call's draw to its log's end a lane that is alone holds what it knows, where since then it loaded no word that an entry of its log is of.
/// No code runs.
pub fn a_lane_holds_what_it_knows_behind_its_log()
    ensures { (o : Opening) (header : Header) (pool before made : PoolView) (start u w : View) (steps log_steps : List Step) (n i : ℕ) (all : List Published)
        → WorksAlone o header pool start steps u → Allowed u (Draw n) → MayPublish (after u (Draw n)) header before made all → Publishes (after u (Draw n)) log_steps w
        → All (LoadsNoneOf u.log.entries) log_steps → Contains w.known i → IsTrue (is_held w i) }
{}
