ghost use Rattle.std.specs.Prelude.{◌≡◌, ◌≢◌, ◌⊎◌, ◌↔◌, ◌==◌, ◌&&◌, ℕ, ◌+◌, ◌<◌, Bool, true, false, List, [], ◌∷◌, ◌++◌, length, slice_index, Some};
ghost use Rattle.std.specs.Int.{bit_at};
ghost use Rattle.pm_header.specs.declared.header.Header.{Header};
ghost use Rattle.pm_objects.specs.declared.pool.PoolView.{PoolView};
ghost use Rattle.pm_image.specs.Logs.{generation, generation_word, seal_word};
ghost use Rattle.solo_view.specs.declared.occ.Occ.{Occ};
ghost use Rattle.solo_view.specs.Blocks.{block_at};
ghost use Rattle.solo_view.specs.Log.{Recorded};
ghost use Rattle.solo_view.specs.Log.Phase.{Idle};
ghost use Rattle.solo_view.specs.Occupancy.{is_taken};
ghost use Rattle.solo_view.specs.Steps.{Step};
ghost use Rattle.solo_view.specs.View.{View};
ghost use Rattle.solo_view.specs.Views.{occ_in};
ghost use Rattle.solo_memory.specs.Keep.{IsKeptImage};
ghost use Rattle.solo_world.specs.Course.{flight};
ghost use Rattle.solo_world.specs.Crash.{NoneTorn, loses};
ghost use Rattle.solo_world.specs.Heap.{AreNewRuns, IsOcc, has_taken};
ghost use Rattle.solo_world.specs.Opening.{IsSound, Opening};
ghost use Rattle.solo_world.specs.Records.{generation_of, records_generation};
ghost use Rattle.solo_crash.specs.Alone.{GrowsFirst, HasNoTornMatch, IsDrawnAt, IsUnsealed, MayRecord, MeansCalls, Rests, WorksAlone, alone_views, is_of_words, kept_numbered, raises, standing};
ghost use Rattle.solo_crash.specs.CallBlocks.{MayPrecede, NewObject};
ghost use Rattle.solo_crash.specs.Held.{HoldsPool};
ghost use Rattle.solo_crash.specs.Leading.{Leads};
ghost use Rattle.solo_crash.specs.OneLane.{IsModelStep, TellsAsOpening};
ghost use Rattle.solo_crash.specs.OpenCall.{MakesItsStep};
ghost use Rattle.solo_crash.specs.Reserved.{IsBorneOut, IsReservedFor, LiesFree};

/// A law: where one lane works alone, each image that a power failure leaves of its words means the pool to which the calls that it does
/// not lose lead, in order, from the pool at the opening; and it has the opening's length and header page. Where the lane rests, these are
/// all its calls, and nothing is taken for granted of torn records. No code runs.
pub fn a_lane_alone_leaves_its_whole_calls()
    ensures meaning { (o : Opening) (header : Header) (pool : PoolView) (v w : View) (steps : List Step) (keep : ℕ) (image : List ℕ)
        → WorksAlone o header pool v steps w → IsKeptImage keep w.words (w.changes ∷ []) image → NoneTorn o (alone_views o w) image
        → MeansCalls image o.lanes o.zones pool (kept_numbered image w) }
    ensures at_rest { (o : Opening) (header : Header) (pool : PoolView) (v w : View) (steps : List Step) (keep : ℕ) (image : List ℕ)
        → WorksAlone o header pool v steps w → IsKeptImage keep w.words (w.changes ∷ []) image → Rests w → MeansCalls image o.lanes o.zones pool w.entries }
    ensures header_page { (o : Opening) (header : Header) (pool : PoolView) (v w : View) (steps : List Step) (keep : ℕ) (image : List ℕ)
        → WorksAlone o header pool v steps w → IsKeptImage keep w.words (w.changes ∷ []) image
        → (i : ℕ) → i < 512 → slice_index image i ≡ slice_index o.words i }
    ensures size { (o : Opening) (header : Header) (pool : PoolView) (v w : View) (steps : List Step) (keep : ℕ) (image : List ℕ)
        → WorksAlone o header pool v steps w → IsKeptImage keep w.words (w.changes ∷ []) image → length image ≡ length o.words }
{}

/// A law: no image loses a call that has ended, or one behind which the lane drew another number. A call in flight is lost exactly where
/// the image has the generation of the call's records still: a lane's that is sealed in the image is the next one. So where the call has no
/// seal, and that generation is the opening's or that of a view on the way, it is lost exactly where the image has that generation. Of a call
/// that began with some generation and drew its number, sealed or not, the words tell: it is lost exactly where the image has no seal and that
/// generation still. No code runs.
pub fn a_call_in_flight_is_lost_by_its_generation()
    ensures ended { (w : View) (image : List ℕ) (n : ℕ) → (w.log.phase ≡ Idle) ⊎ (w.number ≢ Some n) → loses image w n ≡ false }
    ensures in_flight { (o : Opening) (header : Header) (pool : PoolView) (v w : View) (steps : List Step) (keep : ℕ) (image : List ℕ) (n : ℕ)
        → WorksAlone o header pool v steps w → IsKeptImage keep w.words (w.changes ∷ []) image → flight w ≡ Some n
        → loses image w n ≡ (generation image 0 == records_generation w.log.phase w) }
    ensures first { (o : Opening) (header : Header) (pool : PoolView) (v w : View) (steps : List Step) (keep : ℕ) (image : List ℕ) (n : ℕ)
        → WorksAlone o header pool v steps w → IsKeptImage keep w.words (w.changes ∷ []) image → w.number ≡ Some n → IsUnsealed w.log.phase
        → records_generation w.log.phase w ≡ generation_word o.words 0
        → loses image w n ≡ (generation_word image 0 == generation_word o.words 0) }
    ensures by_words { (o : Opening) (header : Header) (pool : PoolView) (v w : View) (steps : List Step) (keep : ℕ) (image : List ℕ) (g n : ℕ)
        → WorksAlone o header pool v steps w → IsKeptImage keep w.words (w.changes ∷ []) image → w.number ≡ Some n → IsDrawnAt g w w.log.phase
        → loses image w n ≡ (seal_word image 0 == 0 && generation_word image 0 == g) }
    ensures since { (o : Opening) (header : Header) (pool : PoolView) (v b w : View) (steps : List Step) (keep : ℕ) (image : List ℕ) (n : ℕ)
        → WorksAlone o header pool v steps w → IsKeptImage keep w.words (w.changes ∷ []) image → w.number ≡ Some n → IsUnsealed w.log.phase
        → records_generation w.log.phase w ≡ generation_of b → loses image w n ≡ (generation_word image 0 == generation_of b) }
{}

/// A law: where no torn record of the opening's generation matches by chance, and the log that may grow is of that generation or empty,
/// each slot that is being written and is valid in an image holds a whole record. The chance is told in words alone: those that stood in
/// the slots at the opening, and the records that pass a test which each passes that the lane may be writing, as one whose old words are the
/// lane's words. No code runs.
pub fn no_record_is_torn()
    ensures tested { (o : Opening) (header : Header) (pool : PoolView) (v w : View) (steps : List Step) (keep : ℕ) (image : List ℕ) (test : Recorded → Bool)
        → WorksAlone o header pool v steps w → IsKeptImage keep w.words (w.changes ∷ []) image → GrowsFirst o w w.log.phase
        → HasNoTornMatch o test → ((r : Recorded) → MayRecord w r → test r ≡ true) → NoneTorn o (alone_views o w) image }
    ensures of_words { (o : Opening) (header : Header) (pool : PoolView) (v w : View) (steps : List Step) (keep : ℕ) (image : List ℕ)
        → WorksAlone o header pool v steps w → IsKeptImage keep w.words (w.changes ∷ []) image → GrowsFirst o w w.log.phase
        → HasNoTornMatch o (is_of_words w.words) → NoneTorn o (alone_views o w) image }
{}

/// A law: the same of a lane's later calls. Where the lane rested on its way, what its slots held then stands for what they held at the
/// opening, and the generation of then for the opening's; and at rest no slot is being written, so that nothing is taken for granted. No
/// code runs.
pub fn no_record_is_torn_behind_a_rest()
    ensures tested { (o : Opening) (header : Header) (pool : PoolView) (v b w : View) (before steps : List Step) (keep : ℕ) (image : List ℕ) (test : Recorded → Bool)
        → WorksAlone o header pool v (before ++ steps) w → Leads v before b → Rests b → IsKeptImage keep w.words (w.changes ∷ []) image
        → GrowsFirst (standing o b) w w.log.phase → HasNoTornMatch (standing o b) test → ((r : Recorded) → MayRecord w r → test r ≡ true)
        → NoneTorn o (alone_views o w) image }
    ensures of_words { (o : Opening) (header : Header) (pool : PoolView) (v b w : View) (before steps : List Step) (keep : ℕ) (image : List ℕ)
        → WorksAlone o header pool v (before ++ steps) w → Leads v before b → Rests b → IsKeptImage keep w.words (w.changes ∷ []) image
        → GrowsFirst (standing o b) w w.log.phase → HasNoTornMatch (standing o b) (is_of_words w.words) → NoneTorn o (alone_views o w) image }
    ensures at_rest { (o : Opening) (b : View) (image : List ℕ) → Rests b → NoneTorn o (alone_views o b) image }
{}

/// A law: a lane that works alone raises its generation by one with each store of it, and with nothing else; so before the first such store
/// it is the opening's. No code runs.
pub fn a_generation_rises_with_each_store_of_it()
    ensures { (o : Opening) (header : Header) (pool : PoolView) (v w : View) (steps : List Step)
        → WorksAlone o header pool v steps w → generation_of w ≡ generation_word o.words 0 + raises steps }
{}

/// A law: where a lane works alone, each bit of its picture of an occupancy word is set exactly where what it is of is taken by the pool's words as it
/// has them, or the lane has reserved it, or the chunk of the run, or freed it and not given it back: docs/FORMAT.md, "Volatile words". No code
/// runs.
pub fn a_lane_alone_knows_what_is_taken()
    ensures { (o : Opening) (header : Header) (pool : PoolView) (v w : View) (steps : List Step) (at : Occ) (bit : ℕ)
        → WorksAlone o header pool v steps w → IsOcc o.lanes o.zones at → bit < 64
        → (bit_at (occ_in w at) bit ≡ 1) ↔ ((is_taken (slice_index w.words) o.lanes at bit ≡ true) ⊎ (has_taken w at bit ≡ true)) }
{}

/// A law: where a lane works alone, the pool is sound as each view of the lane has it, and so where the lane rests on its way: the same blocks
/// begin at the same lines as at the opening, and a chunk that was free has no block, be it a run by now. No code runs.
pub fn a_pool_stays_sound()
    ensures sound { (o : Opening) (header : Header) (pool : PoolView) (v b : View) (steps : List Step) → WorksAlone o header pool v steps b → IsSound (standing o b) }
    ensures blocks { (o : Opening) (header : Header) (pool : PoolView) (v b : View) (steps : List Step) → WorksAlone o header pool v steps b
        → (line : ℕ) → block_at o.lanes b.words line ≡ block_at o.lanes o.words line }
    ensures new_runs { (o : Opening) (header : Header) (pool : PoolView) (v b : View) (steps : List Step) → WorksAlone o header pool v steps b
        → AreNewRuns o (slice_index b.words) }
{}

/// A law: where one lane works alone, no call changes what tells of blocks, or the root's word. So where what the lane has bears out what its call told of
/// the heap, each pool that words hold which tell of these what the opening's do may be the one before the call; and a call that makes its step is a
/// step of the plain model. What the lane reserved lies in room that its words have free, and what lies so at one view lies so at each other. No
/// code runs.
pub fn a_lane_alone_bears_out_its_call()
    ensures precedes { (o : Opening) (header : Header) (pool : PoolView) (v w : View) (steps : List Step) (words : ℕ → ℕ) (its : Header) (before : PoolView)
        → WorksAlone o header pool v steps w → TellsAsOpening o words → HoldsPool words o.lanes o.zones its before → IsBorneOut w → MayPrecede before w }
    ensures steps { (o : Opening) (header : Header) (pool : PoolView) (v w : View) (steps : List Step)
        → WorksAlone o header pool v steps w → MakesItsStep w → IsBorneOut w → IsModelStep o w }
    ensures reserved { (o : Opening) (header : Header) (pool : PoolView) (start v : View) (steps : List Step) → WorksAlone o header pool start steps v
        → (n : NewObject) → IsReservedFor v n → LiesFree v n }
    ensures free { (o : Opening) (header : Header) (pool : PoolView) (start v w : View) (steps more : List Step)
        → WorksAlone o header pool start steps v → WorksAlone o header pool start more w → (n : NewObject) → LiesFree v n → LiesFree w n }
{}
