//! Laws of what a lane that is alone reserved, and gives back.

ghost use Rattle.std.specs.Prelude.{◌≡◌, ◌↔◌, ℕ, ◌<◌, true, false, All, Contains, List, [], ◌∷◌, ◌++◌, map, None};
ghost use Rattle.std.specs.Int.{bit_at};
ghost use Rattle.pm_header.specs.declared.header.Header.{Header};
ghost use Rattle.pm_layout.specs.declared.shape.Shape.{Shape};
ghost use Rattle.pm_objects.specs.declared.calls.Operation.TheVariants.{Cancel};
ghost use Rattle.pm_objects.specs.declared.pool.PoolView.{PoolView};
ghost use Rattle.solo_view.specs.declared.occ.Occ.{Occ};
ghost use Rattle.solo_view.specs.Counts.{is_counted};
ghost use Rattle.solo_view.specs.Steps.{Step};
ghost use Rattle.solo_view.specs.View.{View};
ghost use Rattle.solo_view.specs.Views.{after, occ_in, reserves};
ghost use Rattle.solo_world.specs.Opening.{Opening};
ghost use Rattle.solo_world.specs.Sequences.{Ready};
ghost use Rattle.solo_undo.specs.Working.{IsWorking};
ghost use Rattle.solo_blocks.specs.Giving.{vacates_block};
ghost use Rattle.solo_crash.specs.Alone.{WorksAlone, standing};
ghost use Rattle.solo_crash.specs.CallBlocks.{NewObject, block_of, reserved_in};
ghost use Rattle.solo_crash.specs.GivingUnused.{GivesUnused, in_use};
ghost use Rattle.solo_crash.specs.HeapChanges.{AreDisjoint};
ghost use Rattle.solo_crash.specs.Operations.{Tells};
ghost use Rattle.solo_crash.specs.Reserved.{IsReservedFor};
ghost use Rattle.solo_crash.specs.Reserving.{HasReserved};
ghost use Rattle.solo_reclaim.specs.KeptBlocks.{IsKeptBit};
ghost use Rattle.solo_epoch.specs.Allocating.{IsCallAlone};
ghost use Rattle.solo_epoch.specs.Epochs.{ReservesNoRun};
ghost use Rattle.solo_epoch.specs.GivingBack.{LieApart, MayGiveAllBack, MayGiveInCall, MayGiveObjectBack, gives_back, with_given_back};
ghost use Rattle.solo_epoch.specs.Reserving.{RestsWithReserved};

/// A law: where a lane alone rests, and nothing that it reserved is pending, it may give back the blocks of objects that lie in what it reserved, one after
/// another, by steps none of which is a counted call. Behind them it has no bit of these blocks reserved, and each other as before; their bits are clear in its
/// picture of the occupancy words; and it rests, in the world that begins there over the words as they stand, which are as before. What is reserved lies apart,
/// as the blocks have to. No code runs.
pub fn a_lane_alone_gives_back_what_it_reserved()
    ensures ready { (o : Opening) (header : Header) (pool : PoolView) (start y : View) (steps : List Step) (shape : Shape) (ns : List NewObject)
        → MayGiveAllBack o header pool start steps y shape ns → Ready y (gives_back y.lanes ns) }
    ensures uncounted { (lanes : ℕ) (ns : List NewObject) → All (λ s. is_counted s ≡ false) (gives_back lanes ns) }
    ensures may_each { (o : Opening) (header : Header) (pool : PoolView) (start y : View) (steps : List Step) (shape : Shape) (given rest : List NewObject) (n : NewObject)
        → MayGiveAllBack o header pool start steps y shape (given ++ n ∷ rest) → MayGiveObjectBack (with_given_back y given) shape n }
    ensures one_more { (y : View) (given : List NewObject) (n : NewObject)
        → with_given_back y (given ++ n ∷ []) ≡ after (with_given_back y given) (vacates_block y.lanes (block_of n)) }
    ensures rests { (o : Opening) (header : Header) (pool : PoolView) (start y : View) (steps : List Step) (shape : Shape) (ns : List NewObject)
        → MayGiveAllBack o header pool start steps y shape ns
        → RestsWithReserved (standing o (with_given_back y ns)) header pool (with_given_back y ns) [] (with_given_back y ns) shape }
    ensures same { (o : Opening) (header : Header) (pool : PoolView) (start y : View) (steps : List Step) (shape : Shape) (ns : List NewObject)
        → MayGiveAllBack o header pool start steps y shape ns → let x = with_given_back y ns in
        x ≡ record y { run_words = x.run_words; zone_words = x.zone_words; known = x.known; reserved = x.reserved; freed = x.freed } }
    ensures left { (o : Opening) (header : Header) (pool : PoolView) (start y : View) (steps : List Step) (shape : Shape) (ns : List NewObject) (at : Occ) (bit : ℕ)
        → MayGiveAllBack o header pool start steps y shape ns → bit < 64
        → (reserves (with_given_back y ns) at bit ≡ true) ↔ ((reserves y at bit ≡ true) × ¬ IsKeptBit y.lanes (map block_of ns) at bit) }
    ensures free { (o : Opening) (header : Header) (pool : PoolView) (start y : View) (steps : List Step) (shape : Shape) (ns : List NewObject) (at : Occ) (bit : ℕ)
        → MayGiveAllBack o header pool start steps y shape ns → IsKeptBit y.lanes (map block_of ns) at bit → bit_at (occ_in (with_given_back y ns) at) bit ≡ 0 }
    ensures not_making { (o : Opening) (header : Header) (pool : PoolView) (start y : View) (steps : List Step) (shape : Shape) (ns : List NewObject)
        → MayGiveAllBack o header pool start steps y shape ns → ReservesNoRun (with_given_back y ns).lanes (with_given_back y ns) }
    ensures apart { (v : View) → HasReserved v → LieApart (reserved_in v) }
{}

/// A law: where a lane alone has a call under way, with nothing undrained, it may give back the blocks of objects that lie in what it reserved, apart from what the
/// call made and from what is reserved and pending, as what the call gave up does: by steps none of which is a counted call. Behind them it works alone still,
/// and gave back what its call uses no more; it has no bit of these blocks reserved, and each other as before, and what else it reserved for an object it has for
/// that still. Their bits are clear in its picture of the occupancy words, it is at work as it was, and its call goes on. No code runs.
pub fn a_lane_alone_gives_back_within_a_call()
    ensures may { (o : Opening) (header : Header) (pool : PoolView) (start v : View) (steps : List Step) (shape : Shape) (level : ℕ) (ns : List NewObject)
        → IsCallAlone o header pool start steps v shape level → v.changes ≡ [] → All (IsReservedFor v) ns → LieApart ns
        → ((n k : NewObject) → Contains ns n → Contains (in_use v) k → AreDisjoint (block_of n) (block_of k)) → MayGiveInCall o header pool start steps v shape ns }
    ensures canceled { (v next : View) → HasReserved v → Tells v next Cancel None → (n k : NewObject) → Contains (reserved_in v) n → Contains (in_use next) k
        → AreDisjoint (block_of n) (block_of k) }
    ensures ready { (o : Opening) (header : Header) (pool : PoolView) (start v : View) (steps : List Step) (shape : Shape) (ns : List NewObject)
        → MayGiveInCall o header pool start steps v shape ns → Ready v (gives_back v.lanes ns) }
    ensures may_each { (o : Opening) (header : Header) (pool : PoolView) (start v : View) (steps : List Step) (shape : Shape) (given rest : List NewObject) (n : NewObject)
        → MayGiveInCall o header pool start steps v shape (given ++ n ∷ rest) → MayGiveObjectBack (with_given_back v given) shape n }
    ensures works { (o : Opening) (header : Header) (pool : PoolView) (start v : View) (steps : List Step) (shape : Shape) (ns : List NewObject)
        → MayGiveInCall o header pool start steps v shape ns
        → WorksAlone o header pool start (steps ++ gives_back v.lanes ns) (with_given_back v ns) }
    ensures gives { (o : Opening) (header : Header) (pool : PoolView) (start v : View) (steps : List Step) (shape : Shape) (ns : List NewObject)
        → MayGiveInCall o header pool start steps v shape ns → GivesUnused v (with_given_back v ns) }
    ensures same { (o : Opening) (header : Header) (pool : PoolView) (start v : View) (steps : List Step) (shape : Shape) (ns : List NewObject)
        → MayGiveInCall o header pool start steps v shape ns → let x = with_given_back v ns in
        x ≡ record v { run_words = x.run_words; zone_words = x.zone_words; known = x.known; reserved = x.reserved; freed = x.freed } }
    ensures left { (o : Opening) (header : Header) (pool : PoolView) (start v : View) (steps : List Step) (shape : Shape) (ns : List NewObject) (at : Occ) (bit : ℕ)
        → MayGiveInCall o header pool start steps v shape ns → bit < 64
        → (reserves (with_given_back v ns) at bit ≡ true) ↔ ((reserves v at bit ≡ true) × ¬ IsKeptBit v.lanes (map block_of ns) at bit) }
    ensures others { (o : Opening) (header : Header) (pool : PoolView) (start v : View) (steps : List Step) (shape : Shape) (ns : List NewObject)
        → MayGiveInCall o header pool start steps v shape ns → (k : NewObject) → IsReservedFor v k
        → ((n : NewObject) → Contains ns n → AreDisjoint (block_of n) (block_of k)) → IsReservedFor (with_given_back v ns) k }
    ensures free { (o : Opening) (header : Header) (pool : PoolView) (start v : View) (steps : List Step) (shape : Shape) (ns : List NewObject) (at : Occ) (bit : ℕ)
        → MayGiveInCall o header pool start steps v shape ns → IsKeptBit v.lanes (map block_of ns) at bit → bit_at (occ_in (with_given_back v ns) at) bit ≡ 0 }
    ensures not_making { (o : Opening) (header : Header) (pool : PoolView) (start v : View) (steps : List Step) (shape : Shape) (ns : List NewObject)
        → MayGiveInCall o header pool start steps v shape ns → ReservesNoRun (with_given_back v ns).lanes (with_given_back v ns) }
    ensures working { (o : Opening) (header : Header) (pool : PoolView) (start v : View) (steps : List Step) (shape : Shape) (ns : List NewObject)
        → MayGiveInCall o header pool start steps v shape ns → IsWorking v → IsWorking (with_given_back v ns) }
    ensures goes_on { (o : Opening) (header : Header) (pool : PoolView) (start v : View) (steps : List Step) (shape : Shape) (level : ℕ) (ns : List NewObject)
        → MayGiveInCall o header pool start steps v shape ns → IsCallAlone o header pool start steps v shape level
        → IsCallAlone o header pool start (steps ++ gives_back v.lanes ns) (with_given_back v ns) shape level }
{}
