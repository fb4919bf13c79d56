ghost use Rattle.std.specs.Prelude.{◌≡◌, ℕ, ◌<◌, false, [], Contains, List, slice_index};
ghost use Rattle.pm_header.specs.declared.header.Header.{Header};
ghost use Rattle.pm_objects.specs.declared.history.TxErr.{TxErr};
ghost use Rattle.pm_objects.specs.declared.pool.PoolView.{PoolView};
ghost use Rattle.pm_image.specs.Logs.{recovered_at};
ghost use Rattle.solo_view.specs.View.{View};
ghost use Rattle.solo_world.specs.Crash.{IsAcknowledged, NoneTorn, Survives};
ghost use Rattle.solo_world.specs.History.{Entry};
ghost use Rattle.solo_world.specs.Memory.{Memory};
ghost use Rattle.solo_world.specs.Opening.{IsSound, Opening};
ghost use Rattle.solo_world.specs.Opens.{IsClean, IsFresh, IsOpened};
ghost use Rattle.solo_world.specs.World.{Views, World};
ghost use Rattle.solo_crash.specs.Held.{HoldsImage, HoldsPool};
ghost use Rattle.solo_crash.specs.OneLane.{Begins, BeginsBetween, HoldsReplay, IsCourse, IsModelStep, MeansReplay, Moment, Move, beginning, kept_entries};
ghost use Rattle.solo_crash.specs.OpenCall.{IsGivenUp, IsWholeCall};

/// A law: an image that holds a pool, with each lane's log clean, is what a world can begin from: its words hold the pool as they stand, its
/// blocks lie apart behind the lanes' areas, and with fresh views over the memory as it is opened the world begins. No code runs.
pub fn a_recovered_pool_opens_a_world()
    ensures sound { (o : Opening) (header : Header) (pool : PoolView) → HoldsImage o.words o.lanes o.zones header pool
        → ((k : ℕ) → k < o.lanes → IsClean o k) → IsSound o }
    ensures holds { (o : Opening) (header : Header) (pool : PoolView) → HoldsImage o.words o.lanes o.zones header pool
        → ((k : ℕ) → k < o.lanes → IsClean o k) → HoldsPool (slice_index o.words) o.lanes o.zones header pool }
    ensures world { (o : Opening) (memory : Memory) (views : Views) (header : Header) (pool : PoolView)
        → HoldsImage o.words o.lanes o.zones header pool → ((k : ℕ) → k < o.lanes → IsClean o k)
        → ((k : ℕ) → k < o.lanes → IsFresh o k (views k)) → IsOpened o memory → World o memory views [] (λ n. false) }
{}

/// A law: a call that is whole is a step of the plain model, whatever pool it meets; and so is one that was given up, once its log has no
/// record. No code runs.
pub fn an_ended_call_is_a_model_step()
    ensures whole { (o : Opening) (v : View) → IsWholeCall v → IsModelStep o v }
    ensures given_up { (o : Opening) (v : View) (e : TxErr) → IsGivenUp v e → v.log.records ≡ [] → v.log.entries ≡ [] → IsModelStep o v }
{}

/// A law: where one lane alone makes steps, every image that a power failure leaves means the pool to which the entries that it does not lose
/// lead, in order, from the pool at the opening; its recovered words hold that pool; and it loses no call that has ended. So it is of a course
/// that begins between calls, from the words as they stand, with the calls so far. No code runs.
pub fn one_lanes_images_mean_the_replay()
    ensures meaning { (o : Opening) (memory : Memory) (views : Views) (k : ℕ) (header : Header) (pool : PoolView) (steps : List Move) (m : Moment) (image : List ℕ)
        → Begins o memory views k header pool → IsCourse o k (beginning memory views) steps m → Survives o m.memory m.views image → NoneTorn o m.views image
        → MeansReplay image pool (kept_entries o m image) }
    ensures replay { (o : Opening) (memory : Memory) (views : Views) (k : ℕ) (header : Header) (pool : PoolView) (steps : List Move) (m : Moment) (image : List ℕ)
        → Begins o memory views k header pool → IsCourse o k (beginning memory views) steps m → Survives o m.memory m.views image → NoneTorn o m.views image
        → HoldsReplay (recovered_at image o.lanes) o.lanes o.zones header pool (kept_entries o m image) }
    ensures ended { (o : Opening) (memory : Memory) (views : Views) (k : ℕ) (header : Header) (pool : PoolView) (steps : List Move) (m : Moment) (image : List ℕ)
        → Begins o memory views k header pool → IsCourse o k (beginning memory views) steps m
        → (e : Entry) → Contains m.log e → IsAcknowledged m.views e → Contains (kept_entries o m image) e }
    ensures between { (o : Opening) (k : ℕ) (header : Header) (pool : PoolView) (steps : List Move) (m : Moment) (image : List ℕ) (first : Moment)
        → BeginsBetween o k header pool first → IsCourse o k first steps m → Survives o m.memory m.views image → NoneTorn o m.views image
        → MeansReplay image pool (kept_entries o m image) }
    ensures between_ended { (o : Opening) (k : ℕ) (header : Header) (pool : PoolView) (steps : List Move) (m : Moment) (image : List ℕ) (first : Moment)
        → BeginsBetween o k header pool first → IsCourse o k first steps m
        → (e : Entry) → Contains m.log e → IsAcknowledged m.views e → Contains (kept_entries o m image) e }
{}
