ghost use Rattle.std.specs.Prelude.{◌≡◌, ◌^◌, ◌<◌, ℕ, List, IfErr, IfOk, OnOk, slice_index};
ghost use Rattle.std.specs.Prelude.{string_bytes};
ghost use Rattle.pm_image.specs.Means.{IsMeaning};
ghost use Rattle.pm_lanes.specs.declared.fault.OpenFault.{OpenFault};
ghost use Rattle.pm_lanes.specs.Opens.{IsOpenCause, IsOpened, IsRefusedFor, MayRun};
ghost use Rattle.pm_objects.specs.declared.pool.PoolView.{PoolView};
ghost use Rattle.pm_recover.specs.Recovery.{HasMeaning, IsRecovered};
ghost use Rattle.pm_shared.specs.Openings.{CanBegin};
ghost use Rattle.std.specs.Str.{IsUtf8};

use crate::fault::OpenFault;
use pm_image::{MeansFault, means};
use pm_layout::{BadShape, Shape};
use pm_objects::{PoolView, Sequence, Stops};
use pm_raw::RawImage;
use pm_recover::{RecoverFault, recover};
use pm_shared::{Beginning, Occupancy};
use std::alloc::{AllocError, Global};

/// Opens a pool for lanes: its image is recovered, and the words that lanes begin on are made.
/// `lanes` run, 1 to the pool's, and each stops after its number of counted calls in `stops`, if
/// it has one. A copy of the image is recovered, so that no word of it changes where it comes back.
///
/// # Errors
///
/// The first of these, with the image as it was.
///
/// - `Memory`: there is no memory for the words; also where the opening needs more as it goes on.
/// - `Image`: the image has this fault (docs/FORMAT.md, "Faults").
/// - `Layout`: the pool has another layout name.
/// - `Lanes`: `lanes` is 0, or more than the pool has.
pub fn open<'a>(
    alloc: Global,
    image: RawImage,
    layout: &'a str,
    lanes: u64,
    stops: Stops,
) -> Result<Beginning, (RawImage, OpenFault<'a>)>
    ensures begins { IfOk result CanBegin }
    ensures opened { IfOk result (λ b. IsOpened image layout.now b.words.items b.shape b.pool) }
    ensures lanes { IfOk result (λ b. b.lanes ≡ lanes) }
    ensures stops { IfOk result (λ b. b.stops ≡ stops) }
    ensures unchanged { IfErr result (λ e. e.0 ≡ image) }
    ensures cause { IfErr result (λ e. IsOpenCause image layout.now lanes e.1) }
    ensures refused { (fault : OpenFault) → IsOpenCause image layout.now lanes fault
        → IsRefusedFor fault result }
{
    let Ok(copy) = image.copy(alloc) else {
        return Err((image, OpenFault::Memory));
    };
    match open_in_place(alloc, copy, layout, lanes, stops) {
        Ok(beginning) => Ok(beginning),
        Err(fault) => Err((image, fault)),
    }
}

/// Opens a pool for lanes as `open` does, in the memory that the image has: it is recovered there,
/// and no other room is taken for its words. The image is gone, whatever the answer.
///
/// # Errors
///
/// The first of these; nothing is left of the image.
///
/// - `Image`: the image has this fault (docs/FORMAT.md, "Faults").
/// - `Layout`: the pool has another layout name.
/// - `Lanes`: `lanes` is 0, or more than the pool has.
/// - `Memory`: there is no memory for what is read of it.
pub fn open_in_place<'a>(
    alloc: Global,
    image: RawImage,
    layout: &'a str,
    lanes: u64,
    stops: Stops,
) -> Result<Beginning, OpenFault<'a>>
    ensures begins { IfOk result CanBegin }
    ensures opened { IfOk result
        (λ b. IsOpened image layout.now b.words.items b.shape b.pool) }
    ensures lanes { IfOk result (λ b. b.lanes ≡ lanes) }
    ensures stops { IfOk result (λ b. b.stops ≡ stops) }
    ensures cause { IfErr result (IsOpenCause image layout.now lanes) }
{
    let pool = meaning(alloc, &image)?;
    let named = of_layout(pool, layout)?;
    check_lanes(&named, lanes)?;
    let words = recovered(alloc, image)?;
    let shape = shape_of(&named);
    let Occupancy { runs, zones } = Occupancy::of_words(alloc, shape, &words)?;
    Ok(Beginning {
        shape,
        pool: named.id,
        lanes,
        stops,
        words,
        runs,
        zones,
    })
}

/// What the image means.
fn meaning(alloc: Global, image: &RawImage) -> Result<PoolView, OpenFault<'static>>
    ensures means { IfOk result (IsMeaning image.now) }
    ensures cause { IfErr result
        (λ e. (layout : List ℕ) (lanes : ℕ) → IsOpenCause image.now layout lanes e) }
{
    match means(alloc, image) {
        Ok(pool) => Ok(pool),
        Err(MeansFault::Image(found)) => Err(OpenFault::Image(found)),
        Err(MeansFault::Memory) => Err(OpenFault::Memory),
    }
}

/// The pool, if it has this layout name.
fn of_layout(pool: PoolView, layout: &str) -> Result<PoolView, OpenFault<'_>>
    requires { IsUtf8 pool.name }
    ensures same { IfOk result (λ named. named ≡ pool) }
    ensures named { OnOk result (pool.name ≡ layout.now) }
    ensures cause { IfErr result (λ e. (image : List ℕ) (lanes : ℕ) → IsMeaning image pool
        → IsOpenCause image layout.entry.now lanes e) }
{
    if pool.name.as_slice() == layout.as_bytes() {
        Ok(pool)
    } else {
        Err(OpenFault::Layout {
            asked: layout,
            kept: text_of(pool.name),
        })
    }
}

/// The text of a name.
fn text_of(name: Sequence<u8>) -> String
    requires { IsUtf8 name }
    ensures { string_bytes result ≡ name }
{
    match String::from_utf8(name.into_vec()) {
        Ok(text) => text,
        Err(_) => unreachable!(),
    }
}

/// Whether so many lanes may run on the pool.
fn check_lanes(pool: &PoolView, lanes: u64) -> Result<(), OpenFault<'static>>
    ensures run { OnOk result (MayRun pool.now lanes) }
    ensures cause { IfErr result (λ e. (image : List ℕ) → IsMeaning image pool.now
        → IsOpenCause image pool.now.name lanes e) }
{
    if 1 <= lanes && lanes <= pool.lanes {
        Ok(())
    } else {
        Err(OpenFault::Lanes {
            asked: lanes,
            kept: pool.lanes,
        })
    }
}

/// The shape of a pool that an image means.
fn shape_of(pool: &PoolView) -> Shape
    requires { (image : List ℕ) × IsMeaning image pool.now }
    ensures lanes { result.lanes ≡ pool.now.lanes }
    ensures zones { result.zones ≡ pool.now.zones }
{
    match Shape::new(pool.lanes, pool.zones) {
        Ok(shape) => shape,
        Err(BadShape) => unreachable!(),
    }
}

/// The words that recovery makes of an image that means a pool, in the memory that it has.
fn recovered(alloc: Global, image: RawImage) -> Result<Vec<u64>, AllocError>
    requires { HasMeaning image }
    ensures words { IfOk result (λ words. (pool : PoolView) → IsMeaning image pool
        → IsRecovered image words.items pool.lanes) }
    ensures small { IfOk result (λ words. (w : ℕ) → slice_index words.items w < 2 ^ 64) }
{
    let mut image = image;
    match recover(alloc, &mut image) {
        Ok(()) => Ok(words_of(image)),
        Err(RecoverFault::Image(_)) => unreachable!(),
        Err(RecoverFault::Memory(error)) => Err(error),
    }
}

/// The words of an image, each below 2^64, in the memory that they have.
fn words_of(image: RawImage) -> Vec<u64>
    ensures same { result.items ≡ image }
    ensures small { (w : ℕ) → slice_index result.items w < 2 ^ 64 }
{
    let words = image.into_vec();
    read_each(words.as_slice());
    words
}

/// Reads each word. A proof knows the range of a word only where the code reads it; a compiler
/// leaves the loop out.
fn read_each(words: &[u64])
    ensures { (w : ℕ) → slice_index words.now w < 2 ^ 64 }
{
    for i in 0..words.len() {
        let _word = words[i];
    }
}
