//! How many objects' bytes, runs, sealed lanes and valid undo records an image has.

ghost use Rattle.std.specs.Prelude.{◌≡◌, ◌+◌, ◌*◌, ◌≤◌, All, IfOk, length, slice_index, sum_by};
ghost use Rattle.pm_image.specs.Blocks.{class_in, descriptor_word};
ghost use Rattle.pm_image.specs.Logs.{records};
ghost use Rattle.pm_image.specs.Means.{IsMeaning};
ghost use Rattle.pm_image.specs.Steps.{HasLanes};
ghost use Rattle.pm_info.specs.Facts.{is_run, runs, runs_by, sealed_lanes, size_of, valid_records, HasFewBytes};

use pm_image::{is_sealed, valid_record};
use pm_layout::{
    CHUNKS_PER_ZONE, DESCRIPTOR_UNIT, LANE_WORDS, PAGE_WORDS, RUN, UNDO_SLOTS, ZONE_WORDS,
    blocks_of,
};
use pm_objects::{Object, PoolView};
use pm_raw::RawImage;
use pm_recover::recover;
use std::alloc::{AllocError, Global};

/// The bytes of all objects together.
pub fn data_bytes(objects: &[(u64, Object)]) -> u64
    requires sizes { All HasFewBytes objects.now }
    requires few { length objects.now ≤ 131072 }
    ensures { result ≡ sum_by size_of objects.now }
{
    let mut bytes = 0;
    for (_, object) in objects {
        bytes += object.bytes.as_slice().len() as u64;
    }
    bytes
}

/// The runs that the image's recovered descriptors make.
pub fn run_count(alloc: Global, image: &RawImage, pool: &PoolView) -> Result<u64, AllocError>
    requires { IsMeaning image.now pool.now }
    ensures { IfOk result (λ count. count ≡ runs image.now pool.now) }
{
    let mut recovered = image.copy(alloc)?;
    let Ok(()) = recover(alloc, &mut recovered) else {
        // An image that means a pool has no fault.
        return Err(AllocError);
    };
    Ok(runs_in(&recovered, pool.lanes, pool.zones))
}

/// The runs that descriptors make in an image of so many lanes and zones.
fn runs_in(words: &RawImage, lanes: u64, zones: u64) -> u64
    requires size { 512 + 1024 * lanes + 33280 * zones ≤ length words.now }
    requires small { length words.now ≤ 1098240 }
    ensures { result ≡ runs_by (slice_index words.now) lanes zones }
{
    let mut count = 0;
    for chunk in 0..CHUNKS_PER_ZONE * zones {
        count += u64::from(is_run(words.word(descriptor_at(lanes, chunk))));
    }
    count
}

/// The word that has a chunk's descriptor. Chunks are counted through all zones.
fn descriptor_at(lanes: u64, chunk: u64) -> u64
    requires { 512 + 1024 * lanes + 520 * chunk ≤ 1098240 }
    ensures { result ≡ descriptor_word lanes chunk }
{
    let zone = chunk / CHUNKS_PER_ZONE;
    PAGE_WORDS + LANE_WORDS * lanes + ZONE_WORDS * zone + chunk % CHUNKS_PER_ZONE
}

/// Whether the descriptor is that of a run.
fn is_run(descriptor: u64) -> bool
    ensures { result ≡ is_run (class_in descriptor) }
{
    let is_of_run = descriptor % DESCRIPTOR_UNIT == RUN;
    is_of_run && blocks_of(descriptor / DESCRIPTOR_UNIT) > 0
}

/// The sealed ones of so many lanes.
pub fn sealed_count(image: &RawImage, lanes: u64) -> u64
    requires { HasLanes image.now lanes }
    ensures { result ≡ sealed_lanes image.now lanes }
{
    let mut count = 0;
    for lane in 0..lanes {
        count += u64::from(is_sealed(image, lane));
    }
    count
}

/// The valid undo records of so many lanes.
pub fn record_count(image: &RawImage, lanes: u64) -> u64
    requires { HasLanes image.now lanes }
    ensures { result ≡ valid_records image.now lanes }
{
    let mut count = 0;
    for lane in 0..lanes {
        count += lane_records(image, lane);
    }
    count
}

/// The valid undo records of a lane, 64 at most.
fn lane_records(image: &RawImage, lane: u64) -> u64
    requires { HasLanes image.now (lane + 1) }
    ensures value { result ≡ length (records image.now lane) }
    ensures few { result ≤ 64 }
{
    let mut count = 0;
    for slot in 0..UNDO_SLOTS {
        count += u64::from(valid_record(image, lane, slot).is_some());
    }
    count
}
