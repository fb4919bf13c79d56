ghost use Rattle.std.specs.Prelude.{◌≡◌, ◌+◌, ◌*◌, ◌<◌, ◌≤◌, ◌↔◌, IfOk, OnOk, IsErrOf};
ghost use Rattle.pm_header.specs.Name.{IsName};
ghost use Rattle.pm_pool.specs.Created.{CanCreate, created};

use crate::parts::{put_generations, put_header_page, put_root, root_offset};
use pm_header::{Header, Name, encode};
use pm_layout::{MAX_SIZE, PAGE_WORDS, ROOT_WORD, Shape, VERSION, WORD_BYTES};
use pm_raw::RawImage;
use std::alloc::{AllocError, Global};
use std::error::Error;
use std::fmt;

/// Why a pool is not made. The first that applies is told, and nothing is made. Printed by its name.
#[derive(Clone, Copy, Debug, PartialEq, Eq)]
pub enum CreateFault {
    /// The id is 0.
    BadId,
    /// The layout name is not 1 to 63 bytes of 0x21 to 0x7E.
    BadLayout,
    /// The root is to have more than 262,080 bytes.
    BadSize,
    /// There was no memory.
    Memory,
}

impl fmt::Display for CreateFault {
    ghost use Rattle.std.specs.Prelude.{Some};
    ghost use Rattle.pm_pool.specs.Texts.{create_fault_text};

    ghost output = { λ fault. Some (create_fault_text fault) };

    fn fmt<W: fmt::Write>(&self, f: &mut fmt::Formatter<W>) -> fmt::Result {
        f.write_str(match self {
            CreateFault::BadId => "BadId",
            CreateFault::BadLayout => "BadLayout",
            CreateFault::BadSize => "BadSize",
            CreateFault::Memory => "out of memory",
        })
    }
}

impl Error for CreateFault {}

/// A new pool of this shape, with this id, 1 or more, this layout name, and a root object of `root`
/// bytes with type 0, all zero; none where `root` is 0. The words are zero but for both header pairs,
/// each lane's generation, and what the root needs.
pub fn create(
    alloc: Global,
    shape: Shape,
    id: u64,
    layout: &str,
    root: u64,
) -> Result<RawImage, CreateFault>
    ensures created { IfOk result (λ image. image ≡ created (record { lanes = shape.lanes; zones = shape.zones; id = id; layout = layout.now; root = root })) }
    ensures can { OnOk result (CanCreate id layout.now root) }

    ensures bad_id { IsErrOf result CreateFault.BadId ↔ (id ≡ 0) }
    ensures bad_layout { IsErrOf result CreateFault.BadLayout ↔ ((1 ≤ id) × ¬ IsName layout.now) }
    ensures bad_size { IsErrOf result CreateFault.BadSize ↔ ((1 ≤ id) × IsName layout.now × (262080 < root)) }
{
    if id == 0 {
        return Err(CreateFault::BadId);
    }
    let Some(name) = Name::new(layout.as_bytes()) else {
        return Err(CreateFault::BadLayout);
    };
    if root > MAX_SIZE {
        return Err(CreateFault::BadSize);
    }
    match make(alloc, shape, id, name, root) {
        Ok(image) => Ok(image),
        Err(AllocError) => Err(CreateFault::Memory),
    }
}

/// The pool of values that were looked at.
fn make(alloc: Global, shape: Shape, id: u64, name: Name, root: u64) -> Result<RawImage, AllocError>
    requires { root ≤ 262080 }
    ensures { IfOk result (λ image. image ≡ created (record { lanes = shape.lanes; zones = shape.zones; id = id; layout = name; root = root })) }
{
    let mut page = [0; PAGE_WORDS as usize];
    page[ROOT_WORD as usize] = root_offset(shape, root);
    let header = Header {
        version: VERSION,
        id,
        lanes: shape.lanes,
        zones: shape.zones,
        bytes: shape.size(),
        name,
    };
    encode(&header, &mut page);
    let mut image = RawImage::new(alloc, shape.size() / WORD_BYTES)?;
    put_header_page(&mut image, &page);
    put_generations(&mut image, shape);
    put_root(&mut image, shape, root);
    Ok(image)
}
