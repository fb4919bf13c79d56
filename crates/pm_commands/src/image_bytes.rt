ghost use Rattle.std.specs.Prelude.{◌≡◌, ◌%◌, ◌^◌, ◌<◌, length, IfOk};
ghost use Rattle.pm_words.specs.Words.{bytes_of, words_of};

use pm_layout::WORD_BYTES;
use pm_raw::RawImage;
use pm_words::{bytes_of, words_of};
use std::alloc::{AllocError, Global};

/// Words of a line.
const LINE_WORDS: u64 = 8;

/// Bytes of a line.
const LINE_BYTES: usize = 64;

/// The bytes of the image, as a pool file has them.
pub fn image_bytes(alloc: Global, image: &RawImage) -> Result<Vec<u8>, AllocError>
    requires { length image.now % 8 ≡ 0 }
    ensures { IfOk result (λ bytes. bytes.items ≡ bytes_of image.now) }
{
    let mut bytes = Vec::new(alloc);
    for line in 0..image.len() / LINE_WORDS {
        let mut part = [0; LINE_BYTES];
        bytes_of(image.line(line), &mut part);
        bytes.extend_from_slice(&part)?;
    }
    Ok(bytes)
}

/// The bytes of some words, as a pool file has them.
pub fn bytes_of_words(alloc: Global, words: &[u64]) -> Result<Vec<u8>, AllocError>
    requires { length words.now < 2 ^ 60 }
    ensures { IfOk result (λ bytes. bytes.items ≡ bytes_of words.now) }
{
    let mut bytes = vec![in alloc; 0; words.len() * WORD_BYTES as usize]?;
    bytes_of(words, &mut bytes);
    Ok(bytes)
}

/// The image that these bytes are.
pub fn image_of(alloc: Global, bytes: &[u8]) -> Result<RawImage, AllocError>
    requires { length bytes.now % 8 ≡ 0 }
    ensures { IfOk result (λ image. image ≡ words_of bytes.now) }
{
    let mut words = vec![in alloc; 0; bytes.len() / WORD_BYTES as usize]?;
    words_of(bytes, &mut words);
    Ok(RawImage::from_vec(words))
}
