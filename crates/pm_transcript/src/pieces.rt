//! Pieces of a file: bytes of it that are read or written over.
ghost use Rattle.std.specs.Prelude.{◌≡◌, ◌+◌, ◌<◌, ◌≤◌, length, IfNone, IfSome, OnSome};
ghost use Rattle.pm_transcript.specs.Pieces.{overwritten, piece};

/// Bytes of the file, so many from this place on; `None` where it ends before.
pub fn piece(file: &[u8], at: usize, count: usize) -> Option<&[u8]>
    ensures some { IfSome result (λ bytes. bytes.now ≡ piece file.now at count) }
    ensures size { IfSome result (λ bytes. length bytes.now ≡ count) }
    ensures none { IfNone result (length file.now < at + count) }
{
    let rest = file.get(at..)?;
    rest.get(..count)
}

/// Makes the file's bytes from this place on these; `None` where it ends before, and stays as it
/// was.
pub fn overwrite(file: &mut [u8], at: usize, bytes: &[u8]) -> Option<()>
    ensures some { OnSome result (file.new ≡ overwritten file.old at bytes.now) }
    ensures none { IfNone result (length file.old < at + length bytes.now) }
    ensures stays { IfNone result (file.new ≡ file.old) }
{
    if at > file.len() || bytes.len() > file.len() - at {
        return None;
    }
    let (_, rest) = file.split_at_mut(at);
    let (part, _) = rest.split_at_mut(bytes.len());
    part.copy_from_slice(bytes);
    Some(())
}
