ghost use Rattle.std.specs.Prelude.{◌≡◌, ◌==◌, ◌+◌, ◌<◌, ◌≤◌, length, position, IfSome, MatchOption, OnOk, OnErr, IsErrOf};
ghost use Rattle.pm_shelf.specs.Outside.{Rose, gained, GainedPart};
ghost use Rattle.pm_text.specs.Lines.{GainedLines};

use pm_shelf::{Sink, SinkFault};

/// Puts the text into the sink, one put for each line with its line feed, which the last line may lack; an empty text makes
/// no put. It takes no memory itself. `Failed` says that the outside failed, and the sink may have any front of the text;
/// `Memory` says that the sink had no memory, and it has some whole lines.
pub fn put_lines<K: Sink>(text: &[u8], out: &mut K) -> Result<(), SinkFault>
    ensures ok { OnOk result (K.told out.new ≡ gained (K.told out.old) text.now) }
    ensures failed { IsErrOf result SinkFault.Failed →
        Rose (K.faults out.old) (K.faults out.new) }
    ensures part { OnErr result (GainedPart (K.told out.old) (K.told out.new) text.now) }
    ensures lines { IsErrOf result SinkFault.Memory →
        GainedLines (K.told out.old) (K.told out.new) text.now }
    ensures count { K.faults out.old ≤ K.faults out.new }
{
    let mut rest = text;
    while !rest.is_empty() {
        let (line, others) = rest.split_at(line_length(rest));
        out.put(line)?;
        rest = others;
    }
    Ok(())
}

/// The bytes of the first line with its line feed; of all where there is none.
fn line_length(text: &[u8]) -> usize
    ensures line { MatchOption (position (λ byte. byte == 10) text.now)
        (result ≡ length text.now) (λ i. result ≡ i + 1) }
    ensures within { result ≤ length text.now }
    ensures some { 0 < length text.now → 0 < result }
{
    match first_line_feed(text) {
        Some(i) => i + 1,
        None => text.len(),
    }
}

/// The place of the first line feed.
fn first_line_feed(text: &[u8]) -> Option<usize>
    ensures place { result ≡ position (λ byte. byte == 10) text.now }
    ensures within { IfSome result (λ i. i < length text.now) }
{
    text.iter().position(|byte| *byte == b'\n')
}
