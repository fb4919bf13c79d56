ghost use Rattle.std.specs.Prelude.{◌≡◌, ◌≤◌, length};
ghost use Rattle.std.specs.List.{All};
ghost use Rattle.pm_view.specs.View.{View};
ghost use Rattle.pm_plan.specs.Plans.{IsMade, IsReady, Ready};
ghost use Rattle.pm_undo.specs.Plans.{looked_first, looked_span, looks_at, looks_from};
ghost use Rattle.pm_undo.specs.Spans.{IsSpan};

use crate::spans::Span;
use arrayvec::ArrayVec;
use pm_plan::look;
use pm_world::{KeptRecord, LawfulMem};

/// The words of a span, with zeros after them.
fn read_span<M: LawfulMem>(mem: &mut M, span: Span) -> KeptRecord
    requires span { IsSpan span }
    requires ready { IsReady (M.at mem.old) (looks_from span.word span.count) }
    ensures made { IsMade (M.at mem.old) (M.at mem.new) (looks_from span.word span.count) }
    ensures found { (v : View) → M.at mem.old v → Ready v (looks_from span.word span.count v)
        → result ≡ looked_span span v }
{
    let mut old = [0; 4];
    for i in 0..span.count {
        old[i as usize] = look(mem, span.word + i);
    }
    KeptRecord {
        word: span.word,
        count: span.count,
        old,
    }
}

/// The words of some spans.
pub fn read_all<M: LawfulMem>(mem: &mut M, spans: &[Span]) -> ArrayVec<KeptRecord, 64>
    requires few { length spans.now ≤ 64 }
    requires spans { All IsSpan spans.now }
    requires ready { IsReady (M.at mem.old) (looks_at spans.now) }
    ensures made { IsMade (M.at mem.old) (M.at mem.new) (looks_at spans.now) }
    ensures found { (v : View) → M.at mem.old v → Ready v (looks_at spans.now v)
        → result.items ≡ looked_first spans.now (length spans.now) v }
    ensures many { length result.items ≡ length spans.now }
{
    let mut kept = ArrayVec::new();
    for span in spans {
        kept.push(read_span(mem, *span));
    }
    kept
}
