ghost use Rattle.std.specs.Prelude.{◌≡◌, ◌≢◌, []};
ghost use Rattle.pm_script.specs.Contexts as contexts;
ghost use Rattle.pm_script.specs.Grammar.{keyword_of};
ghost use Rattle.pm_script.specs.Reading.{AreReadAs, IsReadAs};
ghost use Rattle.pm_script.specs.Words.{texts};
ghost use Rattle.pm_script.specs.declared.statement.Keyword.TheVariants as keyword;

use crate::context::Context;
use crate::either::{self, EitherWord};
use crate::fault::{LineFault, Why};
use crate::inside::{self, InsideWord};
use crate::numbers::number;
use crate::outside::{self, OutsideWord};
use crate::script::ScriptOp;
use pm_layout::MAX_LANES;
use std::alloc::Global;

/// The first word of a line: `lane`, or a word by the place where it stands.
#[derive(Clone, Copy, Debug, PartialEq, Eq)]
pub enum Keyword {
    Lane,
    Either(EitherWord),
    Inside(InsideWord),
    Outside(OutsideWord),
}

/// What a line says.
#[derive(Drop)]
pub enum Statement {
    /// The lines after it are this lane's.
    Lane(u64),
    Operation(ScriptOp),
}

/// What the words of a line say in its place.
pub fn statement_of(
    alloc: Global,
    context: &Context,
    words: &[&str],
) -> Result<Statement, LineFault>
    requires { texts words.now ≢ [] }
    ensures { AreReadAs context.now (texts words.now) result }
{
    let keyword = keyword_of(words[0]).ok_or(Why::Word)?;
    let operands = &words[1..];
    match keyword {
        Keyword::Lane => lane_of(operands),
        Keyword::Either(word) => either::read(alloc, context, word, operands),
        Keyword::Inside(word) => inside::read(alloc, context, word, operands),
        Keyword::Outside(word) => outside::read(context, word, operands),
    }
}

fn keyword_of(word: &str) -> Option<Keyword>
    ensures { result ≡ keyword_of word.now }
{
    if word == "lane" {
        return Some(Keyword::Lane);
    }
    if let Some(word) = either::word_of(word) {
        return Some(Keyword::Either(word));
    }
    if let Some(word) = inside::word_of(word) {
        return Some(Keyword::Inside(word));
    }
    outside::word_of(word).map(Keyword::Outside)
}

/// Reads `lane K`.
fn lane_of(operands: &[&str]) -> Result<Statement, LineFault>
    ensures { (context : contexts.Context) → IsReadAs context keyword.Lane (texts operands.now) result }
{
    let [lane] = operands else {
        return Err(LineFault::Bad(Why::Count));
    };
    let lane = number(lane).ok_or(Why::Number)?;
    if lane >= MAX_LANES {
        return Err(LineFault::Bad(Why::LaneNumber));
    }
    Ok(Statement::Lane(lane))
}
