//! What is told in answer to a question.

ghost use Rattle.std.specs.Prelude.{◌≡◌, IfOk};
ghost use Rattle.relationships.specs.declared.mark.Mark.TheVariants as mark;
ghost use Rattle.result_rules.specs.Rules.{Accepts};
ghost use Rattle.telling.specs.Told.{IsLineOf, IsToldOfEdge, AnswersEdge, Answers};

use crate::edges::line_of;
use crate::paths::tell_path;
use crate::proving::{order_of, proof_of};
use crate::reaching::walk_against;
use crate::told::{Question, Told};
use relationships::Mark;
use result_text::{EdgeLine, ResultFile};
use std::alloc::Global;
use tor_arena::{Keys, NoMemory};

/// What is told of an open edge by its line.
fn tell_open(
    alloc: Global,
    keys: Keys,
    file: &ResultFile,
    one: u32,
    other: u32,
    line: EdgeLine,
) -> Result<Told, NoMemory>
    requires accepted { Accepts file.now }
    requires line { IsLineOf file.now one other line }
    requires is_open { line.mark ≡ mark.Open }
    ensures { IfOk result (IsToldOfEdge file.now one other) }
{
    let Some(_) = order_of(&line) else {
        return Ok(Told::Peering { line });
    };
    let (probe, walk) = walk_against(alloc, keys, file, &line)?;
    Ok(Told::Open { line, probe, walk })
}

/// What is told of an edge by its line.
fn tell_line(
    alloc: Global,
    keys: Keys,
    file: &ResultFile,
    one: u32,
    other: u32,
    line: EdgeLine,
) -> Result<Told, NoMemory>
    requires accepted { Accepts file.now }
    requires line { IsLineOf file.now one other line }
    ensures { IfOk result (IsToldOfEdge file.now one other) }
{
    match line.mark {
        Mark::Forced => {
            let whys = proof_of(alloc, file, &line)?;
            Ok(Told::Forced { line, whys })
        }
        Mark::Open => tell_open(alloc, keys, file, one, other, line),
    }
}

/// What is told of the edge of two ASes.
fn tell_edge(
    alloc: Global,
    keys: Keys,
    file: &ResultFile,
    one: u32,
    other: u32,
) -> Result<Option<Told>, NoMemory>
    requires accepted { Accepts file.now }
    ensures { IfOk result (AnswersEdge file.now one other) }
{
    let Some(line) = line_of(file, one, other) else {
        return Ok(None);
    };
    let told = tell_line(alloc, keys, file, one, other, line)?;
    Ok(Some(told))
}

/// What answers a question: why an edge is what it is, or a path kept or lost; none if the edge or the path isn't there. The keys are
/// those of hash tables. NoMemory where memory ran out.
pub fn tell(
    alloc: Global,
    keys: Keys,
    file: &ResultFile,
    question: Question,
) -> Result<Option<Told>, NoMemory>
    requires accepted { Accepts file.now }
    ensures { IfOk result (Answers file.now question) }
{
    match question {
        Question::Edge { one, other } => tell_edge(alloc, keys, file, one, other),
        Question::Path { number } => tell_path(alloc, keys, file, number),
    }
}
