//! The reading of a text that is there whole.
ghost use Rattle.std.specs.Prelude.{IfOk, IfErr};
ghost use Rattle.result_text.specs.Grammar.{IsTextOf};
ghost use Rattle.result_text.specs.Refusal.{Refuses};

use crate::error::ParseError;
use crate::file::ResultFile;
use crate::taking::Parser;
use std::alloc::Global;
use tor_arena::NoMemory;

/// The result whose text this is, or want of memory. BadLine comes only where the octets are no text, and names their bad line:
/// the first n lines don't stand there or begin no text, and n is the least such number.
pub fn parse(alloc: Global, bytes: &[u8]) -> Result<ResultFile, ParseError>
    ensures text { IfOk result (λ file. IsTextOf file bytes.now) }
    ensures refused { IfErr result (λ error. Refuses error bytes.now) }
{
    let mut parser = Parser::new(alloc);
    match parser.take(alloc, bytes) {
        Ok(()) => parser.finish(),
        Err(NoMemory) => {
            drop(parser);
            Err(ParseError::NoMemory)
        }
    }
}
