//! The text of a verdict.
ghost use Rattle.std.specs.Prelude.{◌≡◌, IfOk, string_bytes};
ghost use Rattle.result_file.specs.VerdictText.{verdict_text, no_text};

use result_rules::Verdict;
use std::alloc::{AllocError, Global};

/// The text of a verdict, as a line. The only error is that memory ran out.
pub fn verdict_text(alloc: Global, verdict: Verdict) -> Result<String, AllocError>
    ensures { IfOk result (λ text. string_bytes text ≡ verdict_text verdict) }
{
    match verdict {
        Verdict::Yes => String::from_str(alloc, "yes\n"),
        Verdict::No { line, rule } => no_text(alloc, line, rule),
    }
}

fn no_text(alloc: Global, line: u64, rule: u8) -> Result<String, AllocError>
    ensures { IfOk result (λ text. string_bytes text ≡ no_text line rule) }
{
    let mut text = format!(in alloc; "no|{line}|")?;
    match write!(text, "{rule}\n") {
        Ok(()) => Ok(text),
        Err(error) => {
            drop(text);
            Err(error)
        }
    }
}
