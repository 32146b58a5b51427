//! The text of what would settle most.
ghost use Rattle.std.specs.Prelude.{◌≡◌, ◌++◌, ◌∷◌, IfOk, OnOk};
ghost use Rattle.std.specs.Fmt.{decimal};
ghost use Rattle.asks.specs.AsksText.{ask_text, ask_texts, ask_count_text, asks_text};

use crate::table::AskLine;
use std::alloc::Global;
use text_fields::put_number;
use tor_arena::{List, NoMemory};

// Each function puts something at the end, lines with their line feed.
fn put_bar_and_number(out: &mut List<u8>, n: u64) -> Result<(), NoMemory>
    ensures { OnOk result (out.new ≡ out.old ++ 124 ∷ decimal n) }
{
    out.push(b'|')?;
    put_number(out, n)
}

fn put_ask(out: &mut List<u8>, line: AskLine) -> Result<(), NoMemory>
    ensures { OnOk result (out.new ≡ out.old ++ ask_text line) }
{
    out.extend_from_slice(b"ask")?;
    put_bar_and_number(out, u64::from(line.low))?;
    put_bar_and_number(out, u64::from(line.high))?;
    put_bar_and_number(out, u64::from(line.if_low))?;
    put_bar_and_number(out, u64::from(line.if_high))?;
    out.push(b'\n')
}

fn put_asks(out: &mut List<u8>, lines: &[AskLine]) -> Result<(), NoMemory>
    ensures { OnOk result (out.new ≡ out.old ++ ask_texts lines.now) }
{
    for line in lines {
        put_ask(out, *line)?;
    }
    Ok(())
}

fn put_count(out: &mut List<u8>, lines: &[AskLine]) -> Result<(), NoMemory>
    ensures { OnOk result (out.new ≡ out.old ++ ask_count_text lines.now) }
{
    out.extend_from_slice(b"asks")?;
    put_bar_and_number(out, lines.len() as u64)?;
    out.push(b'\n')
}

/// The text of what would settle most: a line for each open edge, and a last line with their number. The only error is that memory ran out.
pub fn text_of(alloc: Global, lines: &[AskLine]) -> Result<List<u8>, NoMemory>
    ensures { IfOk result (λ text. text ≡ asks_text lines.now) }
{
    let mut out = List::new(alloc);
    put_asks(&mut out, lines)?;
    put_count(&mut out, lines)?;
    Ok(out)
}
