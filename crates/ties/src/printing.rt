//! The text of ties.
ghost use Rattle.std.specs.Prelude.{◌≡◌, ◌++◌, ◌∷◌, IfOk, OnOk};
ghost use Rattle.std.specs.Fmt.{decimal};
ghost use Rattle.ties.specs.TiesText.{side_text, tie_text, tie_texts, class_count, counts_text, ties_text};

use crate::table::TieLine;
use crate::tie::Side;
use std::alloc::Global;
use text_fields::put_number;
use tor_arena::{List, NoMemory};

// How many classes there are: the greatest number of one.
fn class_count(lines: &[TieLine]) -> u32
    ensures { result ≡ class_count lines.now }
{
    let mut greatest = 0;
    for line in lines {
        greatest = greatest.max(line.class);
    }
    greatest
}

// The word for a side.
fn side_word(side: Side) -> &'static [u8]
    ensures { result.now ≡ side_text side }
{
    match side {
        Side::With => b"with",
        Side::Against => b"against",
    }
}

// Each function puts something at the end, lines with their line feed.
fn put_bar_and_number(out: &mut List<u8>, n: u64) -> Result<(), NoMemory>
    ensures { OnOk result (out.new ≡ out.old ++ 124 ∷ decimal n) }
{
    out.push(b'|')?;
    put_number(out, n)
}

fn put_tie(out: &mut List<u8>, line: TieLine) -> Result<(), NoMemory>
    ensures { OnOk result (out.new ≡ out.old ++ tie_text line) }
{
    out.extend_from_slice(b"tie")?;
    put_bar_and_number(out, u64::from(line.low))?;
    put_bar_and_number(out, u64::from(line.high))?;
    put_bar_and_number(out, u64::from(line.class))?;
    out.push(b'|')?;
    out.extend_from_slice(side_word(line.side))?;
    out.push(b'\n')
}

fn put_ties(out: &mut List<u8>, lines: &[TieLine]) -> Result<(), NoMemory>
    ensures { OnOk result (out.new ≡ out.old ++ tie_texts lines.now) }
{
    for line in lines {
        put_tie(out, *line)?;
    }
    Ok(())
}

fn put_counts(out: &mut List<u8>, lines: &[TieLine]) -> Result<(), NoMemory>
    ensures { OnOk result (out.new ≡ out.old ++ counts_text lines.now) }
{
    out.extend_from_slice(b"ties")?;
    put_bar_and_number(out, lines.len() as u64)?;
    put_bar_and_number(out, u64::from(class_count(lines)))?;
    out.push(b'\n')
}

/// The text of ties: a line for each open edge, and a last line with the numbers of open edges and of classes. The only error is that
/// memory ran out.
pub fn text_of(alloc: Global, lines: &[TieLine]) -> Result<List<u8>, NoMemory>
    ensures { IfOk result (λ text. text ≡ ties_text lines.now) }
{
    let mut out = List::new(alloc);
    put_ties(&mut out, lines)?;
    put_counts(&mut out, lines)?;
    Ok(out)
}
