//! The text of a survey.
ghost use Rattle.std.specs.Prelude.{◌≡◌, ◌++◌, ◌∷◌, IfOk, OnOk};
ghost use Rattle.std.specs.Fmt.{decimal};
ghost use Rattle.mrt_header.specs.Kinds.{is_read};
ghost use Rattle.tor_survey.specs.SurveyText.{type_line, count_line, figure_lines, end_line, survey_text};
ghost use Rattle.tor_survey.specs.SurveyText.{read_line, read_lines, passed_line, passed_lines};

use crate::survey::{Figures, Survey};
use mrt_header::RecordKind;
use record_counts::TypeCount;
use result_text::{put_asides, put_number};
use std::alloc::Global;
use tor_arena::{List, NoMemory};

// Each function puts something at the end, lines with their line feed.
fn put_bar_and_number(out: &mut List<u8>, n: u64) -> Result<(), NoMemory>
    ensures { OnOk result (out.new ≡ out.old ++ 124 ∷ decimal n) }
{
    out.push(b'|')?;
    put_number(out, n)
}

fn put_type(out: &mut List<u8>, word: &[u8], count: TypeCount) -> Result<(), NoMemory>
    ensures { OnOk result (out.new ≡ out.old ++ type_line word.now count) }
{
    out.extend_from_slice(word)?;
    put_bar_and_number(out, u64::from(count.kind))?;
    put_bar_and_number(out, u64::from(count.subtype))?;
    put_bar_and_number(out, count.records)?;
    out.push(b'\n')
}

// Whether records of the type are read.
fn is_read(count: TypeCount) -> bool
    ensures { result ≡ is_read count.kind count.subtype }
{
    RecordKind::of(count.kind, count.subtype).is_some()
}

// The line of a type that is read, and nothing for another.
fn put_read(out: &mut List<u8>, count: TypeCount) -> Result<(), NoMemory>
    ensures { OnOk result (out.new ≡ out.old ++ read_line count) }
{
    if is_read(count) {
        put_type(out, b"read", count)
    } else {
        Ok(())
    }
}

// The line of a type that is passed over, and nothing for another.
fn put_passed(out: &mut List<u8>, count: TypeCount) -> Result<(), NoMemory>
    ensures { OnOk result (out.new ≡ out.old ++ passed_line count) }
{
    if is_read(count) {
        Ok(())
    } else {
        put_type(out, b"passed", count)
    }
}

fn put_reads(out: &mut List<u8>, types: &[TypeCount]) -> Result<(), NoMemory>
    ensures { OnOk result (out.new ≡ out.old ++ read_lines types.now) }
{
    for count in types {
        put_read(out, *count)?;
    }
    Ok(())
}

fn put_passes(out: &mut List<u8>, types: &[TypeCount]) -> Result<(), NoMemory>
    ensures { OnOk result (out.new ≡ out.old ++ passed_lines types.now) }
{
    for count in types {
        put_passed(out, *count)?;
    }
    Ok(())
}

fn put_count(out: &mut List<u8>, word: &[u8], n: u64) -> Result<(), NoMemory>
    ensures { OnOk result (out.new ≡ out.old ++ count_line word.now n) }
{
    out.extend_from_slice(word)?;
    put_bar_and_number(out, n)?;
    out.push(b'\n')
}

fn put_figures(out: &mut List<u8>, figures: Figures) -> Result<(), NoMemory>
    ensures { OnOk result (out.new ≡ out.old ++ figure_lines figures) }
{
    put_count(out, b"paths", figures.paths)?;
    put_count(out, b"ases", figures.ases)?;
    put_count(out, b"edges", figures.edges)?;
    put_count(out, b"longest", figures.longest)
}

fn put_end(out: &mut List<u8>, dumps: u64, records: u64) -> Result<(), NoMemory>
    ensures { OnOk result (out.new ≡ out.old ++ end_line dumps records) }
{
    out.extend_from_slice(b"end")?;
    put_bar_and_number(out, dumps)?;
    put_bar_and_number(out, records)?;
    out.push(b'\n')
}

/// The text of a survey. The only error is that memory ran out.
pub fn text_of(alloc: Global, survey: &Survey) -> Result<List<u8>, NoMemory>
    ensures { IfOk result (λ out. out ≡ survey_text survey.now) }
{
    let mut out = List::new(alloc);
    put_reads(&mut out, survey.types.as_slice())?;
    put_passes(&mut out, survey.types.as_slice())?;
    put_count(&mut out, b"peers", survey.peers)?;
    put_count(&mut out, b"routes", survey.routes)?;
    put_asides(&mut out, &survey.asides)?;
    put_figures(&mut out, survey.figures)?;
    put_end(&mut out, survey.dumps, survey.records)?;
    Ok(out)
}
