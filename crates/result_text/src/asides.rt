//! The counts of routes that were set aside, as lines.

ghost use Rattle.std.specs.Prelude.{◌≡◌, [], ◌∷◌, ◌++◌, OnOk, codes};
ghost use Rattle.result_text.specs.declared.line.Line.TheVariants as line;
ghost use Rattle.result_text.specs.declared.line.Version.{Version};
ghost use Rattle.result_text.specs.Ranges.{CountsFit, LineFits};
ghost use Rattle.result_text.specs.Text.{cause_name, line_text, text_of_asides};

use path_clean::{Asides, Cause};
use text_fields::put_number;
use tor_arena::{List, NoMemory};

/// The line of a cause up to its number.
pub(crate) fn aside_start(cause: Cause) -> &'static [u8]
    ensures { result.now ≡ codes "aside|" ++ (cause_name cause ++ 124 ∷ []) }
{
    match cause {
        Cause::NoPath => b"aside|nopath|",
        Cause::BadSegments => b"aside|badsegments|",
        Cause::Confed => b"aside|confed|",
        Cause::Sets => b"aside|sets|",
        Cause::Reserved => b"aside|reserved|",
        Cause::Loop => b"aside|loop|",
        Cause::Short => b"aside|short|",
    }
}

#[tactic(auto, unfolding(crate::specs::Text::line_text))]
fn put_aside(out: &mut List<u8>, cause: Cause, count: u64) -> Result<(), NoMemory>
    ensures encoded { OnOk result ((v : Version) → out.new ≡ out.old ++ line_text v (line.Aside cause count)) }
    ensures fits { OnOk result (LineFits (line.Aside cause count)) }
{
    out.extend_from_slice(aside_start(cause))?;
    put_number(out, count)?;
    out.push(b'\n')
}

/// Puts a line for each cause at the end, in the order of the causes. The only error is that memory ran out.
pub fn put_asides(out: &mut List<u8>, asides: &Asides) -> Result<(), NoMemory>
    ensures encoded { OnOk result (out.new ≡ out.old ++ text_of_asides asides.now) }
    ensures fits { OnOk result (CountsFit asides.now) }
{
    put_aside(out, Cause::NoPath, asides.get(Cause::NoPath))?;
    put_aside(out, Cause::BadSegments, asides.get(Cause::BadSegments))?;
    put_aside(out, Cause::Confed, asides.get(Cause::Confed))?;
    put_aside(out, Cause::Sets, asides.get(Cause::Sets))?;
    put_aside(out, Cause::Reserved, asides.get(Cause::Reserved))?;
    put_aside(out, Cause::Loop, asides.get(Cause::Loop))?;
    put_aside(out, Cause::Short, asides.get(Cause::Short))
}
