//! Customer cones as text.
ghost use Rattle.std.specs.Prelude.{◌≡◌, ◌<◌, [], ℕ, List, OnOk, OnErr, Some, length, slice_get};
ghost use Rattle.std.specs.Io.KnownBytes.{append_known};
ghost use Rattle.tor_io.specs.Contents.{GainsPrefix};
ghost use Rattle.tor_io.specs.Counts.{HasCause};
ghost use Rattle.tor_io.specs.Outflow.{state, Puts};
ghost use Rattle.as_rel.specs.declared.line.RelLine.{RelLine};
ghost use Rattle.as_ranks.specs.Named.{IsNetOf};
ghost use Rattle.as_ranks.specs.Cones.{Cone, IsCone, AreCones};
ghost use Rattle.rank_text.specs.RankText.{cone_line, cones_text, IsConesText};

use as_ranks::Cones;
use tor_io::{Buffer, Failed, Outflow, Sink};

/// Finds the cone of the AS of a place, and puts it behind what waits for the sink.
fn put_cone<S: Sink>(out: &mut S, flow: &mut Outflow<'_>, cones: &mut Cones<'_>, place: usize)
    requires { place < length cones.old.ases }
    ensures ases { cones.new.ases ≡ cones.old.ases }
    ensures graph { cones.new.graph ≡ cones.old.graph }
    ensures text { (rel : List RelLine) (a : ℕ) → IsNetOf rel cones.old.ases cones.old.graph
        → slice_get cones.old.ases place ≡ Some a → (c : Cone) × (c.of ≡ a) × IsCone rel c ×
        Puts (state (S.held out.old) (S.faults out.old) flow.old) (state (S.held out.new) (S.faults out.new) flow.new) (cone_line c) }
{
    cones.find(place);
    let number = cones.ases()[place];
    flow.put_row(out, u64::from(number), b' ', b' ', cones.members(), b'\n');
}

/// Puts the cones of all ASes behind what waits for the sink.
fn put_all<S: Sink>(out: &mut S, flow: &mut Outflow<'_>, cones: &mut Cones<'_>)
    ensures { (rel : List RelLine) → IsNetOf rel cones.old.ases cones.old.graph → (all : List Cone) × AreCones rel all ×
        Puts (state (S.held out.old) (S.faults out.old) flow.old) (state (S.held out.new) (S.faults out.new) flow.new) (cones_text all) }
{
    for place in 0..cones.ases().len() {
        put_cone(out, flow, cones, place);
    }
}

/// Writes the customer cones of all ASes through the buffer, which has to be empty, and what waits in it at the end. Each is found when its
/// line is written. Failed: a write failed, and out took a prefix of the text. It takes no memory.
pub fn write_cones<S: Sink>(
    out: &mut S,
    buffer: &mut Buffer,
    cones: &mut Cones<'_>,
) -> Result<(), Failed>
    requires { buffer.old ≡ [] }
    ensures { (rel : List RelLine) → IsNetOf rel cones.old.ases cones.old.graph → (text : List ℕ) × IsConesText rel text
        × OnOk result (S.held out.new ≡ append_known (S.held out.old) text)
        × OnErr result (GainsPrefix (S.held out.old) (S.held out.new) text)
        × HasCause (S.faults out.old) (S.faults out.new) result }
{
    let mut flow = Outflow::through(buffer);
    put_all(out, &mut flow, cones);
    flow.finish(out)
}
