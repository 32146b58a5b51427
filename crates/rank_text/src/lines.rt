//! Lines of a word and numbers.
ghost use Rattle.std.specs.Prelude.{flat_map};
ghost use Rattle.tor_io.specs.Outflow.{state, Puts};
ghost use Rattle.rank_text.specs.RankText.{barred, number_line};

use tor_io::{Outflow, Sink};

/// Puts numbers, each behind a bar, behind what waits for the sink.
fn put_numbers<S: Sink>(out: &mut S, flow: &mut Outflow<'_>, numbers: &[u64])
    ensures { Puts (state (S.held out.old) (S.faults out.old) flow.old) (state (S.held out.new) (S.faults out.new) flow.new)
        (flat_map barred numbers.now) }
{
    for number in numbers {
        flow.put_number_behind(out, b'|', *number);
    }
}

/// Puts a line of a word, and of numbers, each behind a bar.
pub(crate) fn put_line<S: Sink>(out: &mut S, flow: &mut Outflow<'_>, word: &[u8], numbers: &[u64])
    ensures { Puts (state (S.held out.old) (S.faults out.old) flow.old) (state (S.held out.new) (S.faults out.new) flow.new)
        (number_line word.now numbers.now) }
{
    flow.put(out, word);
    put_numbers(out, flow, numbers);
    flow.put_byte(out, b'\n');
}
