//! The labels of edge lines, in one octet each.
ghost use Rattle.std.specs.Prelude.{◌≡◌, ◌<◌, length, slice_index_or, IfOk};
ghost use Rattle.relationships.specs.declared.label.Label.{Label as Named};
ghost use Rattle.line_rules.specs.PathSteps.{labels_on};

use relationships::Label;
use result_text::EdgeLine;
use std::alloc::Global;
use std::marker::Model;
use tor_arena::NoMemory;

/// The labels of edge lines, in one octet each, seen as the lines.
#[derive(Drop)]
pub struct Labels<'a> {
    lines: &'a [EdgeLine],
    labels: Vec<Label>,
}

impl<'a> Model for Labels<'a> {
    ghost use Rattle.std.specs.Prelude.{◌≡◌, List};
    ghost use Rattle.result_text.specs.declared.file.EdgeLine.{EdgeLine};
    ghost use Rattle.line_rules.specs.PathSteps.{labels_on};

    ghost Value = { List EdgeLine };

    ghost view = { λ labels. labels.lines.now };

    ghost invariant = { λ labels. labels.labels.items ≡ labels_on labels.lines.now };
}

impl<'a> Labels<'a> {
    /// The labels of these lines. NoMemory where memory ran out.
    pub fn new(alloc: Global, lines: &'a [EdgeLine]) -> Result<Labels<'a>, NoMemory>
        ensures { IfOk result (λ labels. labels ≡ lines.now) }
    {
        let mut labels = Vec::new(alloc);
        labels.reserve(lines.len())?;
        for line in lines {
            labels.push(line.label)?;
        }
        Ok(Labels { lines, labels })
    }

    /// The label of the line in a place, which has to be there. It takes no memory.
    pub fn of(&self, place: usize) -> Label
        requires { place < length self.now }
        ensures { result ≡ slice_index_or (labels_on self.now) place Named.Peer }
    {
        self.labels[place]
    }
}
