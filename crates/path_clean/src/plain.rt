//! AS paths that are one AS_SEQUENCE with numbers of four octets, as nearly all are.

ghost use Rattle.std.specs.Prelude.{◌≡◌, IfSome};
ghost use Rattle.path_segments.specs.declared.path.PathOf.TheVariants.{Segments};
ghost use Rattle.path_segments.specs.PathOf.{path_of};
ghost use Rattle.path_clean.specs.Behind.{one_sequence};

use path_attrs::Attrs;
use path_segments::{NumberCursor, Width, sole_sequence};

/// The ASes of an AS path that is one AS_SEQUENCE. None: it may be one all the same.
#[inline(always)]
pub(crate) fn plain_ases<'a>(attrs: &'a Attrs<'_>, width: Width) -> Option<NumberCursor<'a>>
    ensures { IfSome result (λ ases. path_of width attrs.now ≡ Segments (one_sequence ases)) }
{
    match width {
        Width::Two => None,
        Width::Four => sole_sequence(attrs.as_path()?),
    }
}
