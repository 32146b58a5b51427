//! A law over the definitions in `specs/`, as the contract of a function that does nothing.

ghost use Rattle.drawing.specs.Laws.{PictureLaw};

/// After any edges there is a picture of any AS, whatever the bounds on its neighbours and generations are. It is tidy, and its text well
/// formed.
pub fn picture_law()
    ensures { PictureLaw }
{}
