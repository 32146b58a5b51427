//! Whether a walk comes to the opposite and back.
ghost use Rattle.std.specs.Prelude.{◌↔◌, IsTrue};
ghost use Rattle.relationships.specs.Evidence.{HasPair, EndsWith};
ghost use Rattle.rel_checker.specs.ComingBack.{ComesBack};

/// Whether x stands somewhere with y at once behind it.
fn has_pair(ases: &[u32], x: u32, y: u32) -> bool
    ensures { IsTrue result ↔ HasPair ases.now x y }
{
    for at in 1..ases.len() {
        if ases[at - 1] == x && ases[at] == y {
            return true;
        }
    }
    false
}

/// Whether the last two are x and y.
fn ends_with(ases: &[u32], x: u32, y: u32) -> bool
    ensures { IsTrue result ↔ EndsWith ases.now x y }
{
    let [.., a, b] = ases else {
        return false;
    };
    *a == x && *b == y
}

/// Whether they begin with two different ones x, y, hold y with x at once behind it, and end with x, y.
pub(crate) fn comes_back(ases: &[u32]) -> bool
    ensures { IsTrue result ↔ ComesBack ases.now }
{
    let [x, y, ..] = ases else {
        return false;
    };
    if *x == *y {
        return false;
    }
    has_pair(ases, *y, *x) && ends_with(ases, *x, *y)
}
