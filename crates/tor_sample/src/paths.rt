//! The networks of a route, from left to right.
ghost use Rattle.std.specs.Prelude.{◌≡◌, ◌<◌, ◌≤◌, ◌+◌, ◌++◌, length, reverse};
ghost use Rattle.arrayvec.specs.ArrayVec.{array_vec_len};
ghost use Rattle.tor_sample.specs.Paths.{last, over_top, through_valley, path_between, route_path};

use crate::draws::Draws;
use crate::networks::{NETWORKS, Networks};
use arrayvec::ArrayVec;

/// The networks of a route: two climbs and the last network twice more at most.
pub(crate) type Path = ArrayVec<u16, 10>;

fn last(networks: &[u16]) -> u16
    requires { 0 < length networks.now }
    ensures { result ≡ last networks.now }
{
    networks[networks.len() - 1]
}

// Puts the networks at the end.
fn put(path: &mut Path, networks: &[u16])
    requires { array_vec_len path.old + length networks.now ≤ 10 }
    ensures { path.new.items ≡ path.old.items ++ networks.now }
{
    for network in networks {
        path.push(*network);
    }
}

// Puts the networks at the end, from the last to the first.
fn put_reversed(path: &mut Path, networks: &[u16])
    requires { array_vec_len path.old + length networks.now ≤ 10 }
    ensures { path.new.items ≡ path.old.items ++ reverse networks.now }
{
    for network in networks.iter().rev() {
        path.push(*network);
    }
}

// Up the one climb and down the other.
fn over_top(up: &[u16], down: &[u16]) -> Path
    requires up { (0 < length up.now) × (length up.now ≤ 4) }
    requires down { (0 < length down.now) × (length down.now ≤ 4) }
    ensures path { result.items ≡ over_top up.now down.now }
    ensures some { 0 < array_vec_len result }
    ensures room { array_vec_len result ≤ 8 }
{
    let mut path = Path::new();
    put(&mut path, up);
    if last(up) == last(down) {
        put_reversed(&mut path, &down[..down.len() - 1]);
    } else {
        put_reversed(&mut path, down);
    }
    path
}

// Down one climb of a network and up another.
fn through_valley(down: &[u16], up: &[u16]) -> Path
    requires down { (0 < length down.now) × (length down.now ≤ 4) }
    requires up { (0 < length up.now) × (length up.now ≤ 4) }
    ensures path { result.items ≡ through_valley down.now up.now }
    ensures some { 0 < array_vec_len result }
    ensures room { array_vec_len result ≤ 8 }
{
    let mut path = Path::new();
    put_reversed(&mut path, down);
    put(&mut path, &up[1..]);
    path
}

// The path between two climbs, the first of which is one from this network.
fn turned(
    networks: &Networks,
    draws: &mut Draws,
    number: u16,
    from: u16,
    up: &[u16],
    down: &[u16],
) -> Path
    requires all { length networks.now ≡ 1990 }
    requires there { from < 2000 }
    requires up { (0 < length up.now) × (length up.now ≤ 4) }
    requires down { (0 < length down.now) × (length down.now ≤ 4) }
    ensures drawn { path_between networks.now number from up.now down.now draws.old.state ≡ (result.items, draws.new.state) }
    ensures some { 0 < array_vec_len result }
    ensures room { array_vec_len result ≤ 8 }
{
    if number % 50 == 49 {
        through_valley(up, networks.climb(draws, from).as_slice())
    } else {
        over_top(up, down)
    }
}

/// The path of the route of this number.
pub(crate) fn path_of(networks: &Networks, draws: &mut Draws, number: u16) -> Path
    requires { length networks.now ≡ 1990 }
    ensures { route_path networks.now number draws.old.state ≡ (result.items, draws.new.state) }
{
    let from = draws.below(NETWORKS);
    let to = draws.below(NETWORKS);
    let up = networks.climb(draws, from);
    let down = networks.climb(draws, to);
    let mut path = turned(
        networks,
        draws,
        number,
        from,
        up.as_slice(),
        down.as_slice(),
    );
    if draws.below(8) == 0 {
        let end = last(path.as_slice());
        path.push(end);
        path.push(end);
    }
    path
}
