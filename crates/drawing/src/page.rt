//! Where boxes, bands and lines stand on the page. All lengths are whole numbers of pixels; x grows to the right and y downwards, from the
//! upper left corner.
//!
//! Depth ends at 8 and a group or generation at 2,000, so that all numbers of a page fit 32 bits. The lines to the neighbours share one
//! trunk and say nothing of marks; those between generations are alone from end to end.
ghost use Rattle.std.specs.Prelude.{◌≡◌, ◌+◌, ◌-◌, ◌*◌, ◌^◌, ◌<◌, ◌≤◌};
ghost use Rattle.drawing.specs.Page.{rows_of, cell_of, flat_cell, is_one_row, rows_above, cell_above, band_height, band_y, centre_y};
ghost use Rattle.drawing.specs.Page.{peers_y, customers_y, page_height, page_width, band_at, axis, centre_box, box_at, high_box};
ghost use Rattle.drawing.specs.Page.{line_up, line_down, place_on, slant_of, spot_above, spot_beside, spot_below, spot_of};
ghost use Rattle.drawing.specs.Page.{IsSmall, IsCell};

use crate::group::Group;

/// A box or a band of the picture.
#[derive(Clone, Copy)]
pub struct Rect {
    /// Its left side.
    pub x: u64,
    /// Its upper side.
    pub y: u64,
    /// How wide it is.
    pub width: u64,
    /// How high it is.
    pub height: u64,
}

/// A line of level and upright parts by turns: from where it begins level to its trunk, along the trunk to its rail, along the rail to
/// where it ends, and upright to its end.
#[derive(Clone, Copy)]
pub struct PageLine {
    /// The x of where it begins.
    pub start_x: u64,
    /// The y of where it begins.
    pub start_y: u64,
    /// The x of its trunk.
    pub trunk_x: u64,
    /// The y of its rail.
    pub rail_y: u64,
    /// The x of its end.
    pub end_x: u64,
    /// The y of its end.
    pub end_y: u64,
}

/// A line that is upright where it begins and ends, and straight between.
#[derive(Clone, Copy)]
pub struct Slant {
    /// The x of where it begins.
    pub start_x: u64,
    /// The y of where it begins.
    pub start_y: u64,
    /// The x of its end.
    pub end_x: u64,
    /// The y of its end.
    pub end_y: u64,
}

/// A box of a group, and the line that leads to it from the box in the centre.
#[derive(Clone, Copy)]
pub struct Spot {
    /// The group.
    pub group: Group,
    /// The box.
    pub at: Rect,
    /// The line.
    pub line: PageLine,
}

/// How many boxes stand right above, beside and below the one in the centre.
#[derive(Clone, Copy)]
pub(crate) struct Plan {
    /// How many boxes the widest row has room for.
    pub columns: u64,
    pub above: u64,
    pub beside: u64,
    pub below: u64,
    /// How many generations there are above those.
    pub further: u64,
}

/// A place for a box in its group.
#[derive(Clone, Copy)]
pub(crate) struct Cell {
    /// How many boxes its row has.
    pub count: u64,
    /// How many of them stand left of it.
    pub place: u64,
    /// How many rows stand above its own; or how far its generation is above the providers.
    pub row: u64,
}

/// How many rows so many boxes fill, and one for none.
fn rows_of(boxes: u64) -> u64
    requires { boxes ≤ 2001 }
    ensures is { result ≡ rows_of boxes }
    ensures few { result ≤ 251 }
{
    ((boxes + 7) / 8).max(1)
}

// The cell of a box of so many.
fn cell_of(boxes: u64, place: u64) -> Cell
    requires { (place < boxes) × (boxes ≤ 2001) }
    ensures { result ≡ cell_of boxes place }
{
    Cell {
        count: (boxes - 8 * (place / 8)).min(8),
        place: place % 8,
        row: place / 8,
    }
}

/// The same in a row that has all of them, with this number.
pub(crate) fn flat_cell(boxes: u64, row: u64, place: u64) -> Cell
    ensures { result ≡ flat_cell boxes row place }
{
    Cell {
        count: boxes,
        place,
        row,
    }
}

fn band_height(rows: u64) -> u64
    requires { rows ≤ 251 }
    ensures { result ≡ band_height rows }
{
    56 * rows + 8
}

// One of so many places on a side of a box, from left to right.
fn place_on(at: &Rect, places: u64, place: u64) -> u64
    requires few { (place < places) × (places ≤ 2001) }
    requires low { at.now.x < 2 ^ 32 }
    ensures { result ≡ place_on at.now places place }
{
    at.x + 4 + (80 * (place + 1)) / (places + 1)
}

impl Plan {
    // Whether the providers stand in one row.
    fn is_one_row(&self) -> bool
        ensures { result ≡ is_one_row self.now }
    {
        0 < self.further
    }

    fn rows_above(&self) -> u64
        requires { IsSmall self.now }
        ensures is { result ≡ rows_above self.now }
        ensures few { result ≤ 251 }
    {
        if self.is_one_row() {
            1
        } else {
            rows_of(self.above)
        }
    }

    fn cell_above(&self, place: u64) -> Cell
        requires small { IsSmall self.now }
        requires there { place < self.now.above }
        ensures { result ≡ cell_above self.now place }
    {
        if self.is_one_row() {
            flat_cell(self.above, 0, place)
        } else {
            cell_of(self.above, place)
        }
    }

    // Where the band of a generation begins.
    fn band_y(&self, up: u64) -> u64
        requires small { IsSmall self.now }
        requires there { up ≤ self.now.further }
        ensures { result ≡ band_y self.now up }
    {
        76 + 104 * (self.further - up)
    }

    fn centre_y(&self) -> u64
        requires { IsSmall self.now }
        ensures is { result ≡ centre_y self.now }
        ensures low { result ≤ 15100 }
    {
        self.band_y(0) + band_height(self.rows_above()) + 24
    }

    // Where the band of the peers begins.
    fn peers_y(&self) -> u64
        requires { IsSmall self.now }
        ensures is { result ≡ peers_y self.now }
        ensures low { result ≤ 15200 }
    {
        self.centre_y() + 56
    }

    // Where the band of the customers begins.
    fn customers_y(&self) -> u64
        requires { IsSmall self.now }
        ensures is { result ≡ customers_y self.now }
        ensures low { result ≤ 29400 }
    {
        self.peers_y() + band_height(rows_of(self.beside)) + 40
    }

    /// How high the page is.
    pub(crate) fn page_height(&self) -> u64
        requires { IsSmall self.now }
        ensures is { result ≡ page_height self.now }
        ensures low { result < 2 ^ 32 }
    {
        self.customers_y() + band_height(rows_of(self.below)) + 16
    }

    /// How wide the page is.
    pub(crate) fn page_width(&self) -> u64
        requires { IsSmall self.now }
        ensures is { result ≡ page_width self.now }
        ensures low { result < 2 ^ 32 }
    {
        148 + 104 * self.columns
    }

    fn band_at(&self, y: u64, rows: u64) -> Rect
        requires small { IsSmall self.now }
        requires few { rows ≤ 251 }
        ensures { result ≡ band_at self.now y rows }
    {
        Rect {
            x: 8,
            y,
            width: self.page_width() - 16,
            height: band_height(rows),
        }
    }

    /// The band that is so many generations above the providers.
    pub(crate) fn high_band(&self, up: u64) -> Rect
        requires small { IsSmall self.now }
        requires there { up ≤ self.now.further }
        ensures { result ≡ band_at self.now (band_y self.now up) 1 }
    {
        self.band_at(self.band_y(up), 1)
    }

    /// The band of the providers.
    pub(crate) fn providers_band(&self) -> Rect
        requires { IsSmall self.now }
        ensures { result ≡ band_at self.now (band_y self.now 0) (rows_above self.now) }
    {
        self.band_at(self.band_y(0), self.rows_above())
    }

    /// The band of the peers.
    pub(crate) fn peers_band(&self) -> Rect
        requires { IsSmall self.now }
        ensures { result ≡ band_at self.now (peers_y self.now) (rows_of self.now.beside) }
    {
        self.band_at(self.peers_y(), rows_of(self.beside))
    }

    /// The band of the customers.
    pub(crate) fn customers_band(&self) -> Rect
        requires { IsSmall self.now }
        ensures { result ≡ band_at self.now (customers_y self.now) (rows_of self.now.below) }
    {
        self.band_at(self.customers_y(), rows_of(self.below))
    }

    // The middle of all rows.
    fn axis(&self) -> u64
        requires { IsSmall self.now }
        ensures is { result ≡ axis self.now }
        ensures far { (292 ≤ result) × (result < 2 ^ 32) }
    {
        136 + 52 * self.columns
    }

    /// The box in the centre.
    pub(crate) fn centre_box(&self) -> Rect
        requires { IsSmall self.now }
        ensures { result ≡ centre_box self.now }
    {
        Rect {
            x: self.axis() - 60,
            y: self.centre_y(),
            width: 120,
            height: 32,
        }
    }

    // The box in a cell, if the first row of its group begins here.
    fn box_at(&self, y: u64, cell: Cell) -> Rect
        requires small { IsSmall self.now }
        requires low { y ≤ 30000 }
        requires there { (cell.count ≤ self.now.columns) × (cell.place < cell.count) }
        requires row { cell.row ≤ 251 }
        ensures is { result ≡ box_at self.now y cell }
        ensures inside { (result.x < 2 ^ 31) × (result.y < 2 ^ 31) × (y ≤ result.y) }
    {
        Rect {
            x: 144 + 52 * (self.columns - cell.count) + 104 * cell.place,
            y: y + 56 * cell.row,
            width: 88,
            height: 32,
        }
    }

    /// The box in a cell of a further generation.
    pub(crate) fn high_box(&self, cell: Cell) -> Rect
        requires small { IsSmall self.now }
        requires there { IsCell self.now cell }
        ensures is { result ≡ high_box self.now cell }
        ensures inside { (result.x < 2 ^ 31) × (result.y < 2 ^ 31) }
    {
        self.box_at(
            self.band_y(cell.row) + 12,
            Cell {
                count: cell.count,
                place: cell.place,
                row: 0,
            },
        )
    }

    // The line up to a box.
    fn line_up(&self, at: &Rect) -> PageLine
        requires small { IsSmall self.now }
        requires low { (at.now.x < 2 ^ 31) × (at.now.y < 2 ^ 31) }
        ensures { result ≡ line_up self.now at.now }
    {
        PageLine {
            start_x: self.axis() - 60,
            start_y: self.centre_y() + 16,
            trunk_x: 130,
            rail_y: at.y + 42,
            end_x: at.x + 44,
            end_y: at.y + 32,
        }
    }

    // The line down to a box.
    fn line_down(&self, at: &Rect) -> PageLine
        requires small { IsSmall self.now }
        requires low { (at.now.x < 2 ^ 31) × (at.now.y < 2 ^ 31) × (10 ≤ at.now.y) }
        ensures { result ≡ line_down self.now at.now }
    {
        PageLine {
            start_x: self.axis() - 60,
            start_y: self.centre_y() + 16,
            trunk_x: 130,
            rail_y: at.y - 10,
            end_x: at.x + 44,
            end_y: at.y,
        }
    }

    /// The line from the box in one cell to that in a cell of the next generation.
    pub(crate) fn slant_of(&self, lower: Cell, upper: Cell) -> Slant
        requires small { IsSmall self.now }
        requires lower { IsCell self.now lower }
        requires upper { IsCell self.now upper }
        ensures { result ≡ slant_of self.now lower upper }
    {
        let one = self.high_box(lower);
        let other = self.high_box(upper);
        Slant {
            start_x: place_on(&one, upper.count, upper.place),
            start_y: one.y,
            end_x: place_on(&other, lower.count, lower.place),
            end_y: other.y + 32,
        }
    }

    // Box `place` of those above.
    fn spot_above(&self, place: u64) -> Spot
        requires small { IsSmall self.now }
        requires there { place < self.now.above }
        ensures { result ≡ spot_above self.now place }
    {
        let at = self.box_at(self.band_y(0) + 12, self.cell_above(place));
        Spot {
            group: Group::Providers,
            at,
            line: self.line_up(&at),
        }
    }

    // Box `place` of those beside.
    fn spot_beside(&self, place: u64) -> Spot
        requires small { IsSmall self.now }
        requires there { place < self.now.beside }
        ensures { result ≡ spot_beside self.now place }
    {
        let at = self.box_at(self.peers_y() + 20, cell_of(self.beside, place));
        Spot {
            group: Group::Peers,
            at,
            line: self.line_down(&at),
        }
    }

    // Box `place` of those below.
    fn spot_below(&self, place: u64) -> Spot
        requires small { IsSmall self.now }
        requires there { place < self.now.below }
        ensures { result ≡ spot_below self.now place }
    {
        let at = self.box_at(self.customers_y() + 20, cell_of(self.below, place));
        Spot {
            group: Group::Customers,
            at,
            line: self.line_down(&at),
        }
    }

    /// Box `place` of all: those above go first, then those beside, then those below.
    pub(crate) fn spot_of(&self, place: u64) -> Spot
        requires small { IsSmall self.now }
        requires there { place < self.now.above + self.now.beside + self.now.below }
        ensures { result ≡ spot_of self.now place }
    {
        if place < self.above {
            return self.spot_above(place);
        }
        if place < self.above + self.beside {
            return self.spot_beside(place - self.above);
        }
        self.spot_below(place - (self.above + self.beside))
    }
}
