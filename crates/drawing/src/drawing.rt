//! The picture as data.
ghost use Rattle.std.specs.Prelude.{◌≡◌, ◌+◌, ◌<◌, ◌≤◌, ◌^◌, [], ◌++◌, length, map, All, OnOk, IfOk};
ghost use Rattle.std.specs.List.{enumerate_from};
ghost use Rattle.drawing.specs.declared.group.Group.{Group};
ghost use Rattle.drawing.specs.declared.drawing.BoxEntry.TheVariants as entry;
ghost use Rattle.drawing.specs.Entries.{box_entries};
ghost use Rattle.drawing.specs.Neighbours.{SortedNeighbours, tally};
ghost use Rattle.drawing.specs.Page.{IsSmall, IsCell, band_y, customers_y, peers_y, rows_above, rows_of};
ghost use Rattle.drawing.specs.Picture.{IsDrawingOf, IsDrawn, HasCells, item_of, items_of, post_of, link_of, high_band, near_band, bands_of};
ghost use Rattle.drawing.specs.Picture.{columns_of, plan_of, drawing_with, drawing_from};
ghost use Rattle.drawing.specs.Svg.{IsLow};
ghost use Rattle.drawing.specs.Tidy.{IsTidy};

use crate::group::{Group, Neighbour, NeighbourCounts, Tally};
use crate::neighbours::{sorted_neighbours, tally};
use crate::page::{PageLine, Plan, Rect, Slant};
use crate::tower::{Perch, Tie, Tower, tower_of};
use relationships::Mark;
use result_text::EdgeLine;
use std::alloc::Global;
use tor_arena::{Keys, List, NoMemory};

/// What a box stands for.
#[derive(Clone, Copy)]
pub enum BoxEntry {
    /// A neighbour.
    One(Neighbour),
    /// So many neighbours of a group that are left out.
    More(u64),
}

/// A box with what it stands for, and the line that leads to it from the box in the centre.
#[derive(Clone, Copy)]
pub struct Item {
    /// What the box stands for.
    pub entry: BoxEntry,
    /// Its group.
    pub group: Group,
    /// Where the box stands.
    pub at: Rect,
    /// The line.
    pub line: PageLine,
}

/// A box of a further generation of providers.
#[derive(Clone, Copy)]
pub struct Post {
    /// What the box stands for. An AS is a neighbour by an edge to one that is drawn below it, of the greatest support.
    pub entry: BoxEntry,
    /// Where the box stands.
    pub at: Rect,
}

/// A line from an AS that is drawn up to its provider in the next generation.
#[derive(Clone, Copy)]
pub struct RisingLine {
    /// The box of the customer.
    pub lower: Rect,
    /// The box of the provider.
    pub upper: Rect,
    /// The line.
    pub line: Slant,
    /// Whether the label of the edge could be another one.
    pub mark: Mark,
}

/// What is said of some of the ASes of a band, or of all.
#[derive(Clone, Copy)]
pub enum BandPart {
    /// So many of them are neighbours by a forced edge.
    Forced(u64),
    /// They are so many steps above the AS that is asked for.
    StepsUp(u64),
}

/// A band of the page, behind a group or a generation.
#[derive(Clone, Copy)]
pub struct Band {
    /// Where it lies.
    pub at: Rect,
    /// The group. A further generation is one of providers.
    pub group: Group,
    /// How many ASes there are, drawn or not.
    pub all: u64,
    /// What is said of them.
    pub part: BandPart,
}

/// The picture of one AS with its neighbours, and with providers above them.
#[derive(Drop)]
pub struct Drawing {
    /// The AS.
    pub asked: u32,
    /// How many neighbours it has.
    pub counts: NeighbourCounts,
    /// How wide the page is.
    pub width: u64,
    /// How high the page is.
    pub height: u64,
    /// The box of the AS.
    pub centre: Rect,
    /// The bands of further generations, and those of the providers, of the peers and of the customers.
    pub bands: List<Band>,
    /// The boxes of its providers, of its peers and of its customers, in this order.
    pub items: List<Item>,
    /// The boxes of further generations of providers.
    pub posts: List<Post>,
    /// The lines to them.
    pub links: List<RisingLine>,
}

// Puts a box for each neighbour at the end.
fn put_neighbours(entries: &mut Vec<BoxEntry>, neighbours: &[Neighbour]) -> Result<(), NoMemory>
    ensures { OnOk result (entries.new.items ≡ entries.old.items ++ map (λ n. entry.One n) neighbours.now) }
{
    for neighbour in neighbours {
        entries.push(BoxEntry::One(*neighbour))?;
    }
    Ok(())
}

/// Puts what the boxes of a group or a generation stand for at the end.
pub(crate) fn put_entries(
    entries: &mut Vec<BoxEntry>,
    neighbours: &[Neighbour],
    most: usize,
) -> Result<(), NoMemory>
    ensures { OnOk result (entries.new.items ≡ entries.old.items ++ box_entries most neighbours.now) }
{
    if neighbours.len() <= most {
        return put_neighbours(entries, neighbours);
    }
    put_neighbours(entries, &neighbours[..most])?;
    entries.push(BoxEntry::More((neighbours.len() - most) as u64))?;
    Ok(())
}

// The item of an entry at this place.
fn item_of(plan: &Plan, place: usize, entry: &BoxEntry) -> Item
    requires small { IsSmall plan.now }
    requires there { place < plan.now.above + plan.now.beside + plan.now.below }
    ensures { result ≡ item_of plan.now (place, entry.now) }
{
    let spot = plan.spot_of(place as u64);
    Item {
        entry: *entry,
        group: spot.group,
        at: spot.at,
        line: spot.line,
    }
}

// The items of all entries.
fn items_of(alloc: Global, plan: &Plan, entries: &[BoxEntry]) -> Result<List<Item>, NoMemory>
    requires small { IsSmall plan.now }
    requires all { length entries.now ≡ plan.now.above + plan.now.beside + plan.now.below }
    ensures { IfOk result (λ items. items ≡ items_of plan.now entries.now) }
{
    let mut items = Vec::with_capacity(alloc, entries.len())?;
    for place in 0..entries.len() {
        items.push_reserved(item_of(plan, place, &entries[place]));
    }
    Ok(List::from_vec(items))
}

// A box of a further generation.
fn post_of(plan: &Plan, perch: &Perch) -> Post
    requires small { IsSmall plan.now }
    requires there { IsCell plan.now perch.now.cell }
    ensures { result ≡ post_of plan.now perch.now }
{
    Post {
        entry: perch.entry,
        at: plan.high_box(perch.cell),
    }
}

// The boxes of further generations.
fn posts_of(alloc: Global, plan: &Plan, perches: &[Perch]) -> Result<List<Post>, NoMemory>
    requires small { IsSmall plan.now }
    requires there { All (λ q. IsCell plan.now q.cell) perches.now }
    ensures { IfOk result (λ posts. posts ≡ map (post_of plan.now) perches.now) }
{
    let mut posts = Vec::with_capacity(alloc, perches.len())?;
    for perch in perches {
        posts.push_reserved(post_of(plan, perch));
    }
    Ok(List::from_vec(posts))
}

// A line to one.
fn link_of(plan: &Plan, tie: &Tie) -> RisingLine
    requires small { IsSmall plan.now }
    requires lower { IsCell plan.now tie.now.lower }
    requires upper { IsCell plan.now tie.now.upper }
    ensures { result ≡ link_of plan.now tie.now }
{
    RisingLine {
        lower: plan.high_box(tie.lower),
        upper: plan.high_box(tie.upper),
        line: plan.slant_of(tie.lower, tie.upper),
        mark: tie.mark,
    }
}

// The lines to them.
fn links_of(alloc: Global, plan: &Plan, ties: &[Tie]) -> Result<List<RisingLine>, NoMemory>
    requires small { IsSmall plan.now }
    requires lower { All (λ t. IsCell plan.now t.lower) ties.now }
    requires upper { All (λ t. IsCell plan.now t.upper) ties.now }
    ensures { IfOk result (λ links. links ≡ map (link_of plan.now) ties.now) }
{
    let mut links = Vec::with_capacity(alloc, ties.len())?;
    for tie in ties {
        links.push_reserved(link_of(plan, tie));
    }
    Ok(List::from_vec(links))
}

// The band of a further generation of so many ASes, which stands behind so many of them.
fn high_band(plan: &Plan, place: usize, size: u64) -> Band
    requires small { IsSmall plan.now }
    requires there { place < plan.now.further }
    ensures { result ≡ high_band plan.now (place, size) }
{
    Band {
        at: plan.high_band(place as u64 + 1),
        group: Group::Providers,
        all: size,
        part: BandPart::StepsUp(place as u64 + 2),
    }
}

// Puts the bands of further generations of these sizes at the end.
fn put_high_bands(bands: &mut Vec<Band>, plan: &Plan, sizes: &[u64]) -> Result<(), NoMemory>
    requires small { IsSmall plan.now }
    requires all { length sizes.now ≡ plan.now.further }
    ensures { OnOk result (bands.new.items ≡ bands.old.items ++ map (high_band plan.now) (enumerate_from 0 sizes.now)) }
{
    for place in 0..sizes.len() {
        bands.push(high_band(plan, place, sizes[place]))?;
    }
    Ok(())
}

// The band of the providers.
fn providers_band(plan: &Plan, tally: &Tally) -> Band
    requires { IsSmall plan.now }
    ensures { result ≡ near_band plan.now (band_y plan.now 0) (rows_above plan.now) Group.Providers tally.now }
{
    Band {
        at: plan.providers_band(),
        group: Group::Providers,
        all: tally.all,
        part: BandPart::Forced(tally.forced),
    }
}

// The band of the peers.
fn peers_band(plan: &Plan, tally: &Tally) -> Band
    requires { IsSmall plan.now }
    ensures { result ≡ near_band plan.now (peers_y plan.now) (rows_of plan.now.beside) Group.Peers tally.now }
{
    Band {
        at: plan.peers_band(),
        group: Group::Peers,
        all: tally.all,
        part: BandPart::Forced(tally.forced),
    }
}

// The band of the customers.
fn customers_band(plan: &Plan, tally: &Tally) -> Band
    requires { IsSmall plan.now }
    ensures { result ≡ near_band plan.now (customers_y plan.now) (rows_of plan.now.below) Group.Customers tally.now }
{
    Band {
        at: plan.customers_band(),
        group: Group::Customers,
        all: tally.all,
        part: BandPart::Forced(tally.forced),
    }
}

// Puts all bands at the end.
fn put_bands(
    bands: &mut Vec<Band>,
    plan: &Plan,
    counts: &NeighbourCounts,
    sizes: &[u64],
) -> Result<(), NoMemory>
    requires none { bands.old.items ≡ [] }
    requires small { IsSmall plan.now }
    requires all { length sizes.now ≡ plan.now.further }
    ensures { OnOk result (bands.new.items ≡ bands_of plan.now counts.now sizes.now) }
{
    put_high_bands(bands, plan, sizes)?;
    bands.push(providers_band(plan, &counts.providers))?;
    bands.push(peers_band(plan, &counts.peers))?;
    bands.push(customers_band(plan, &counts.customers))?;
    Ok(())
}

// The bands, where further generations have these sizes.
fn bands_of(
    alloc: Global,
    plan: &Plan,
    counts: &NeighbourCounts,
    sizes: &[u64],
) -> Result<List<Band>, NoMemory>
    requires small { IsSmall plan.now }
    requires all { length sizes.now ≡ plan.now.further }
    ensures { IfOk result (λ bands. bands ≡ bands_of plan.now counts.now sizes.now) }
{
    let mut bands = Vec::new(alloc);
    match put_bands(&mut bands, plan, counts, sizes) {
        Ok(()) => Ok(List::from_vec(bands)),
        Err(NoMemory) => {
            drop(bands);
            Err(NoMemory)
        }
    }
}

/// The neighbours of an AS by group, each group in its order.
#[derive(Drop)]
pub(crate) struct Groups {
    pub providers: Vec<Neighbour>,
    pub peers: Vec<Neighbour>,
    pub customers: Vec<Neighbour>,
}

// The neighbours of the AS. The only error is that memory ran out.
fn groups_of(alloc: Global, edges: &[EdgeLine], asked: u32) -> Result<Groups, NoMemory>
    ensures providers { IfOk result (λ groups. SortedNeighbours asked Group.Providers edges.now groups.providers.items) }
    ensures peers { IfOk result (λ groups. SortedNeighbours asked Group.Peers edges.now groups.peers.items) }
    ensures customers { IfOk result (λ groups. SortedNeighbours asked Group.Customers edges.now groups.customers.items) }
{
    let providers = sorted_neighbours(alloc, edges, asked, Group::Providers)?;
    let peers = match sorted_neighbours(alloc, edges, asked, Group::Peers) {
        Ok(peers) => peers,
        Err(NoMemory) => {
            drop(providers);
            return Err(NoMemory);
        }
    };
    match sorted_neighbours(alloc, edges, asked, Group::Customers) {
        Ok(customers) => Ok(Groups {
            providers,
            peers,
            customers,
        }),
        Err(NoMemory) => {
            drop(providers);
            drop(peers);
            Err(NoMemory)
        }
    }
}

// How many there are in each group.
fn counts_of(groups: &Groups) -> NeighbourCounts
    ensures { result ≡ record {
      providers = tally groups.now.providers.items;
      peers = tally groups.now.peers.items;
      customers = tally groups.now.customers.items;
    } }
{
    NeighbourCounts {
        providers: tally(&groups.providers),
        peers: tally(&groups.peers),
        customers: tally(&groups.customers),
    }
}

// What the boxes stand for, those right above first, then those beside, then those below; and how many of each there are, where so many
// generations stand above them, and the widest has so many boxes.
fn put_all(
    entries: &mut Vec<BoxEntry>,
    groups: &Groups,
    most: usize,
    further: u64,
    widest: u64,
) -> Result<Plan, NoMemory>
    requires none { entries.old.items ≡ [] }
    requires few { most ≤ 2000 }
    requires deep { further ≤ 8 }
    requires wide { widest ≤ 2001 }
    ensures entries { OnOk result (entries.new.items ≡ box_entries most groups.now.providers.items
        ++ (box_entries most groups.now.peers.items ++ box_entries most groups.now.customers.items)) }
    ensures plan { IfOk result (λ plan. plan ≡ plan_of (box_entries most groups.now.providers.items)
        (box_entries most groups.now.peers.items) (box_entries most groups.now.customers.items) further widest) }
    ensures small { IfOk result IsSmall }
{
    put_entries(entries, &groups.providers, most)?;
    let above = entries.len();
    put_entries(entries, &groups.peers, most)?;
    let beside = entries.len() - above;
    put_entries(entries, &groups.customers, most)?;
    let below = entries.len() - above - beside;
    Ok(plan_of(above as u64, beside as u64, below as u64, further, widest))
}

// The plan of a page with so many boxes in each group.
fn plan_of(above: u64, beside: u64, below: u64, further: u64, widest: u64) -> Plan
    requires few { (above ≤ 2001) × (beside ≤ 2001) × (below ≤ 2001) }
    requires deep { further ≤ 8 }
    requires wide { widest ≤ 2001 }
    ensures is { result ≡ record {
      columns = columns_of above beside below further widest;
      above = above;
      beside = beside;
      below = below;
      further = further;
    } }
    ensures small { IsSmall result }
{
    let highest = if 0 < further { above } else { above.min(8) };
    let lower = beside.min(8).max(below.min(8).max(widest));
    Plan {
        columns: highest.max(lower).max(3),
        above,
        beside,
        below,
        further,
    }
}

// The boxes of further generations, and the lines to them.
#[derive(Drop)]
struct Height {
    posts: List<Post>,
    links: List<RisingLine>,
}

// What stands above the providers.
fn height_of(alloc: Global, plan: &Plan, tower: &Tower) -> Result<Height, NoMemory>
    requires small { IsSmall plan.now }
    requires perches { All (λ q. IsCell plan.now q.cell) tower.now.perches.items }
    requires lower { All (λ t. IsCell plan.now t.lower) tower.now.ties.items }
    requires upper { All (λ t. IsCell plan.now t.upper) tower.now.ties.items }
    ensures posts { IfOk result (λ h. h.posts ≡ map (post_of plan.now) tower.now.perches.items) }
    ensures links { IfOk result (λ h. h.links ≡ map (link_of plan.now) tower.now.ties.items) }
{
    let posts = posts_of(alloc, plan, &tower.perches)?;
    match links_of(alloc, plan, &tower.ties) {
        Ok(links) => Ok(Height { posts, links }),
        Err(NoMemory) => {
            drop(posts);
            Err(NoMemory)
        }
    }
}

// The picture with these boxes and bands.
fn drawing_with(
    alloc: Global,
    asked: u32,
    counts: NeighbourCounts,
    plan: &Plan,
    entries: &[BoxEntry],
    tower: &Tower,
) -> Result<Drawing, NoMemory>
    requires small { IsSmall plan.now }
    requires all { length entries.now ≡ plan.now.above + plan.now.beside + plan.now.below }
    requires sizes { length tower.now.sizes.items ≡ plan.now.further }
    requires perches { All (λ q. IsCell plan.now q.cell) tower.now.perches.items }
    requires lower { All (λ t. IsCell plan.now t.lower) tower.now.ties.items }
    requires upper { All (λ t. IsCell plan.now t.upper) tower.now.ties.items }
    ensures is { IfOk result (λ d. d ≡ drawing_with asked counts plan.now entries.now tower.now.sizes.items
        tower.now.perches.items tower.now.ties.items) }
    ensures low { IfOk result IsLow }
{
    let bands = bands_of(alloc, plan, &counts, &tower.sizes)?;
    let items = match items_of(alloc, plan, entries) {
        Ok(items) => items,
        Err(NoMemory) => {
            drop(bands);
            return Err(NoMemory);
        }
    };
    match height_of(alloc, plan, tower) {
        Ok(Height { posts, links }) => Ok(Drawing {
            asked,
            counts,
            width: plan.page_width(),
            height: plan.page_height(),
            centre: plan.centre_box(),
            bands,
            items,
            posts,
            links,
        }),
        Err(NoMemory) => {
            drop(bands);
            drop(items);
            Err(NoMemory)
        }
    }
}

// The picture of the AS with these neighbours and with what stands above them.
fn drawing_of(
    alloc: Global,
    asked: u32,
    groups: &Groups,
    most: usize,
    tower: &Tower,
) -> Result<Drawing, NoMemory>
    requires few { most ≤ 2000 }
    requires deep { tower.now.rank ≤ 8 }
    requires wide { tower.now.widest ≤ 2001 }
    requires sizes { length tower.now.sizes.items ≡ tower.now.rank }
    requires cells { HasCells (plan_of (box_entries most groups.now.providers.items) (box_entries most groups.now.peers.items)
        (box_entries most groups.now.customers.items) tower.now.rank tower.now.widest) tower.now.perches.items tower.now.ties.items }
    ensures is { IfOk result (λ d. d ≡ drawing_from asked most groups.now.providers.items groups.now.peers.items
        groups.now.customers.items tower.now.rank tower.now.widest tower.now.sizes.items tower.now.perches.items tower.now.ties.items) }
    ensures low { IfOk result IsLow }
{
    let mut entries = Vec::new(alloc);
    match put_all(&mut entries, groups, most, tower.rank, tower.widest) {
        Ok(plan) => {
            let drawing = drawing_with(alloc, asked, counts_of(groups), &plan, &entries, tower);
            drop(entries);
            drawing
        }
        Err(NoMemory) => {
            drop(entries);
            Err(NoMemory)
        }
    }
}

// The picture of the AS with these neighbours.
fn drawing_above(
    alloc: Global,
    keys: Keys,
    edges: &[EdgeLine],
    asked: u32,
    groups: &Groups,
    most: usize,
    depth: usize,
) -> Result<Drawing, NoMemory>
    requires few { most ≤ 2000 }
    requires deep { depth ≤ 8 }
    ensures drawn { IfOk result (IsDrawn edges.now asked most depth groups.now.providers.items groups.now.peers.items
        groups.now.customers.items) }
    ensures low { IfOk result IsLow }
{
    let tower = tower_of(alloc, keys, edges, asked, groups, most, depth)?;
    let drawing = drawing_of(alloc, asked, groups, most, &tower);
    drop(tower);
    drawing
}

/// The picture of an AS with its neighbours: its providers above it, its peers below it and its customers below those; and with further
/// generations above its providers, up to this depth, which is 8 at most. A depth of 1, or of 0, is that of its providers. Of each group
/// and of each generation at most so many are drawn, up to 2000, and one box says how many more there are. The only error is that memory
/// ran out.
pub fn draw_neighbours(
    alloc: Global,
    keys: Keys,
    edges: &[EdgeLine],
    asked: u32,
    most: usize,
    depth: usize,
) -> Result<Drawing, NoMemory>
    requires few { most ≤ 2000 }
    requires deep { depth ≤ 8 }
    ensures drawn { IfOk result (IsDrawingOf edges.now asked most depth) }
    ensures tidy { IfOk result IsTidy }
    ensures low { IfOk result IsLow }
{
    let groups = groups_of(alloc, edges, asked)?;
    let drawing = drawing_above(alloc, keys, edges, asked, &groups, most, depth);
    drop(groups);
    drawing
}
