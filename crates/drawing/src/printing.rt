//! The text of a picture.
ghost use Rattle.std.specs.Prelude.{◌≡◌, ◌<◌, ◌≤◌, ◌^◌, [], ◌∷◌, ◌++◌, codes, flat_map, All, OnOk, IfOk, Some};
ghost use Rattle.std.specs.Fmt.{decimal};
ghost use Rattle.std.specs.Io.KnownBytes.{append_known};
ghost use Rattle.tor_io.specs.Outflow.{state, Puts};
ghost use Rattle.drawing.specs.Page.{line_points, slant_points};
ghost use Rattle.drawing.specs.Svg.{CanLead, FitsNumbers, IsLow, ShowsLinks, ShowsMarks, address, band_class, band_nodes, box_attributes};
ghost use Rattle.drawing.specs.Svg.{box_name, caption_words, centre_node, entry_number, box_lead, xml_character};
ghost use Rattle.drawing.specs.Svg.{class_of, comma_digits, dashes, ending, entry_class, entry_texts, entry_title, frame, group_words};
ghost use Rattle.drawing.specs.Svg.{as_words, centre_frame, centre_texts, extent_words, part_words, style_words, head_nodes, item_nodes, link_element, link_nodes, mark_class, mark_dashes, mark_words, more_words};
ghost use Rattle.drawing.specs.Svg.{page_attributes, paths_words, point, points, polyline, post_dashes, post_nodes, post_title, rect_with};
ghost use Rattle.drawing.specs.Svg.{svg_text, tally_words, text_at, thousands, three_digits, title, word_of, words_text};
ghost use Rattle.drawing.specs.Tidy.{IsTidy};
ghost use Rattle.drawing.specs.Xml.{IsDocument, attribute_text, element_text, elements_text, node_text, nodes_text, tag_end, tag_text};

use crate::drawing::{Band, BandPart, BoxEntry, Drawing, Item, Post, RisingLine};
use crate::group::{Group, NeighbourCounts, Tally};
use crate::page::{PageLine, Rect, Slant};
use relationships::Mark;
use std::alloc::Global;
use text_fields::after;
use tor_arena::{List, NoMemory};
use tor_io::{Buffer, ListSink, Outflow, Sink};

/// What stands in a text or a title.
#[derive(Clone, Copy)]
pub(crate) enum Words {
    /// How many neighbours an AS has.
    Picture(u32, NeighbourCounts),
    /// An AS.
    Number(u32),
    /// So many kept paths.
    Paths(u64),
    /// So many are left out.
    Left(u64),
    /// What the box of a group stands for.
    Entry(Group, BoxEntry),
    /// What the box of a further generation stands for.
    Post(BoxEntry),
    /// The name of a group.
    Heading(Group),
    /// So many are in a group.
    All(u64),
    /// What is said of some of them.
    Part(BandPart),
    /// What a solid frame means.
    Solid,
    /// What a dashed frame means.
    Dashed,
}

// Each function puts something behind what waits for the sink.

// A number that ends with a quote, behind the octets up to its first quote.
fn put_quoted<S: Sink>(out: &mut S, flow: &mut Outflow<'_>, before: &[u8], n: u64)
    ensures { Puts (state (S.held out.old) (S.faults out.old) flow.old) (state (S.held out.new) (S.faults out.new) flow.new)
        (before.now ++ (decimal n ++ 34 ∷ [])) }
{
    flow.put(out, before);
    flow.put_number(out, n);
    flow.put_byte(out, b'"');
}

// Octets, and others behind them, and others behind those.
fn put_between<S: Sink>(
    out: &mut S,
    flow: &mut Outflow<'_>,
    before: &[u8],
    text: &[u8],
    after: &[u8],
)
    ensures { Puts (state (S.held out.old) (S.faults out.old) flow.old) (state (S.held out.new) (S.faults out.new) flow.new)
        (before.now ++ (text.now ++ after.now)) }
{
    flow.put(out, before);
    flow.put(out, text);
    flow.put(out, after);
}

// ---- numbers

// Three digits behind a comma.
fn put_three<S: Sink>(out: &mut S, flow: &mut Outflow<'_>, n: u64)
    requires { n < 1000 }
    ensures { Puts (state (S.held out.old) (S.faults out.old) flow.old) (state (S.held out.new) (S.faults out.new) flow.new)
        (44 ∷ three_digits n) }
{
    flow.put_byte(out, b',');
    flow.put_byte(out, b'0' + (n / 100) as u8);
    flow.put_byte(out, b'0' + ((n / 10) % 10) as u8);
    flow.put_byte(out, b'0' + (n % 10) as u8);
}

// A number with a comma before each three digits, of so many at most.
fn put_digits<S: Sink>(out: &mut S, flow: &mut Outflow<'_>, commas: usize, n: u64)
    ensures { Puts (state (S.held out.old) (S.faults out.old) flow.old) (state (S.held out.new) (S.faults out.new) flow.new)
        (comma_digits commas n) }
{
    if n < 1000 {
        flow.put_number(out, n);
        return;
    }
    if commas == 0 {
        flow.put_number(out, n);
        return;
    }
    put_digits(out, flow, commas - 1, n / 1000);
    put_three(out, flow, n % 1000);
}

fn put_thousands<S: Sink>(out: &mut S, flow: &mut Outflow<'_>, n: u64)
    ensures { Puts (state (S.held out.old) (S.faults out.old) flow.old) (state (S.held out.new) (S.faults out.new) flow.new)
        (thousands n) }
{
    put_digits(out, flow, 6, n);
}

// ---- words

fn put_as<S: Sink>(out: &mut S, flow: &mut Outflow<'_>, n: u32)
    ensures { Puts (state (S.held out.old) (S.faults out.old) flow.old) (state (S.held out.new) (S.faults out.new) flow.new)
        (codes "AS" ++ decimal n) }
{
    flow.put(out, b"AS");
    flow.put_number(out, u64::from(n));
}

// What a word ends with behind a number.
fn ending(count: u64) -> &'static [u8]
    ensures { result.now ≡ ending count }
{
    if count == 1 { b"" } else { b"s" }
}

fn group_words(group: Group) -> &'static [u8]
    ensures { result.now ≡ group_words group }
{
    match group {
        Group::Providers => b"provider",
        Group::Peers => b"peer",
        Group::Customers => b"customer",
    }
}

fn mark_words(mark: Mark) -> &'static [u8]
    ensures { result.now ≡ mark_words mark }
{
    match mark {
        Mark::Forced => b"forced",
        Mark::Open => b"open",
    }
}

// A number, and what follows it.
fn put_count<S: Sink>(out: &mut S, flow: &mut Outflow<'_>, n: u64, what: &[u8])
    ensures { Puts (state (S.held out.old) (S.faults out.old) flow.old) (state (S.held out.new) (S.faults out.new) flow.new)
        (thousands n ++ what.now) }
{
    put_thousands(out, flow, n);
    flow.put(out, what);
}

fn put_paths<S: Sink>(out: &mut S, flow: &mut Outflow<'_>, n: u64)
    ensures { Puts (state (S.held out.old) (S.faults out.old) flow.old) (state (S.held out.new) (S.faults out.new) flow.new)
        (paths_words n) }
{
    put_thousands(out, flow, n);
    flow.put(out, b" path");
    flow.put(out, ending(n));
}

fn put_more<S: Sink>(out: &mut S, flow: &mut Outflow<'_>, n: u64, group: Group)
    ensures { Puts (state (S.held out.old) (S.faults out.old) flow.old) (state (S.held out.new) (S.faults out.new) flow.new)
        (more_words n group) }
{
    put_thousands(out, flow, n);
    put_between(out, flow, b" more ", group_words(group), ending(n));
}

// The title of the box of a group.
fn put_entry<S: Sink>(out: &mut S, flow: &mut Outflow<'_>, group: Group, entry: &BoxEntry)
    ensures { Puts (state (S.held out.old) (S.faults out.old) flow.old) (state (S.held out.new) (S.faults out.new) flow.new)
        (entry_title group entry.now) }
{
    match entry {
        BoxEntry::One(neighbour) => {
            put_as(out, flow, neighbour.number);
            flow.put(out, b", ");
            flow.put(out, group_words(group));
            flow.put(out, b", ");
            flow.put(out, mark_words(neighbour.mark));
            flow.put(out, b", ");
            put_paths(out, flow, neighbour.support);
        }
        BoxEntry::More(count) => put_more(out, flow, *count, group),
    }
}

// The title of the box of a further generation.
fn put_post_title<S: Sink>(out: &mut S, flow: &mut Outflow<'_>, entry: &BoxEntry)
    ensures { Puts (state (S.held out.old) (S.faults out.old) flow.old) (state (S.held out.new) (S.faults out.new) flow.new)
        (post_title entry.now) }
{
    match entry {
        BoxEntry::One(neighbour) => {
            put_as(out, flow, neighbour.number);
            flow.put(out, b", provider, up to ");
            put_paths(out, flow, neighbour.support);
        }
        BoxEntry::More(count) => put_more(out, flow, *count, Group::Providers),
    }
}

fn put_heading<S: Sink>(out: &mut S, flow: &mut Outflow<'_>, group: Group)
    ensures { Puts (state (S.held out.old) (S.faults out.old) flow.old) (state (S.held out.new) (S.faults out.new) flow.new)
        (group_words group ++ codes "s") }
{
    flow.put(out, group_words(group));
    flow.put_byte(out, b's');
}

fn put_part<S: Sink>(out: &mut S, flow: &mut Outflow<'_>, part: BandPart)
    ensures { Puts (state (S.held out.old) (S.faults out.old) flow.old) (state (S.held out.new) (S.faults out.new) flow.new)
        (part_words part) }
{
    match part {
        BandPart::Forced(count) => put_count(out, flow, count, b" forced"),
        BandPart::StepsUp(count) => put_count(out, flow, count, b" steps up"),
    }
}

fn put_tally<S: Sink>(out: &mut S, flow: &mut Outflow<'_>, what: &[u8], tally: &Tally)
    ensures { Puts (state (S.held out.old) (S.faults out.old) flow.old) (state (S.held out.new) (S.faults out.new) flow.new)
        (tally_words what.now tally.now) }
{
    put_thousands(out, flow, tally.all);
    flow.put(out, what);
    flow.put(out, ending(tally.all));
    flow.put(out, b" (");
    put_thousands(out, flow, tally.forced);
    flow.put(out, b" forced)");
}

fn put_caption<S: Sink>(out: &mut S, flow: &mut Outflow<'_>, asked: u32, counts: &NeighbourCounts)
    ensures { Puts (state (S.held out.old) (S.faults out.old) flow.old) (state (S.held out.new) (S.faults out.new) flow.new)
        (caption_words asked counts.now) }
{
    put_as(out, flow, asked);
    flow.put(out, b": ");
    put_tally(out, flow, b" provider", &counts.providers);
    flow.put(out, b", ");
    put_tally(out, flow, b" peer", &counts.peers);
    flow.put(out, b", ");
    put_tally(out, flow, b" customer", &counts.customers);
}

fn put_words<S: Sink>(out: &mut S, flow: &mut Outflow<'_>, words: &Words)
    ensures { Puts (state (S.held out.old) (S.faults out.old) flow.old) (state (S.held out.new) (S.faults out.new) flow.new)
        (words_text words.now) }
{
    match words {
        Words::Picture(asked, counts) => put_caption(out, flow, *asked, counts),
        Words::Number(number) => put_as(out, flow, *number),
        Words::Paths(count) => put_paths(out, flow, *count),
        Words::Left(count) => put_count(out, flow, *count, b" more"),
        Words::Entry(group, entry) => put_entry(out, flow, *group, entry),
        Words::Post(entry) => put_post_title(out, flow, entry),
        Words::Heading(group) => put_heading(out, flow, *group),
        Words::All(count) => put_count(out, flow, *count, b" in all"),
        Words::Part(part) => put_part(out, flow, *part),
        Words::Solid => flow.put(out, b"solid frame: the label of the edge is forced"),
        Words::Dashed => flow.put(
            out,
            b"dashed frame: it is open, as between peers it always is",
        ),
    }
}

// ---- elements

fn put_class<S: Sink>(out: &mut S, flow: &mut Outflow<'_>, class: &[u8])
    ensures { Puts (state (S.held out.old) (S.faults out.old) flow.old) (state (S.held out.new) (S.faults out.new) flow.new)
        (attribute_text (class_of class.now)) }
{
    put_between(out, flow, b" class=\"", class, b"\"");
}

fn put_dashes<S: Sink>(out: &mut S, flow: &mut Outflow<'_>, dashed: &[u8])
    ensures { Puts (state (S.held out.old) (S.faults out.old) flow.old) (state (S.held out.new) (S.faults out.new) flow.new)
        (attribute_text (word_of (codes "stroke-dasharray") dashed.now)) }
{
    put_between(out, flow, b" stroke-dasharray=\"", dashed, b"\"");
}

fn put_title<S: Sink>(out: &mut S, flow: &mut Outflow<'_>, words: &Words)
    ensures { Puts (state (S.held out.old) (S.faults out.old) flow.old) (state (S.held out.new) (S.faults out.new) flow.new)
        (element_text (title (words_text words.now))) }
{
    flow.put(out, b"<title>");
    put_words(out, flow, words);
    flow.put(out, b"</title>\n");
}

fn put_text<S: Sink>(
    out: &mut S,
    flow: &mut Outflow<'_>,
    x: u64,
    y: u64,
    class: &[u8],
    words: &Words,
)
    ensures { Puts (state (S.held out.old) (S.faults out.old) flow.old) (state (S.held out.new) (S.faults out.new) flow.new)
        (element_text (text_at x y class.now (words_text words.now))) }
{
    put_quoted(out, flow, b"<text x=\"", x);
    put_quoted(out, flow, b" y=\"", y);
    put_class(out, flow, class);
    flow.put_byte(out, b'>');
    put_words(out, flow, words);
    flow.put(out, b"</text>\n");
}

// The frame of a box.
fn put_frame<S: Sink>(out: &mut S, flow: &mut Outflow<'_>, at: &Rect, class: &[u8], dashed: &[u8])
    ensures { Puts (state (S.held out.old) (S.faults out.old) flow.old) (state (S.held out.new) (S.faults out.new) flow.new)
        (element_text (frame at.now class.now dashed.now)) }
{
    put_quoted(out, flow, b"<rect x=\"", at.x);
    put_quoted(out, flow, b" y=\"", at.y);
    put_quoted(out, flow, b" width=\"", at.width);
    put_quoted(out, flow, b" height=\"", at.height);
    put_class(out, flow, class);
    put_dashes(out, flow, dashed);
    flow.put(out, b"/>\n");
}

// A plane without a frame.
fn put_plane<S: Sink>(out: &mut S, flow: &mut Outflow<'_>, at: &Rect, class: &[u8])
    ensures { Puts (state (S.held out.old) (S.faults out.old) flow.old) (state (S.held out.new) (S.faults out.new) flow.new)
        (element_text (rect_with at.now (class_of class.now ∷ []))) }
{
    put_quoted(out, flow, b"<rect x=\"", at.x);
    put_quoted(out, flow, b" y=\"", at.y);
    put_quoted(out, flow, b" width=\"", at.width);
    put_quoted(out, flow, b" height=\"", at.height);
    put_class(out, flow, class);
    flow.put(out, b"/>\n");
}

// A point behind a space.
fn put_point<S: Sink>(out: &mut S, flow: &mut Outflow<'_>, x: u64, y: u64)
    ensures { Puts (state (S.held out.old) (S.faults out.old) flow.old) (state (S.held out.new) (S.faults out.new) flow.new)
        (32 ∷ point x y) }
{
    flow.put_number_behind(out, b' ', x);
    flow.put_number_behind(out, b',', y);
}

fn put_line_points<S: Sink>(out: &mut S, flow: &mut Outflow<'_>, line: &PageLine)
    ensures { Puts (state (S.held out.old) (S.faults out.old) flow.old) (state (S.held out.new) (S.faults out.new) flow.new)
        (points (line_points line.now)) }
{
    put_point(out, flow, line.start_x, line.start_y);
    put_point(out, flow, line.trunk_x, line.start_y);
    put_point(out, flow, line.trunk_x, line.rail_y);
    put_point(out, flow, line.end_x, line.rail_y);
    put_point(out, flow, line.end_x, line.end_y);
}

fn put_slant_points<S: Sink>(out: &mut S, flow: &mut Outflow<'_>, line: &Slant)
    requires { line.now.end_y < 2 ^ 32 }
    ensures { Puts (state (S.held out.old) (S.faults out.old) flow.old) (state (S.held out.new) (S.faults out.new) flow.new)
        (points (slant_points line.now)) }
{
    put_point(out, flow, line.start_x, line.start_y);
    put_point(out, flow, line.start_x, line.start_y.saturating_sub(10));
    put_point(out, flow, line.end_x, line.end_y + 10);
    put_point(out, flow, line.end_x, line.end_y);
}

// A pale line.
fn put_rail<S: Sink>(out: &mut S, flow: &mut Outflow<'_>, line: &PageLine)
    ensures { Puts (state (S.held out.old) (S.faults out.old) flow.old) (state (S.held out.new) (S.faults out.new) flow.new)
        (element_text (polyline (line_points line.now) (class_of (codes "r") ∷ []))) }
{
    flow.put(out, b"<polyline points=\"");
    put_line_points(out, flow, line);
    flow.put(out, b"\" class=\"r\"/>\n");
}

fn mark_class(mark: Mark) -> &'static [u8]
    ensures { result.now ≡ mark_class mark }
{
    match mark {
        Mark::Forced => b"f",
        Mark::Open => b"o",
    }
}

fn mark_dashes(mark: Mark) -> &'static [u8]
    ensures { result.now ≡ mark_dashes mark }
{
    match mark {
        Mark::Forced => b"none",
        Mark::Open => b"4 3",
    }
}

fn entry_class(entry: &BoxEntry) -> &'static [u8]
    ensures { result.now ≡ entry_class entry.now }
{
    match entry {
        BoxEntry::One(neighbour) => mark_class(neighbour.mark),
        BoxEntry::More(_) => b"d",
    }
}

fn dashes(entry: &BoxEntry) -> &'static [u8]
    ensures { result.now ≡ dashes entry.now }
{
    match entry {
        BoxEntry::One(neighbour) => mark_dashes(neighbour.mark),
        BoxEntry::More(_) => b"1 3",
    }
}

fn post_dashes(entry: &BoxEntry) -> &'static [u8]
    ensures { result.now ≡ post_dashes entry.now }
{
    match entry {
        BoxEntry::One(_) => b"none",
        BoxEntry::More(_) => b"1 3",
    }
}

fn band_class(group: Group) -> &'static [u8]
    ensures { result.now ≡ band_class group }
{
    match group {
        Group::Providers => b"p",
        Group::Peers => b"q",
        Group::Customers => b"c",
    }
}

// ---- links

fn put_written<S: Sink>(out: &mut S, flow: &mut Outflow<'_>, octet: u8)
    ensures { Puts (state (S.held out.old) (S.faults out.old) flow.old) (state (S.held out.new) (S.faults out.new) flow.new)
        (xml_character octet) }
{
    if octet == b'&' {
        flow.put(out, b"&amp;");
    } else {
        flow.put_byte(out, octet);
    }
}

// Where a link leads for an AS.
fn put_address<S: Sink>(out: &mut S, flow: &mut Outflow<'_>, link: &[u8], number: u32)
    ensures { Puts (state (S.held out.old) (S.faults out.old) flow.old) (state (S.held out.new) (S.faults out.new) flow.new)
        (address link.now number) }
{
    let mut rest = link;
    'parts: while let Some((octet, others)) = rest.split_first() {
        match after(b"{}", rest) {
            Some(behind) => {
                flow.put_number(out, u64::from(number));
                rest = behind;
            }
            None => {
                put_written(out, flow, *octet);
                rest = others;
            }
        }
    }
}

// The AS that a box stands for, if it is one.
fn entry_number(entry: &BoxEntry) -> Option<u32>
    ensures { result ≡ entry_number entry.now }
{
    match entry {
        BoxEntry::One(neighbour) => Some(neighbour.number),
        BoxEntry::More(_) => None,
    }
}

// The first tag of a link.
fn put_link_start<S: Sink>(out: &mut S, flow: &mut Outflow<'_>, link: &[u8], number: u32)
    ensures { Puts (state (S.held out.old) (S.faults out.old) flow.old) (state (S.held out.new) (S.faults out.new) flow.new)
        (tag_text (codes "a") (word_of (codes "href") (address link.now number) ∷ [])) }
{
    flow.put(out, b"<a href=\"");
    put_address(out, flow, link, number);
    flow.put(out, b"\">\n");
}

// The first tag of a box.
fn put_box_start<S: Sink>(
    out: &mut S,
    flow: &mut Outflow<'_>,
    link: &Option<List<u8>>,
    number: Option<u32>,
)
    ensures { Puts (state (S.held out.old) (S.faults out.old) flow.old) (state (S.held out.new) (S.faults out.new) flow.new)
        (tag_text (box_name (box_lead link.now number)) (box_attributes (box_lead link.now number))) }
{
    match link {
        Some(link) => match number {
            Some(number) => put_link_start(out, flow, link.as_slice(), number),
            None => flow.put(out, b"<g>\n"),
        },
        None => flow.put(out, b"<g>\n"),
    }
}

// The last tag of a box.
fn box_end(link: &Option<List<u8>>, number: Option<u32>) -> &'static [u8]
    ensures { result.now ≡ tag_end (box_name (box_lead link.now number)) }
{
    match link {
        Some(_) => match number {
            Some(_) => b"</a>\n",
            None => b"</g>\n",
        },
        None => b"</g>\n",
    }
}

// ---- the whole

// What a box stands for, in it.
fn put_entry_texts<S: Sink>(out: &mut S, flow: &mut Outflow<'_>, at: &Rect, entry: &BoxEntry)
    requires inside { FitsNumbers at.now }
    ensures { Puts (state (S.held out.old) (S.faults out.old) flow.old) (state (S.held out.new) (S.faults out.new) flow.new)
        (elements_text (entry_texts at.now entry.now)) }
{
    match entry {
        BoxEntry::One(neighbour) => {
            let number = Words::Number(neighbour.number);
            put_text(out, flow, at.x + 44, at.y + 14, b"m", &number);
            let paths = Words::Paths(neighbour.support);
            put_text(out, flow, at.x + 44, at.y + 26, b"m s", &paths);
        }
        BoxEntry::More(count) => {
            put_text(out, flow, at.x + 44, at.y + 20, b"m", &Words::Left(*count));
        }
    }
}

// The elements of a box.
fn put_inside<S: Sink>(
    out: &mut S,
    flow: &mut Outflow<'_>,
    words: &Words,
    at: &Rect,
    class: &[u8],
    dashed: &[u8],
    entry: &BoxEntry,
)
    requires inside { FitsNumbers at.now }
    ensures { Puts (state (S.held out.old) (S.faults out.old) flow.old) (state (S.held out.new) (S.faults out.new) flow.new)
        (elements_text (title (words_text words.now) ∷ frame at.now class.now dashed.now ∷ entry_texts at.now entry.now)) }
{
    put_title(out, flow, words);
    put_frame(out, flow, at, class, dashed);
    put_entry_texts(out, flow, at, entry);
}

fn put_item<S: Sink>(out: &mut S, flow: &mut Outflow<'_>, link: &Option<List<u8>>, item: &Item)
    requires inside { FitsNumbers item.now.at }
    ensures { Puts (state (S.held out.old) (S.faults out.old) flow.old) (state (S.held out.new) (S.faults out.new) flow.new)
        (nodes_text (item_nodes link.now item.now)) }
{
    let number = entry_number(&item.entry);
    put_rail(out, flow, &item.line);
    put_box_start(out, flow, link, number);
    put_inside(
        out,
        flow,
        &Words::Entry(item.group, item.entry),
        &item.at,
        entry_class(&item.entry),
        dashes(&item.entry),
        &item.entry,
    );
    flow.put(out, box_end(link, number));
}

fn put_items<S: Sink>(out: &mut S, flow: &mut Outflow<'_>, link: &Option<List<u8>>, items: &[Item])
    requires inside { All (λ i. FitsNumbers i.at) items.now }
    ensures { Puts (state (S.held out.old) (S.faults out.old) flow.old) (state (S.held out.new) (S.faults out.new) flow.new)
        (nodes_text (flat_map (item_nodes link.now) items.now)) }
{
    for item in items {
        put_item(out, flow, link, item);
    }
}

fn put_link<S: Sink>(out: &mut S, flow: &mut Outflow<'_>, link: &RisingLine)
    requires low { link.now.line.end_y < 2 ^ 32 }
    ensures { Puts (state (S.held out.old) (S.faults out.old) flow.old) (state (S.held out.new) (S.faults out.new) flow.new)
        (nodes_text (link_nodes link.now)) }
{
    flow.put(out, b"<polyline points=\"");
    put_slant_points(out, flow, &link.line);
    flow.put_byte(out, b'"');
    put_class(out, flow, mark_class(link.mark));
    put_dashes(out, flow, mark_dashes(link.mark));
    flow.put(out, b"/>\n");
}

fn put_links<S: Sink>(out: &mut S, flow: &mut Outflow<'_>, links: &[RisingLine])
    requires low { All (λ l. l.line.end_y < 2 ^ 32) links.now }
    ensures { Puts (state (S.held out.old) (S.faults out.old) flow.old) (state (S.held out.new) (S.faults out.new) flow.new)
        (nodes_text (flat_map link_nodes links.now)) }
{
    for link in links {
        put_link(out, flow, link);
    }
}

fn put_post<S: Sink>(out: &mut S, flow: &mut Outflow<'_>, link: &Option<List<u8>>, post: &Post)
    requires inside { FitsNumbers post.now.at }
    ensures { Puts (state (S.held out.old) (S.faults out.old) flow.old) (state (S.held out.new) (S.faults out.new) flow.new)
        (nodes_text (post_nodes link.now post.now)) }
{
    let number = entry_number(&post.entry);
    put_box_start(out, flow, link, number);
    put_inside(
        out,
        flow,
        &Words::Post(post.entry),
        &post.at,
        b"d",
        post_dashes(&post.entry),
        &post.entry,
    );
    flow.put(out, box_end(link, number));
}

fn put_posts<S: Sink>(out: &mut S, flow: &mut Outflow<'_>, link: &Option<List<u8>>, posts: &[Post])
    requires inside { All (λ q. FitsNumbers q.at) posts.now }
    ensures { Puts (state (S.held out.old) (S.faults out.old) flow.old) (state (S.held out.new) (S.faults out.new) flow.new)
        (nodes_text (flat_map (post_nodes link.now) posts.now)) }
{
    for post in posts {
        put_post(out, flow, link, post);
    }
}

fn put_band<S: Sink>(out: &mut S, flow: &mut Outflow<'_>, band: &Band)
    requires inside { FitsNumbers band.now.at }
    ensures { Puts (state (S.held out.old) (S.faults out.old) flow.old) (state (S.held out.new) (S.faults out.new) flow.new)
        (nodes_text (band_nodes band.now)) }
{
    let y = band.at.y;
    put_plane(out, flow, &band.at, band_class(band.group));
    put_text(out, flow, 16, y + 20, b"b", &Words::Heading(band.group));
    put_text(out, flow, 16, y + 36, b"s", &Words::All(band.all));
    put_text(out, flow, 16, y + 50, b"s", &Words::Part(band.part));
}

fn put_bands<S: Sink>(out: &mut S, flow: &mut Outflow<'_>, bands: &[Band])
    requires inside { All (λ b. FitsNumbers b.at) bands.now }
    ensures { Puts (state (S.held out.old) (S.faults out.old) flow.old) (state (S.held out.new) (S.faults out.new) flow.new)
        (nodes_text (flat_map band_nodes bands.now)) }
{
    for band in bands {
        put_band(out, flow, band);
    }
}

// What classes mean: colours, by day and by night, and letters.
const STYLE_OF_TEXTS: &[u8] =
    b"svg{font:11px sans-serif;background:#fff;color-scheme:light dark}text{fill:#111}.t{font-size:16px;font-weight:bold}.b{font-weight:bold}";

const STYLE_OF_BANDS: &[u8] =
    b".s{font-size:10px}.m{text-anchor:middle}.p{fill:#d6e7f7}.q{fill:#fbeebb}.c{fill:#ecd9e2}";

const STYLE_OF_FRAMES: &[u8] =
    b".f,.o,.d,.k{fill:#fff;stroke:#111;stroke-width:1.5}.d{stroke:#999}.r{fill:none;stroke:#888;shape-rendering:crispEdges}";

const STYLE_BY_NIGHT: &[u8] =
    b"polyline.f,polyline.o{fill:none}@media (prefers-color-scheme:dark){svg{background:#111}text{fill:#eee}.p{fill:#15324c}";

const STYLE_OF_FRAMES_BY_NIGHT: &[u8] =
    b".q{fill:#433a12}.c{fill:#452a3b}.f,.o,.d,.k{fill:#111;stroke:#eee}.d{stroke:#888}.r{stroke:#999}}";

fn put_style<S: Sink>(out: &mut S, flow: &mut Outflow<'_>)
    ensures { Puts (state (S.held out.old) (S.faults out.old) flow.old) (state (S.held out.new) (S.faults out.new) flow.new)
        (element_text (record { name = codes "style"; attributes = []; inner = Some style_words })) }
{
    flow.put(out, b"<style>");
    flow.put(out, STYLE_OF_TEXTS);
    flow.put(out, STYLE_OF_BANDS);
    flow.put(out, STYLE_OF_FRAMES);
    flow.put(out, STYLE_BY_NIGHT);
    flow.put(out, STYLE_OF_FRAMES_BY_NIGHT);
    flow.put(out, b"</style>\n");
}

// The title, the style, and what frames mean.
fn put_head<S: Sink>(out: &mut S, flow: &mut Outflow<'_>, drawing: &Drawing)
    ensures { Puts (state (S.held out.old) (S.faults out.old) flow.old) (state (S.held out.new) (S.faults out.new) flow.new)
        (nodes_text (head_nodes drawing.now)) }
{
    let number = Words::Number(drawing.asked);
    put_title(out, flow, &Words::Picture(drawing.asked, drawing.counts));
    put_style(out, flow);
    put_text(out, flow, 16, 28, b"t", &number);
    put_text(out, flow, 16, 46, b"l", &Words::Solid);
    put_text(out, flow, 16, 60, b"l", &Words::Dashed);
}

// The elements of the box in the centre.
fn put_centre_inside<S: Sink>(out: &mut S, flow: &mut Outflow<'_>, drawing: &Drawing)
    requires inside { FitsNumbers drawing.now.centre }
    ensures { Puts (state (S.held out.old) (S.faults out.old) flow.old) (state (S.held out.new) (S.faults out.new) flow.new)
        (elements_text (title (as_words drawing.now.asked) ∷ centre_frame drawing.now ∷ centre_texts drawing.now)) }
{
    let at = &drawing.centre;
    let number = Words::Number(drawing.asked);
    put_title(out, flow, &number);
    put_frame(out, flow, at, b"k", b"none");
    put_text(out, flow, at.x + 60, at.y + 20, b"m b", &number);
}

// The box in the centre.
fn put_centre<S: Sink>(
    out: &mut S,
    flow: &mut Outflow<'_>,
    link: &Option<List<u8>>,
    drawing: &Drawing,
)
    requires inside { FitsNumbers drawing.now.centre }
    ensures { Puts (state (S.held out.old) (S.faults out.old) flow.old) (state (S.held out.new) (S.faults out.new) flow.new)
        (node_text (centre_node link.now drawing.now)) }
{
    let number = Some(drawing.asked);
    put_box_start(out, flow, link, number);
    put_centre_inside(out, flow, drawing);
    flow.put(out, box_end(link, number));
}

// What part of the plane the page shows.
fn put_extent<S: Sink>(out: &mut S, flow: &mut Outflow<'_>, drawing: &Drawing)
    ensures { Puts (state (S.held out.old) (S.faults out.old) flow.old) (state (S.held out.new) (S.faults out.new) flow.new)
        (attribute_text (word_of (codes "viewBox") (extent_words drawing.now))) }
{
    flow.put(out, b" viewBox=\"0 0 ");
    flow.put_number(out, drawing.width);
    flow.put_number_behind(out, b' ', drawing.height);
    flow.put_byte(out, b'"');
}

// The first tag.
fn put_start<S: Sink>(out: &mut S, flow: &mut Outflow<'_>, drawing: &Drawing)
    ensures { Puts (state (S.held out.old) (S.faults out.old) flow.old) (state (S.held out.new) (S.faults out.new) flow.new)
        (tag_text (codes "svg") (page_attributes drawing.now)) }
{
    flow.put(out, b"<svg xmlns=\"http://www.w3.org/2000/svg\"");
    put_quoted(out, flow, b" width=\"", drawing.width);
    put_quoted(out, flow, b" height=\"", drawing.height);
    put_extent(out, flow, drawing);
    flow.put(out, b">\n");
}

fn put_picture<S: Sink>(
    out: &mut S,
    flow: &mut Outflow<'_>,
    drawing: &Drawing,
    link: &Option<List<u8>>,
)
    requires tidy { IsTidy drawing.now }
    requires low { IsLow drawing.now }
    ensures { Puts (state (S.held out.old) (S.faults out.old) flow.old) (state (S.held out.new) (S.faults out.new) flow.new)
        (svg_text link.now drawing.now) }
{
    put_start(out, flow, drawing);
    put_head(out, flow, drawing);
    put_bands(out, flow, drawing.bands.as_slice());
    put_centre(out, flow, link, drawing);
    put_items(out, flow, link, drawing.items.as_slice());
    put_links(out, flow, drawing.links.as_slice());
    put_posts(out, flow, link, drawing.posts.as_slice());
    flow.put(out, b"</svg>\n");
}

// Writes the text through the buffer, which has to be empty, and what waits in it at the end. NoMemory: a write failed.
fn write_picture<S: Sink>(
    out: &mut S,
    buffer: &mut Buffer,
    drawing: &Drawing,
    link: &Option<List<u8>>,
) -> Result<(), NoMemory>
    requires empty { buffer.old ≡ [] }
    requires tidy { IsTidy drawing.now }
    requires low { IsLow drawing.now }
    ensures { OnOk result (S.held out.new ≡ append_known (S.held out.old) (svg_text link.now drawing.now)) }
{
    let mut flow = Outflow::through(buffer);
    put_picture(out, &mut flow, drawing, link);
    match flow.finish(out) {
        Ok(()) => Ok(()),
        Err(_) => Err(NoMemory),
    }
}

// The same through a buffer of its own.
fn write_whole<S: Sink>(
    alloc: Global,
    out: &mut S,
    drawing: &Drawing,
    link: &Option<List<u8>>,
) -> Result<(), NoMemory>
    requires tidy { IsTidy drawing.now }
    requires low { IsLow drawing.now }
    ensures { OnOk result (S.held out.new ≡ append_known (S.held out.old) (svg_text link.now drawing.now)) }
{
    let mut buffer = Buffer::new(alloc)?;
    let written = write_picture(out, &mut buffer, drawing, link);
    drop(buffer);
    written
}

/// The text of the picture, as SVG. The picture has to be tidy and no larger than numbers of 32 bits reach, as one that is drawn is. With
/// a link the box of each AS leads there, with its number in place of each `{}`; it is printable ASCII without quote, `<` and `>`. The
/// only error is that memory ran out.
pub fn svg_of(
    alloc: Global,
    drawing: &Drawing,
    link: &Option<List<u8>>,
) -> Result<List<u8>, NoMemory>
    requires tidy { IsTidy drawing.now }
    requires low { IsLow drawing.now }
    requires leading { CanLead link.now }
    ensures text { IfOk result (λ text. text ≡ svg_text link.now drawing.now) }
    ensures well_formed { IfOk result (IsDocument (codes "svg")) }
    ensures marks { ShowsMarks link.now drawing.now }
    ensures links { ShowsLinks link.now drawing.now }
{
    let mut sink = ListSink::new(alloc);
    match write_whole(alloc, &mut sink, drawing, link) {
        Ok(()) => Ok(sink.into_list()),
        Err(NoMemory) => {
            drop(sink);
            Err(NoMemory)
        }
    }
}
