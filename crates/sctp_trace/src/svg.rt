//! The rows as an SVG: two lifelines, an arrow for each giving, a cross where a packet was never given, and beside the lifelines what
//! the ends say.

ghost use Rattle.std.specs.Prelude.{◌≡◌, ◌∷◌, [], ◌++◌, map, string_bytes, IfOk, OnOk};
ghost use Rattle.sctp_trace.specs.declared.xml.Element.TheViews.{out-Element};
ghost use Rattle.sctp_trace.specs.Followed.{IsFollowed};
ghost use Rattle.sctp_trace.specs.Svg.{lifeline_at, height_at, place_at, shown, number_shown, class_shown, IsLineBetween, IsArrow, IsCross, HasArrows, HasCrosses, AreDrawn, IsPicture, IsChart};

use crate::conversation::Conversation;
use crate::giving::{Arrow, Cross, arrows, crosses};
use crate::rows::{End, Row, What};
use crate::xml::{Attribute, Element, Key, Tag, write};
use std::alloc::{AllocError, Global};

const ROW_HEIGHT: u128 = 14;

const TOP: u128 = 40;

const LEFT: u128 = 330;

const MIDDLE: u128 = 500;

const RIGHT: u128 = 670;

const WIDTH: u128 = 1000;

const STYLE: &str =
    "text{font:11px sans-serif;paint-order:stroke;stroke:white;stroke-width:3px}.end{text-anchor:end}\
.name{font-weight:bold;text-anchor:middle}.life{stroke:gray}.way{stroke:black}.head{fill:black}.lost{stroke:red;fill:none}";

/// A place on the chart: units from the left and from the top.
#[derive(Clone, Copy)]
struct Point {
    x: u128,
    y: u128,
}

fn height_of(row: usize) -> u128
    ensures { result ≡ height_at row }
{
    row as u128 * ROW_HEIGHT + TOP
}

fn lifeline_of(end: End) -> u128
    ensures { result ≡ lifeline_at end }
{
    match end {
        End::A => LEFT,
        End::B => RIGHT,
    }
}

fn place(end: End, row: usize) -> Point
    ensures { result ≡ place_at end row }
{
    Point {
        x: lifeline_of(end),
        y: height_of(row),
    }
}

fn push_text(attributes: &mut Vec<Attribute>, key: Key, value: String) -> Result<(), AllocError>
    ensures { OnOk result (map shown attributes.new.items ≡ map shown attributes.old.items ++ ((key, string_bytes value) ∷ [])) }
{
    attributes.push(Attribute { key, value })?;
    Ok(())
}

fn push_numbers(
    alloc: Global,
    attributes: &mut Vec<Attribute>,
    numbers: &[(Key, u128)],
) -> Result<(), AllocError>
    ensures { OnOk result (map shown attributes.new.items ≡ map shown attributes.old.items ++ map number_shown numbers.now) }
{
    for (key, number) in numbers {
        push_text(attributes, *key, format!(in alloc; "{number}")?)?;
    }
    Ok(())
}

/// The attribute of a class, and none where it is empty.
fn class_of(alloc: Global, class: &str) -> Result<Vec<Attribute>, AllocError>
    ensures { IfOk result (λ attributes. map shown attributes.items ≡ class_shown class.now) }
{
    let mut attributes = Vec::new(alloc);
    if !class.is_empty() {
        push_text(&mut attributes, Key::Class, String::from_str(alloc, class)?)?;
    }
    Ok(attributes)
}

/// An element that has no text yet.
fn element(alloc: Global, tag: Tag, attributes: Vec<Attribute>, children: Vec<Element>) -> Element
    ensures tag { (out-Element result).tag ≡ tag }
    ensures attributes { (out-Element result).attributes.items ≡ attributes.items }
    ensures children { (out-Element result).children.items ≡ children.items }
{
    Element {
        tag,
        attributes,
        text: String::new(alloc),
        children,
    }
}

fn group(alloc: Global, class: &str, children: Vec<Element>) -> Result<Element, AllocError>
    ensures { IfOk result (λ group. (out-Element group).children.items ≡ children.items) }
{
    let attributes = class_of(alloc, class)?;
    Ok(element(alloc, Tag::Group, attributes, children))
}

fn line(alloc: Global, class: &str, from: Point, to: Point) -> Result<Element, AllocError>
    ensures { IfOk result (IsLineBetween from to) }
{
    let mut attributes = class_of(alloc, class)?;
    let ends = [
        (Key::X1, from.x),
        (Key::Y1, from.y),
        (Key::X2, to.x),
        (Key::Y2, to.y),
    ];
    push_numbers(alloc, &mut attributes, &ends)?;
    Ok(element(alloc, Tag::Line, attributes, Vec::new(alloc)))
}

fn path(alloc: Global, class: &str, way: String) -> Result<Element, AllocError> {
    let mut attributes = class_of(alloc, class)?;
    push_text(&mut attributes, Key::D, way)?;
    Ok(element(alloc, Tag::Path, attributes, Vec::new(alloc)))
}

/// The front of the words: what a column of the chart has room for.
fn front(words: &str) -> &str {
    match words.char_indices().nth(56) {
        Some((at, _)) => words.get(..at).unwrap_or(words),
        None => words,
    }
}

/// An element that has no children.
fn words(
    alloc: Global,
    tag: Tag,
    attributes: Vec<Attribute>,
    words: &str,
) -> Result<Element, AllocError> {
    let text = String::from_str(alloc, words)?;
    Ok(Element {
        tag,
        attributes,
        text,
        children: Vec::new(alloc),
    })
}

fn words_at(alloc: Global, class: &str, at: Point, text: &str) -> Result<Element, AllocError> {
    let mut attributes = class_of(alloc, class)?;
    push_numbers(alloc, &mut attributes, &[(Key::X, at.x), (Key::Y, at.y)])?;
    words(alloc, Tag::Text, attributes, front(text))
}

/// The triangle at an arrow's end.
fn head(alloc: Global, arrow: &Arrow, at: Point) -> Result<Element, AllocError> {
    let Point { x, y } = at;
    let back = match arrow.from {
        End::A => "-9",
        End::B => "9",
    };
    path(
        alloc,
        "head",
        format!(in alloc; "M{x},{y} l{back},-4 v7 z")?,
    )
}

/// A line from the sending to the giving, and its head.
fn arrow_group(alloc: Global, arrow: &Arrow) -> Result<Element, AllocError>
    ensures { IfOk result (IsArrow arrow.now) }
{
    let from = place(arrow.from, arrow.sent.unwrap_or(arrow.given));
    let to = place(arrow.from.other(), arrow.given);
    let way = line(alloc, "way", from, to)?;
    let head = head(alloc, arrow, to)?;
    let children = Vec::from_array(alloc, [way, head])?;
    group(alloc, "arrow", children)
}

/// One group with a group for each arrow.
fn arrows_group(alloc: Global, conversation: &Conversation) -> Result<Element, AllocError>
    requires { IsFollowed conversation.now }
    ensures { IfOk result (HasArrows conversation.now.rows.now) }
{
    let arrows = arrows(alloc, conversation)?;
    let mut children = Vec::new(alloc);
    for arrow in &arrows {
        children.push(arrow_group(alloc, arrow)?)?;
    }
    group(alloc, "", children)
}

/// Half a line and a cross, where the packet was never given.
fn cross_group(alloc: Global, cross: &Cross) -> Result<Element, AllocError>
    ensures { IfOk result (IsCross cross.now) }
{
    let from = place(cross.from, cross.sent);
    let y = height_of(cross.sent) + 5;
    let sign = format!(in alloc; "M{MIDDLE},{y} m-5,-5 l10,10 m0,-10 l-10,10")?;
    let way = line(alloc, "lost", from, Point { x: MIDDLE, y })?;
    let sign = path(alloc, "lost", sign)?;
    let children = Vec::from_array(alloc, [way, sign])?;
    group(alloc, "lost", children)
}

/// One group with a group for each cross.
fn crosses_group(alloc: Global, conversation: &Conversation) -> Result<Element, AllocError>
    requires { IsFollowed conversation.now }
    ensures { IfOk result (HasCrosses conversation.now.rows.now) }
{
    let crosses = crosses(alloc, conversation)?;
    let mut children = Vec::new(alloc);
    for cross in &crosses {
        children.push(cross_group(alloc, cross)?)?;
    }
    group(alloc, "", children)
}

/// Words of an end: beside its lifeline, or on the arrow that begins there.
fn words_of(
    alloc: Global,
    end: End,
    row: usize,
    is_between: bool,
    words: &str,
) -> Result<Element, AllocError> {
    let y = height_of(row);
    let (class, at) = match (end, is_between) {
        (End::A, true) => (
            "",
            Point {
                x: LEFT + 8,
                y: y - 2,
            },
        ),
        (End::B, true) => (
            "end",
            Point {
                x: RIGHT - 8,
                y: y - 2,
            },
        ),
        (End::A, false) => (
            "end",
            Point {
                x: LEFT - 8,
                y: y + 4,
            },
        ),
        (End::B, false) => (
            "",
            Point {
                x: RIGHT + 8,
                y: y + 4,
            },
        ),
    };
    words_at(alloc, class, at, words)
}

fn push_row(
    alloc: Global,
    children: &mut Vec<Element>,
    at: usize,
    row: &Row,
) -> Result<(), AllocError> {
    let words = match &row.what {
        What::Sent(number, _, label) => {
            let words = format!(in alloc; "{number}: {label}")?;
            words_of(alloc, row.end, at, true, &words)?
        }
        What::Given(_) => return Ok(()),
        What::Note(words) => words_of(alloc, row.end, at, false, words)?,
    };
    children.push(words)?;
    Ok(())
}

/// One group with what stands beside the lifelines and on the arrows.
fn words_group(alloc: Global, rows: &[Row]) -> Result<Element, AllocError> {
    let mut children = Vec::new(alloc);
    for at in 0..rows.len() {
        push_row(alloc, &mut children, at, &rows[at])?;
    }
    group(alloc, "words", children)
}

fn lifeline(alloc: Global, end: End, bottom: u128) -> Result<Element, AllocError> {
    let x = lifeline_of(end);
    let name = words_at(alloc, "name", Point { x, y: 16 }, end.name())?;
    let line = line(alloc, "life", Point { x, y: 22 }, Point { x, y: bottom })?;
    let children = Vec::from_array(alloc, [name, line])?;
    group(alloc, "life", children)
}

fn root_attributes(alloc: Global, height: u128) -> Result<Vec<Attribute>, AllocError> {
    let mut attributes = Vec::new(alloc);
    let space = String::from_str(alloc, "http://www.w3.org/2000/svg")?;
    push_text(&mut attributes, Key::Xmlns, space)?;
    let view = format!(in alloc; "0 0 {WIDTH} {height}")?;
    push_text(&mut attributes, Key::ViewBox, view)?;
    push_numbers(
        alloc,
        &mut attributes,
        &[(Key::Width, WIDTH), (Key::Height, height)],
    )?;
    Ok(attributes)
}

/// The style, and the lifelines with their names.
fn push_ends(alloc: Global, children: &mut Vec<Element>, bottom: u128) -> Result<(), AllocError> {
    children.push(words(alloc, Tag::Style, Vec::new(alloc), STYLE)?)?;
    children.push(lifeline(alloc, End::A, bottom)?)?;
    children.push(lifeline(alloc, End::B, bottom)?)?;
    Ok(())
}

/// What became of the packets: arrows and crosses.
fn push_ways(
    alloc: Global,
    children: &mut Vec<Element>,
    conversation: &Conversation,
) -> Result<(), AllocError>
    requires { IsFollowed conversation.now }
    ensures { OnOk result (AreDrawn conversation.now.rows.now children.old.items children.new.items) }
{
    children.push(arrows_group(alloc, conversation)?)?;
    children.push(crosses_group(alloc, conversation)?)?;
    Ok(())
}

fn tree(alloc: Global, conversation: &Conversation) -> Result<Element, AllocError>
    requires { IsFollowed conversation.now }
    ensures { IfOk result (IsPicture conversation.now.rows.now) }
{
    let bottom = height_of(conversation.rows.len());
    let mut children = Vec::new(alloc);
    push_ends(alloc, &mut children, bottom)?;
    push_ways(alloc, &mut children, conversation)?;
    children.push(words_group(alloc, conversation.rows)?)?;
    let attributes = root_attributes(alloc, bottom)?;
    Ok(element(alloc, Tag::Svg, attributes, children))
}

fn picture(alloc: Global, rows: &[Row]) -> Result<Element, AllocError>
    ensures { IfOk result (IsPicture rows.now) }
{
    let conversation = Conversation::of(alloc, rows)?;
    let picture = tree(alloc, &conversation);
    drop(conversation);
    picture
}

/// An SVG of 1,000 units' width, in which a row has 14 units' height. Texts are cut behind 56
/// characters; bytes that are no printable ASCII are question marks.
pub fn chart(alloc: Global, rows: &[Row]) -> Result<Vec<u8>, AllocError>
    ensures { IfOk result (λ bytes. IsChart rows.now bytes.items) }
{
    let picture = picture(alloc, rows)?;
    let mut bytes = Vec::new(alloc);
    write(&mut bytes, &picture)?;
    drop(picture);
    Ok(bytes)
}
