//! A tree of elements, and the one function that writes it as XML.

ghost use Rattle.std.specs.Prelude.{◌≡◌, ◌++◌, OnOk};
ghost use Rattle.std.specs.List.{flat_map};
ghost use Rattle.sctp_trace.specs.Ascii.{plain};
ghost use Rattle.sctp_trace.specs.Xml.{tag_name, key_name, escaped_code, escape, attribute_bytes, opening, closing, xml_bytes};

use std::alloc::AllocError;

/// The names of elements.
#[derive(Clone, Copy)]
pub enum Tag {
    Svg,
    Style,
    Group,
    Line,
    Path,
    Text,
}

/// The names of attributes.
#[derive(Clone, Copy)]
pub enum Key {
    Xmlns,
    ViewBox,
    Width,
    Height,
    Class,
    X,
    Y,
    X1,
    Y1,
    X2,
    Y2,
    D,
}

#[derive(Drop)]
pub struct Attribute {
    pub key: Key,
    pub value: String,
}

/// An element: its text stands before its children.
#[derive(Drop)]
pub struct Element {
    pub tag: Tag,
    pub attributes: Vec<Attribute>,
    pub text: String,
    pub children: Vec<Element>,
}

fn tag_name(tag: Tag) -> &'static str
    ensures { result.now ≡ tag_name tag }
{
    match tag {
        Tag::Svg => "svg",
        Tag::Style => "style",
        Tag::Group => "g",
        Tag::Line => "line",
        Tag::Path => "path",
        Tag::Text => "text",
    }
}

fn key_name(key: Key) -> &'static str
    ensures { result.now ≡ key_name key }
{
    match key {
        Key::Xmlns => "xmlns",
        Key::ViewBox => "viewBox",
        Key::Width => "width",
        Key::Height => "height",
        Key::Class => "class",
        Key::X => "x",
        Key::Y => "y",
        Key::X1 => "x1",
        Key::Y1 => "y1",
        Key::X2 => "x2",
        Key::Y2 => "y2",
        Key::D => "d",
    }
}

/// A byte that is printable ASCII, and a question mark for any other.
pub fn plain(byte: u8) -> u8
    ensures { result ≡ plain byte }
{
    if (32..=126).contains(&byte) {
        byte
    } else {
        b'?'
    }
}

#[tactic(auto, unfolding(crate::specs::Xml::escaped_code))]
fn push_escaped_byte(output: &mut Vec<u8>, byte: u8) -> Result<(), AllocError>
    ensures { OnOk result (output.new.items ≡ output.old.items ++ escaped_code byte) }
{
    match byte {
        b'"' => output.extend_from_slice(b"&quot;"),
        b'&' => output.extend_from_slice(b"&amp;"),
        b'\'' => output.extend_from_slice(b"&apos;"),
        b'<' => output.extend_from_slice(b"&lt;"),
        b'>' => output.extend_from_slice(b"&gt;"),
        byte => output.extend_from_slice(&[plain(byte)]),
    }
}

fn push_escaped(output: &mut Vec<u8>, text: &[u8]) -> Result<(), AllocError>
    ensures { OnOk result (output.new.items ≡ output.old.items ++ escape text.now) }
{
    for byte in text {
        push_escaped_byte(output, *byte)?;
    }
    Ok(())
}

fn push_attribute(output: &mut Vec<u8>, attribute: &Attribute) -> Result<(), AllocError>
    ensures { OnOk result (output.new.items ≡ output.old.items ++ attribute_bytes attribute.now) }
{
    output.extend_from_slice(b" ")?;
    output.extend_from_slice(key_name(attribute.key).as_bytes())?;
    output.extend_from_slice(b"=\"")?;
    push_escaped(output, attribute.value.as_bytes())?;
    output.extend_from_slice(b"\"")
}

fn push_attributes(output: &mut Vec<u8>, attributes: &[Attribute]) -> Result<(), AllocError>
    ensures { OnOk result (output.new.items ≡ output.old.items ++ flat_map attribute_bytes attributes.now) }
{
    for attribute in attributes {
        push_attribute(output, attribute)?;
    }
    Ok(())
}

fn push_opening(output: &mut Vec<u8>, tag: Tag, attributes: &[Attribute]) -> Result<(), AllocError>
    ensures { OnOk result (output.new.items ≡ output.old.items ++ opening tag attributes.now) }
{
    output.extend_from_slice(b"<")?;
    output.extend_from_slice(tag_name(tag).as_bytes())?;
    push_attributes(output, attributes)?;
    output.extend_from_slice(b">")
}

fn push_closing(output: &mut Vec<u8>, tag: Tag) -> Result<(), AllocError>
    ensures { OnOk result (output.new.items ≡ output.old.items ++ closing tag) }
{
    output.extend_from_slice(b"</")?;
    output.extend_from_slice(tag_name(tag).as_bytes())?;
    output.extend_from_slice(b">\n")
}

/// Appends the element with all below it.
#[cycle(write)]
pub fn write(output: &mut Vec<u8>, element: &Element) -> Result<(), AllocError>
    ensures { OnOk result (output.new.items ≡ output.old.items ++ xml_bytes element.now) }
{
    push_opening(output, element.tag, &element.attributes)?;
    push_escaped(output, element.text.as_bytes())?;
    write_all(output, &element.children)?;
    push_closing(output, element.tag)
}

/// Appends the elements one after the other.
#[cycle(write)]
fn write_all(output: &mut Vec<u8>, elements: &Vec<Element>) -> Result<(), AllocError>
    ensures { OnOk result (output.new.items ≡ output.old.items ++ flat_map xml_bytes elements.now.items) }
{
    for element in elements {
        write(output, element)?;
    }
    Ok(())
}
