//! Data objects, and the templates that consist of them.

ghost use Rattle.std.specs.Prelude.{◌≡◌, ℕ, List, ◌++◌, IfSome, IfNone};
ghost use Rattle.card_model.specs.TemplateGrammar.{DataObject, object_text, objects_text};
ghost use Rattle.fcp_template.specs.ObjectParts.{IsBody};

use crate::tag::TEMPLATE;
use std::marker::Model;

/// A BER-TLV data object, with one byte for tag and length each.
#[derive(Drop)]
pub(crate) struct Object<'a> {
    tag: u8,
    value: &'a [u8],
}

impl<'a> Model for Object<'a> {
    ghost use Rattle.card_model.specs.TemplateGrammar.{DataObject};

    ghost Value = { DataObject };

    ghost view = { λ o. record { tag = o.tag; value = o.value.now } };
}

impl<'a> Object<'a> {
    /// Returns its tag.
    pub(crate) fn tag(&self) -> u8
        ensures { result ≡ self.now.tag }
    {
        self.tag
    }

    /// Returns its value, which may be empty.
    pub(crate) fn value(&self) -> &'a [u8]
        ensures { result.now ≡ self.now.value }
    {
        self.value
    }
}

/// The most bytes of objects: a length byte has bit 8 clear.
pub(crate) const BODY_LIMIT: usize = 127;

/// The objects of a template, or those after one of them. They lie one after the other in its bytes.
#[derive(Drop)]
pub(crate) struct Objects<'a> {
    bytes: &'a [u8],
}

impl<'a> Model for Objects<'a> {
    ghost use Rattle.std.specs.Prelude.{List};
    ghost use Rattle.card_model.specs.TemplateGrammar.{DataObject};
    ghost use Rattle.fcp_template.specs.ObjectParts.{objects_of, AreObjects};

    ghost Value = { List DataObject };

    ghost view = { λ objects. objects_of objects.bytes.now };

    ghost invariant = { λ objects. AreObjects objects.bytes.now };
}

impl<'a> Objects<'a> {
    /// Returns the objects that fill the bytes exactly, if any do.
    pub(crate) fn parse(bytes: &'a [u8]) -> Option<Objects<'a>>
        ensures filled { IfSome result (λ os. bytes.now ≡ objects_text os) }
        ensures none { IfNone result ((os : List DataObject) → bytes.now ≡ objects_text os → ⊥) }
    {
        let mut rest = bytes;
        while !rest.is_empty() {
            let (_, after) = split_first(rest)?;
            rest = after;
        }
        Some(Objects { bytes })
    }

    /// Returns the same objects, to go over them.
    pub(crate) fn iter(&self) -> Objects<'a>
        ensures { result ≡ self.now }
    {
        Objects { bytes: self.bytes }
    }
}

impl<'a> Iterator for Objects<'a> {
    ghost use Rattle.std.specs.Iterator.{YieldsFirst, item_count};

    type Item = Object<'a>;

    ghost next_gives = { YieldsFirst (λ rest. rest) };

    ghost remaining = { item_count (λ rest. rest) };

    fn next(&mut self) -> Option<Object<'a>> {
        let (object, rest) = split_first(self.bytes)?;
        self.bytes = rest;
        Some(object)
    }
}

/// Returns the bytes of the objects in a text, if its tag and its length are those of a template.
pub(crate) fn body_of(text: &[u8]) -> Option<&[u8]>
    ensures body { IfSome result (λ body. IsBody text.now body.now) }
    ensures none { IfNone result ((body : List ℕ) → IsBody text.now body → ⊥) }
{
    let [TEMPLATE, length, body @ ..] = text else {
        return None;
    };
    if body.len() != usize::from(*length) || body.len() > BODY_LIMIT {
        return None;
    }
    Some(body)
}

/// Returns the first object of the bytes, and the bytes after it.
fn split_first(bytes: &[u8]) -> Option<(Object<'_>, &[u8])>
    ensures found { IfSome result (λ x. bytes.now ≡ object_text x.0 ++ x.1.now) }
    ensures none { IfNone result ((o : DataObject) (rest : List ℕ) → bytes.now ≡ object_text o ++ rest → ⊥) }
{
    match bytes {
        [tag, length, rest @ ..] if usize::from(*length) <= rest.len() => {
            let (value, rest) = rest.split_at(usize::from(*length));
            Some((Object { tag: *tag, value }, rest))
        }
        _ => None,
    }
}
