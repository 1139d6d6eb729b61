//! The texts of a puzzle.

ghost use Rattle.std.specs.Prelude.{◌≡◌, ◌==◌, not, true, false, IfOk, OnErr, OnOk, IsErrOf, ◌↔◌, option_map};
ghost use Rattle.std.specs.List.{list_all};
ghost use Rattle.grid_core.specs.Description.{IsDescription, bytes_of, described, is_text, no_texts, text_of, with_text};

use crate::NoMemory;
use crate::limits::MAX_TEXT_LEN;
use std::alloc::{AllocError, Global};
use std::boxed::Box;
use std::marker::Model;
use thiserror::Error;

/// The error of setting a text.
#[derive(Clone, Copy, Debug, PartialEq, Eq, Error)]
pub enum TextsFault {
    /// The text contains a line feed, or is longer than 65,536 bytes.
    #[error("a text has at most 65536 bytes and no line feed")]
    BadText,
    /// An allocation failed.
    #[error("out of memory")]
    NoMemory,
}

/// A field of a puzzle's description, which may have a text.
#[derive(Clone, Copy, Debug, PartialEq, Eq)]
pub enum Field {
    /// The number or name of the puzzle in a catalogue.
    Catalogue,
    /// The title of the puzzle.
    Title,
    /// The author of the puzzle.
    By,
    /// The copyright notice.
    Copyright,
    /// The license under which the puzzle may be used.
    License,
}

/// The texts of a puzzle by field.
#[derive(Debug, Drop)]
struct Fields {
    catalogue: Option<Vec<u8>>,
    title: Option<Vec<u8>>,
    by: Option<Vec<u8>>,
    copyright: Option<Vec<u8>>,
    license: Option<Vec<u8>>,
}

impl Model for Fields {
    ghost use Rattle.grid_core.specs.Description.{Description, IsDescription, bytes_of};

    ghost Value = { Description };

    ghost view = { λ t. record {
      catalogue = bytes_of t.catalogue;
      title = bytes_of t.title;
      by = bytes_of t.by;
      copyright = bytes_of t.copyright;
      license = bytes_of t.license;
    } };

    ghost invariant = { λ t. IsDescription (record {
      catalogue = bytes_of t.catalogue;
      title = bytes_of t.title;
      by = bytes_of t.by;
      copyright = bytes_of t.copyright;
      license = bytes_of t.license;
    }) };
}

impl Fields {
    /// Returns a description without any text.
    fn none() -> Fields
        ensures { result ≡ no_texts }
    {
        Fields {
            catalogue: None,
            title: None,
            by: None,
            copyright: None,
            license: None,
        }
    }

    /// Returns the text of `field`, if it has one.
    fn get(&self, field: Field) -> Option<&[u8]>
        ensures text { option_map (λ bytes. bytes.now) result ≡ text_of self.now field }
        ensures texts { IsDescription self.now }
    {
        let kept = match field {
            Field::Catalogue => &self.catalogue,
            Field::Title => &self.title,
            Field::By => &self.by,
            Field::Copyright => &self.copyright,
            Field::License => &self.license,
        };
        match kept {
            Some(bytes) => Some(bytes.as_slice()),
            None => None,
        }
    }

    /// Makes `bytes` the text of `field`.
    fn set(&mut self, field: Field, bytes: Vec<u8>)
        requires { is_text bytes.items ≡ true }
        ensures { self.new ≡ with_text self.old field bytes.items }
    {
        match field {
            Field::Catalogue => self.catalogue = Some(bytes),
            Field::Title => self.title = Some(bytes),
            Field::By => self.by = Some(bytes),
            Field::Copyright => self.copyright = Some(bytes),
            Field::License => self.license = Some(bytes),
        }
    }

    /// Returns a copy of the texts, or `NoMemory` if an allocation fails.
    fn copy(&self) -> Result<Fields, NoMemory>
        ensures { IfOk result (λ texts. texts ≡ self.now) }
    {
        Ok(Fields {
            catalogue: copy_text(&self.catalogue)?,
            title: copy_text(&self.title)?,
            by: copy_text(&self.by)?,
            copyright: copy_text(&self.copyright)?,
            license: copy_text(&self.license)?,
        })
    }
}

/// The texts that describe a puzzle. They are boxed, so that moving a puzzle copies few words.
#[derive(Debug, Drop)]
pub struct Texts {
    fields: Option<Box<Fields>>,
}

impl Model for Texts {
    ghost use Rattle.std.specs.Prelude.{option_map};
    ghost use Rattle.grid_core.specs.Description.{Description, described};

    ghost Value = { Description };

    ghost view = { λ t. described (option_map (λ fields. fields.value) t.fields) };
}

impl Texts {
    /// Returns a description without any text.
    pub fn none() -> Texts
        ensures { result ≡ no_texts }
    {
        Texts { fields: None }
    }

    /// Returns the text of `field`, if it has one.
    pub fn get(&self, field: Field) -> Option<&[u8]>
        ensures text { option_map (λ bytes. bytes.now) result ≡ text_of self.now field }
        ensures texts { IsDescription self.now }
    {
        match &self.fields {
            Some(fields) => fields.get(field),
            None => None,
        }
    }

    /// Returns a copy of the texts, or `NoMemory` if an allocation fails.
    pub(crate) fn copy(&self, alloc: Global) -> Result<Texts, NoMemory>
        ensures { IfOk result (λ texts. texts ≡ self.now) }
    {
        let fields = match &self.fields {
            Some(fields) => Some(Box::new(alloc, fields.copy()?)?),
            None => None,
        };
        Ok(Texts { fields })
    }

    /// Brings the invariant of the texts, that each of them is admissible, into the caller's proof.
    /// It has no other effect.
    pub(crate) fn recall_invariant(&self)
        ensures { IsDescription self.now }
    {
        let _ = self.get(Field::Title);
    }

    /// Sets the text of `field` to `text`, which need not be UTF-8. Fails with `BadText` if `text`
    /// contains a line feed or is longer than 65,536 bytes, and otherwise with `NoMemory` if an
    /// allocation fails; after a failure the texts are unchanged.
    pub fn set(&mut self, alloc: Global, field: Field, text: &[u8]) -> Result<(), TextsFault>
        ensures ok { OnOk result (self.new ≡ with_text self.old field text.now) }
        ensures text { OnOk result (is_text text.now ≡ true) }
        ensures bad_text { IsErrOf result TextsFault.BadText ↔ (is_text text.now ≡ false) }
        ensures err { OnErr result (self.new ≡ self.old) }
    {
        if !is_text(text) {
            return Err(TextsFault::BadText);
        }
        // All memory is allocated before `self` is changed, so that a failure leaves it as it is.
        let Ok(bytes) = text.to_vec(alloc) else {
            return Err(TextsFault::NoMemory);
        };
        match &mut self.fields {
            Some(fields) => fields.set(field, bytes),
            None => {
                let mut fields = Fields::none();
                fields.set(field, bytes);
                let Ok(fields) = Box::new(alloc, fields) else {
                    return Err(TextsFault::NoMemory);
                };
                self.fields = Some(fields);
            }
        }
        Ok(())
    }
}

/// Returns a copy of the text, if there is one, or `NoMemory` if an allocation fails.
fn copy_text(text: &Option<Vec<u8>>) -> Result<Option<Vec<u8>>, NoMemory>
    ensures { IfOk result (λ copied. bytes_of copied ≡ bytes_of text.now) }
{
    match text {
        Some(bytes) => Ok(Some(bytes.clone()?)),
        None => Ok(None),
    }
}

/// Reports whether `text` contains no line feed.
fn has_no_feed(text: &[u8]) -> bool
    ensures { result ≡ list_all (λ byte. not (byte == 10)) text.now }
{
    text.iter().all(|byte| *byte != b'\n')
}

/// Reports whether `text` is admissible: at most 65,536 bytes without a line feed.
fn is_text(text: &[u8]) -> bool
    ensures { result ≡ is_text text.now }
{
    text.len() <= MAX_TEXT_LEN && has_no_feed(text)
}
