//! Writing a page.

ghost use Rattle.std.specs.Prelude.{◌≡◌, ◌++◌, ◌∷◌, [], IfOk, List, OnOk, string_bytes};
ghost use Rattle.html_text.specs.declared.names.Tag.{Tag as Element};
ghost use Rattle.html_text.specs.Html.{IsPage, end_text, ends_text, escaped, first_line, named, start_text};

use crate::escaped::Escaped;
use crate::names::{Attribute, Tag};
use std::alloc::{AllocError, Global};
use std::marker::Model;

/// A page that is being written. Its elements end in the reverse order of their starts.
#[derive(Debug, Drop)]
pub struct HtmlWriter {
    text: String,
    // the elements that have not ended, each inside the one before
    around: Vec<Tag>,
}

impl Model for HtmlWriter {
    ghost use Rattle.std.specs.Prelude.{string_bytes};
    ghost use Rattle.html_text.specs.Html.{IsWritten, Written};

    ghost Value = { Written };

    ghost view = { λ w. record { text = string_bytes w.text; around = w.around.items } };

    ghost invariant = { λ w. IsWritten (record { text = string_bytes w.text; around = w.around.items }) };
}

// Appends the start of an element.
fn push_start(
    text: &mut String,
    tag: Tag,
    attributes: &[(Attribute, &str)],
) -> Result<(), AllocError>
    ensures { OnOk result (string_bytes text.new ≡ string_bytes text.old ++ start_text tag (named attributes.now)) }
{
    write!(text, "<{}", tag.name())?;
    for (attribute, value) in attributes {
        write!(text, " {}=\"{}\"", attribute.name(), Escaped(value))?;
    }
    text.push_str(">")
}

// Appends the end of an element.
fn push_end(text: &mut String, tag: Tag) -> Result<(), AllocError>
    ensures { OnOk result (string_bytes text.new ≡ string_bytes text.old ++ end_text tag) }
{
    write!(text, "</{}>", tag.name())?;
    Ok(())
}

impl HtmlWriter {
    /// Makes a page without elements.
    pub fn new(alloc: Global) -> Result<HtmlWriter, AllocError>
        ensures { IfOk result (λ page. page ≡ record { text = first_line; around = [] }) }
    {
        Ok(HtmlWriter {
            text: String::from_str(alloc, "<!DOCTYPE html>\n")?,
            around: Vec::new(alloc),
        })
    }

    /// Starts an element. What follows is inside it, until its end.
    pub fn start(
        mut self,
        tag: Tag,
        attributes: &[(Attribute, &str)],
    ) -> Result<HtmlWriter, AllocError>
        ensures { IfOk result (λ page. page ≡ record { text = self.text ++ start_text tag (named attributes.now); around = self.around ++ tag ∷ [] }) }
    {
        self.around.push(tag)?;
        push_start(&mut self.text, tag, attributes)?;
        Ok(self)
    }

    /// Adds an element that has no content and no end tag.
    pub fn single(
        mut self,
        tag: Tag,
        attributes: &[(Attribute, &str)],
    ) -> Result<HtmlWriter, AllocError>
        ensures { IfOk result (λ page. page ≡ record { text = self.text ++ start_text tag (named attributes.now); around = self.around }) }
    {
        push_start(&mut self.text, tag, attributes)?;
        Ok(self)
    }

    /// Adds words. None of their bytes is markup.
    pub fn words(mut self, words: &str) -> Result<HtmlWriter, AllocError>
        ensures { IfOk result (λ page. page ≡ record { text = self.text ++ escaped words.now; around = self.around }) }
    {
        write!(self.text, "{}", Escaped(words))?;
        Ok(self)
    }

    /// Ends the element that started last and has not ended, if there is one.
    pub fn end(mut self) -> Result<HtmlWriter, AllocError>
        ensures last { (tag : Element) (around : List Element) → self.around ≡ around ++ tag ∷ [] → IfOk result (λ page. page ≡ record { text = self.text ++ end_text tag; around = around }) }
        ensures none { self.around ≡ [] → IfOk result (λ page. page ≡ self) }
    {
        if let Some(tag) = self.around.pop() {
            push_end(&mut self.text, tag)?;
        }
        Ok(self)
    }

    /// Ends all elements, and returns the text of the page.
    pub fn finish(self) -> Result<String, AllocError>
        ensures page { IfOk result (λ text. IsPage (string_bytes text)) }
        ensures text { IfOk result (λ text. string_bytes text ≡ self.text ++ ends_text self.around) }
    {
        let HtmlWriter {
            mut text,
            mut around,
        } = self;
        while let Some(tag) = around.pop() {
            push_end(&mut text, tag)?;
        }
        Ok(text)
    }
}
