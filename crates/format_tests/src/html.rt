//! Pages of HTML: no words are markup, and each element ends.

use crate::cases::{Case, check};
use html_text::{Attribute, HtmlWriter, Tag};
use std::alloc::{AllocError, Global};
use std::process::Abort;

// Words in an element and in its attribute.
struct Words(&'static str);

fn page_of(alloc: Global, words: &str) -> Result<String, AllocError> {
    HtmlWriter::new(alloc)?
        .start(Tag::P, &[(Attribute::Class, words)])?
        .words(words)?
        .finish()
}

impl Case for Words {
    fn text(&self, alloc: Global) -> Result<String, AllocError> {
        page_of(alloc, self.0)
    }
}

const PAGES: &[(Words, &str)] = &[
    (Words(""), "<!DOCTYPE html>\n<p class=\"\"></p>"),
    (
        Words("</script>"),
        "<!DOCTYPE html>\n<p class=\"&lt;/script&gt;\">&lt;/script&gt;</p>",
    ),
    (
        Words("a&b=\"c\" d='e'"),
        "<!DOCTYPE html>\n<p class=\"a&amp;b=&quot;c&quot; d=&#39;e&#39;\">a&amp;b=&quot;c&quot; d=&#39;e&#39;</p>",
    ),
    (
        Words("\u{e9}\u{20ac}\u{1f600}\n"),
        "<!DOCTYPE html>\n<p class=\"\u{e9}\u{20ac}\u{1f600}\n\">\u{e9}\u{20ac}\u{1f600}\n</p>",
    ),
];

#[test]
fn words_in_pages(rt: HostRuntime) {
    check(&rt, PAGES);
}

// Elements in one another, of which some are ended by the writer.
#[derive(Drop)]
struct Nested;

impl Case for Nested {
    fn text(&self, alloc: Global) -> Result<String, AllocError> {
        HtmlWriter::new(alloc)?
            .end()?
            .start(Tag::Html, &[(Attribute::Lang, "en")])?
            .single(Tag::Meta, &[(Attribute::Charset, "utf-8")])?
            .start(
                Tag::Svg,
                &[(Attribute::ViewBox, "0 0 1 1"), (Attribute::Role, "img")],
            )?
            .start(Tag::Rect, &[])?
            .end()?
            .end()?
            .start(Tag::Figcaption, &[])?
            .words("one")?
            .finish()
    }
}

#[test]
fn elements_in_pages(rt: HostRuntime) {
    let text = "<!DOCTYPE html>\n<html lang=\"en\"><meta charset=\"utf-8\">\
        <svg viewBox=\"0 0 1 1\" role=\"img\"><rect></rect></svg><figcaption>one</figcaption></html>";
    check(&rt, &[(Nested, text)]);
}

// How often a character is in a text.
fn count_of(text: &str, wanted: char) -> usize {
    text.chars().filter(|c| *c == wanted).count()
}

// Of each byte of ASCII no page has more marks than of a letter.
#[test]
fn each_byte_in_a_page(rt: HostRuntime) {
    for byte in 0..128u8 {
        let words = format!(in rt.alloc(); "{}", char::from(byte)).expect(&rt, "memory");
        let page = page_of(rt.alloc(), &words).expect(&rt, "memory");
        let marks = [
            count_of(&page, '<'),
            count_of(&page, '>'),
            count_of(&page, '"'),
        ];
        assert_eq!(rt; marks, [3, 3, 2], "byte {byte}");
    }
}
