//! The elements and attributes of a page.

ghost use Rattle.std.specs.Prelude.{◌≡◌};
ghost use Rattle.html_text.specs.Html.{attribute_name, tag_name};

/// An element of HTML or SVG.
#[derive(Clone, Copy, Debug, PartialEq, Eq)]
pub enum Tag {
    Html,
    Head,
    Meta,
    Title,
    Style,
    Body,
    Main,
    Section,
    H1,
    H2,
    P,
    Span,
    Ul,
    Li,
    Code,
    Figure,
    Figcaption,
    Div,
    Details,
    Summary,
    Table,
    Thead,
    Tbody,
    Tr,
    Th,
    Td,
    Svg,
    Desc,
    Rect,
    Path,
}

impl Tag {
    // Returns its name.
    pub(crate) fn name(self) -> &'static str
        ensures { result.now ≡ tag_name self }
    {
        match self {
            Tag::Html => "html",
            Tag::Head => "head",
            Tag::Meta => "meta",
            Tag::Title => "title",
            Tag::Style => "style",
            Tag::Body => "body",
            Tag::Main => "main",
            Tag::Section => "section",
            Tag::H1 => "h1",
            Tag::H2 => "h2",
            Tag::P => "p",
            Tag::Span => "span",
            Tag::Ul => "ul",
            Tag::Li => "li",
            Tag::Code => "code",
            Tag::Figure => "figure",
            Tag::Figcaption => "figcaption",
            Tag::Div => "div",
            Tag::Details => "details",
            Tag::Summary => "summary",
            Tag::Table => "table",
            Tag::Thead => "thead",
            Tag::Tbody => "tbody",
            Tag::Tr => "tr",
            Tag::Th => "th",
            Tag::Td => "td",
            Tag::Svg => "svg",
            Tag::Desc => "desc",
            Tag::Rect => "rect",
            Tag::Path => "path",
        }
    }
}

/// An attribute of an element.
#[derive(Clone, Copy, Debug, PartialEq, Eq)]
pub enum Attribute {
    Lang,
    Charset,
    Name,
    Content,
    Class,
    Id,
    Role,
    LabelledBy,
    Scope,
    ViewBox,
    AspectRatio,
    X,
    Y,
    Width,
    Height,
    D,
}

impl Attribute {
    // Returns its name.
    pub(crate) fn name(self) -> &'static str
        ensures { result.now ≡ attribute_name self }
    {
        match self {
            Attribute::Lang => "lang",
            Attribute::Charset => "charset",
            Attribute::Name => "name",
            Attribute::Content => "content",
            Attribute::Class => "class",
            Attribute::Id => "id",
            Attribute::Role => "role",
            Attribute::LabelledBy => "aria-labelledby",
            Attribute::Scope => "scope",
            Attribute::ViewBox => "viewBox",
            Attribute::AspectRatio => "preserveAspectRatio",
            Attribute::X => "x",
            Attribute::Y => "y",
            Attribute::Width => "width",
            Attribute::Height => "height",
            Attribute::D => "d",
        }
    }
}
