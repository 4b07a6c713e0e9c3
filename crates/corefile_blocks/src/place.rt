use crate::BlockWhy;

/// Where a line of words stands. The numbers are those of lines.
#[derive(Clone, Copy, Debug, PartialEq, Eq)]
pub(crate) enum Place {
    Top,
    /// In a block, which this line opened.
    Block { line: u32 },
    /// In the body of a directive, which `line` opened, in the block that `block` opened.
    Body { block: u32, line: u32 },
    /// In a snippet, which this line opened, where so many `{` are open besides its own.
    Snippet { line: u32, nested: u32 },
}

/// What a line of words is.
#[derive(Clone, Copy, Debug, PartialEq, Eq)]
pub(crate) enum LineForm {
    Refused(BlockWhy),
    /// `import NAME`, where it takes effect.
    Import,
    /// `(NAME) {`.
    SnippetHeader,
    /// A line of a snippet, behind which so many `{` are open besides the snippet's own.
    SnippetLine { nested: u32 },
    SnippetEnd,
    /// `KEYS {`.
    Header,
    BlockEnd,
    /// A directive without a body.
    Directive,
    /// A directive, and the `{` of its body.
    DirectiveHeader,
    BodyLine,
    BodyEnd,
}
