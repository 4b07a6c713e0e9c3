/// How a word names what is sought in the text of a name.
#[derive(Clone, Copy, Debug, PartialEq, Eq)]
pub enum Matching {
    Exact,
    Prefix,
    Suffix,
    Substring,
    Regex,
}
