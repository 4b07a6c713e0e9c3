use dns_data::Name;
use std::marker::Model;

/// What a record's text is a part of.
#[derive(Clone, Copy, Debug, PartialEq, Eq)]
pub enum Form {
    /// The text is one record. Semicolons and parentheses are bytes like others, and `@` is a
    /// label.
    Alone,
    /// The text is a part of a zone file. Comments and parentheses end a word, and `@` is the
    /// origin.
    ZoneFile,
}

/// Where a record's text stands, and the origin there, below which relative names stand.
#[derive(Drop)]
pub struct Place<'a> {
    pub origin: &'a Name,
    pub form: Form,
}

impl<'a> Model for Place<'a> {
    ghost use Rattle.record_text.specs.Fields.{PlaceData};

    ghost Value = { PlaceData };

    ghost view = { λ p. record { origin = p.origin.now; form = p.form } };
}
