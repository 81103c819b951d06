//! Fields: the stretches of a record between its commas.

ghost use Rattle.std.specs.Prelude.{◌≡◌, List, [], ◌∷◌, ℕ, MatchOption};
ghost use Rattle.std.specs.List.{position};
ghost use Rattle.records.specs.Fields.{fields_of, fields_left, is_comma, Reads};
ghost use Rattle.records.specs.Numbers.{number_in, set_in};

use crate::number;
use std::marker::Model;

/// The fields of a record that are not read yet. Contracts see the list of them, each a list of bytes.
#[derive(Drop)]
pub(crate) struct Fields<'a> {
    rest: Option<&'a [u8]>,
}

impl<'a> Model for Fields<'a> {
    ghost Value = { List (List ℕ) };

    ghost view = { λ f. fields_left f.rest };
}

fn comma_in(bytes: &[u8]) -> Option<usize>
    ensures { result ≡ position is_comma bytes.now }
{
    bytes.iter().position(|b| *b == b',')
}

impl<'a> Fields<'a> {
    /// All fields of the record with these bytes, given without its CRLF: one at least, and any may be empty.
    pub fn new(bytes: &'a [u8]) -> Self
        ensures { result ≡ fields_of bytes.now }
    {
        Fields { rest: Some(bytes) }
    }

    /// The next field, as the stretch of the record that it stands in. None where no field is left.
    #[tactic(auto, using(crate::proofs::Reading::fields_none, crate::proofs::Reading::fields_some))]
    pub fn next(&mut self) -> Option<&'a [u8]>
        ensures { MatchOption result ((self.old ≡ []) × (self.new ≡ [])) (λ field. self.old
            ≡ field.now ∷ self.new) }
    {
        let rest = self.rest?;
        let Some(comma) = comma_in(rest) else {
            self.rest = None;
            return Some(rest);
        };
        self.rest = Some(&rest[comma + 1..]);
        Some(&rest[..comma])
    }

    /// The number of at most 32 bits in the next field. None where the field holds no such number, or no field is left.
    pub fn number(&mut self) -> Option<u32>
        ensures { Reads number_in self.old result self.new }
    {
        number::number_in(self.next()?)
    }

    /// The set of members in the next field, a number up to 65,535. None where the field holds none, or no field is left.
    pub fn set(&mut self) -> Option<u16>
        ensures { Reads set_in self.old result self.new }
    {
        number::set_in(self.next()?)
    }
}
