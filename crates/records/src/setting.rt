//! Settings in fields, as an open has them.

ghost use Rattle.std.specs.Prelude.{◌≡◌, OnSome, drop};
ghost use Rattle.std.specs.Option.{option_map};
ghost use Rattle.records.specs.Fields.{Reads};
ghost use Rattle.records.specs.Settings.{setting_in, weights_in, last_setting};

use crate::fields::Fields;
use crate::number;
use terms::sheet::Setting;

// The setting that a field holds: an empty one is blank.
fn setting_in(field: &[u8]) -> Option<Setting>
    ensures { result ≡ setting_in field.now }
{
    if field.is_empty() {
        Some(Setting::Blank)
    } else {
        number::number_in(field).map(Setting::Written)
    }
}

impl Fields<'_> {
    /// The setting in the next field: blank where the field is empty, and otherwise the number that it holds. None where it holds no number, or no field is left.
    pub fn setting(&mut self) -> Option<Setting>
        ensures { Reads setting_in self.old result self.new }
    {
        setting_in(self.next()?)
    }

    /// Sixteen weights in the next sixteen fields, that of member 0 first. None where one of them cannot be read or is missing.
    pub fn weights(&mut self) -> Option<[Setting; 16]>
        ensures value { result ≡ weights_in 16 self.old }
        ensures left { OnSome result (self.new ≡ drop 16 self.old) }
    {
        let mut weights = [Setting::Blank; 16];
        for i in 0..16 {
            weights[i] = self.setting()?;
        }
        Some(weights)
    }

    /// The margin in the last field, blank where no field is left. None where the field cannot be read, or more than one is left.
    pub fn last_setting(&mut self) -> Option<Setting>
        ensures { result ≡ last_setting self.old }
    {
        let Some(field) = self.next() else {
            return Some(Setting::Blank);
        };
        match self.next() {
            None => setting_in(field),
            Some(_) => None,
        }
    }
}
