ghost use Rattle.std.specs.Prelude.{◌≡◌, ◌≢◌, ◌<◌, ◌↔◌, length, Some, true, false, slice_get, slice_set, IfOk};
ghost use Rattle.rx_value.specs.Value.{source_eq};
ghost use Rattle.app_tree.specs.View.{shape_of};
ghost use Rattle.app_tree.specs.Numbering.{numbers_of, starting_values};
ghost use Rattle.app_tree.specs.Current.{value_at, told_at};
ghost use Rattle.rx_source.specs.Changing.{change_of};

use crate::answering::{plain_at, result_at, status_at};
use crate::starting::starting_values;
use app_tree::{App, Read, SourceNumbers};
use rx_value::{Memory, Outcome, SourceValue};
use std::alloc::Global;
use std::marker::Model;

/// What setting a source did.
#[derive(Clone, Copy, Debug, PartialEq, Eq)]
pub enum Change {
    /// The source has the new value now.
    Changed,
    /// The source had an equal value, and nothing was done.
    Same,
}

/// The current values of a session's sources, and where the sizes of the outputs stand among them.
#[derive(Debug, Drop)]
pub struct Sources {
    numbers: SourceNumbers,
    values: Vec<SourceValue>,
}

impl Model for Sources {
    ghost use Rattle.rx_source.specs.NumberedValues.{NumberedValues};

    ghost Value = { NumberedValues };

    ghost view = { λ s. record { numbers = s.numbers; values = s.values.items } };
}

impl Sources {
    /// The values at which the sources of this app start.
    pub fn new(alloc: Global, app: &App) -> Result<Sources, Memory>
        ensures numbers { IfOk result (λ s. s.numbers ≡ numbers_of (shape_of app.now)) }
        ensures values { IfOk result (λ s. s.values ≡ starting_values (shape_of app.now).items) }
    {
        let numbers = SourceNumbers::new(alloc, app)?;
        let values = starting_values(alloc, app.items().as_slice())?;
        Ok(Sources { numbers, values })
    }

    /// Where the sizes of the outputs stand.
    pub fn numbers(&self) -> &SourceNumbers
        ensures { result.now ≡ self.now.numbers }
    {
        &self.numbers
    }

    /// The count of sources.
    pub fn len(&self) -> usize
        ensures { result ≡ length self.now.values }
    {
        self.values.len()
    }

    /// Sets a source. An equal value does nothing.
    pub fn set(&mut self, source: u32, value: SourceValue) -> Change
        requires { source < length self.old.values }
        ensures answer { result ≡ change_of (source_eq (value_at self.old.values source) value) }
        ensures equal { (result ≡ Change.Same) ↔ (value_at self.old.values source ≡ value) }
        ensures same { result ≡ Change.Same → self.new ≡ self.old }
        ensures changed { result ≡ Change.Changed → self.new ≡ record self.old { values = slice_set self.old.values source value } }
    {
        if self.get(source).same(&value) {
            return Change::Same;
        }
        self.values[source as usize] = value;
        Change::Changed
    }

    /// The current value of a source.
    pub fn get(&self, source: u32) -> &SourceValue
        requires { source < length self.now.values }
        ensures { slice_get self.now.values source ≡ Some result.now }
    {
        &self.values[source as usize]
    }

    /// What a read of a source is answered; a read of an expression, which is no source, stops silently.
    pub fn answer(&self, alloc: Global, read: Read) -> Result<Outcome, Memory>
        ensures { IfOk result (λ outcome. outcome ≡ told_at self.now.numbers self.now.values read) }
    {
        let values = self.values.as_slice();
        match read {
            Read::Input(source) => plain_at(alloc, values, source),
            Read::Value(source) => plain_at(alloc, values, source),
            Read::Status(source) => status_at(alloc, values, source),
            Read::Result(source) => result_at(alloc, values, source),
            Read::Width(reader) => plain_at(alloc, values, self.numbers.width(reader)),
            Read::Height(reader) => plain_at(alloc, values, self.numbers.height(reader)),
            Read::Expr(_) => Ok(Outcome::Stop),
        }
    }
}
