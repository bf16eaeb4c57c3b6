ghost use Rattle.std.specs.Prelude.{◌≡◌, ◌≤◌, IfOk, map, length, filter};
ghost use Rattle.app_tree.specs.declared.limits.TheConstants.{ITEM_LIMIT};
ghost use Rattle.app_tree.specs.Numbering.{numbers_of, outputs_before, outputs_before_each, width_at, height_at, is_reader};
ghost use Rattle.app_tree.specs.View.{node_of, shape_of};

use crate::app::App;
use crate::item::Item;
use crate::numbering::count_of;
use crate::sorts::Sorts;
use rx_value::Memory;
use std::alloc::Global;
use std::marker::Model;

/// Where the sizes of an app's outputs stand among its sources.
#[derive(Debug, Drop)]
pub struct SourceNumbers {
    declared: u32,
    outputs: u32,
    /// By reader number: how many outputs stand before that reader.
    before: Vec<u32>,
}

impl Model for SourceNumbers {
    ghost use Rattle.app_tree.specs.Numbering.{SourceNumbers};
    ghost use Rattle.app_tree.specs.FewSources.{HasFew};

    ghost Value = { SourceNumbers };

    ghost view = { λ s. record { declared = s.declared; outputs = s.outputs; before = s.before.items } };

    ghost invariant = { λ s. HasFew (record { declared = s.declared; outputs = s.outputs; before = s.before.items }) };
}

/// For each reader how many outputs stand before it.
fn outputs_before(alloc: Global, items: &[Item]) -> Result<Vec<u32>, Memory>
    requires { length items.now ≤ ITEM_LIMIT }
    ensures { IfOk result
        (λ before. before.items ≡ outputs_before_each 0 (filter is_reader (map node_of items.now))) }
{
    let mut before = Vec::new(alloc);
    let mut outputs = 0;
    for item in items {
        if item.is_reader() {
            if before.push(outputs).is_err() {
                return Err(Memory);
            }
        }
        if item.is_output() {
            outputs += 1;
        }
    }
    Ok(before)
}

impl SourceNumbers {
    /// Those of this app.
    pub fn new(alloc: Global, app: &App) -> Result<SourceNumbers, Memory>
        ensures { IfOk result (λ numbers. numbers ≡ numbers_of (shape_of app.now)) }
    {
        let before = outputs_before(alloc, app.few_items())?;
        Ok(SourceNumbers {
            declared: app.declared(),
            outputs: app.outputs(),
            before,
        })
    }

    /// How many sources are inputs, values or tasks.
    pub fn declared(&self) -> u32
        ensures value { result ≡ self.now.declared }
        ensures most { result ≤ ITEM_LIMIT }
    {
        self.declared
    }

    /// How many outputs there are, each of which has a width and a height.
    pub fn outputs(&self) -> u32
        ensures value { result ≡ self.now.outputs }
        ensures most { result ≤ ITEM_LIMIT }
    {
        self.outputs
    }

    /// How many outputs stand before the reader of this number.
    fn before(&self, reader: u32) -> u32
        ensures value { result ≡ outputs_before self.now reader }
        ensures most { result ≤ ITEM_LIMIT }
    {
        match self.before.get(reader as usize) {
            Some(before) => *before,
            None => self.outputs,
        }
    }

    /// The number of the source that is the width of the output of this reader number.
    pub fn width(&self, reader: u32) -> u32
        ensures { result ≡ width_at self.now reader }
    {
        self.declared + self.before(reader)
    }

    /// The number of the source that is the height of the output of this reader number.
    pub fn height(&self, reader: u32) -> u32
        ensures { result ≡ height_at self.now reader }
    {
        self.declared + self.before(reader) + self.outputs
    }
}
