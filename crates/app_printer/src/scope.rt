//! The names by which a term is written.

ghost use Rattle.std.specs.Prelude.{◌≡◌, [], ◌++◌, IfOk, OnOk};
ghost use Rattle.app_tree.specs.Named.{variable_name, name_of_read};
ghost use Rattle.app_printer.specs.inner.Names.{texts_of, names_inside};

use crate::names::Names;
use app_tree::Read;
use rx_value::{Memory, RxText};
use std::alloc::Global;
use std::marker::Model;

/// The names of an app, and of the variables in scope, from the outside to the inside. Contracts see
/// what the app's items declare and the list of the variables' names.
#[derive(Drop)]
pub struct Scope<'n, 'a> {
    names: &'n Names<'a>,
    variables: Vec<&'a RxText>,
}

impl<'n, 'a> Model for Scope<'n, 'a> {
    ghost use Rattle.app_printer.specs.inner.Names.{ScopeNames, texts_of};

    ghost Value = { ScopeNames };

    ghost view = { λ scope. record { table = scope.names.now; variables = texts_of scope.variables.items } };
}

fn push_all<'a>(texts: &'a [RxText], variables: &mut Vec<&'a RxText>) -> Result<(), Memory>
    ensures { OnOk result (texts_of variables.new.items ≡ texts_of variables.old.items ++ texts.now) }
{
    for text in texts {
        if variables.push(text).is_err() {
            return Err(Memory);
        }
    }
    Ok(())
}

fn push_same<'a>(from: &[&'a RxText], variables: &mut Vec<&'a RxText>) -> Result<(), Memory>
    ensures { OnOk result (texts_of variables.new.items ≡ texts_of variables.old.items
        ++ texts_of from.now) }
{
    for text in from {
        if variables.push(*text).is_err() {
            return Err(Memory);
        }
    }
    Ok(())
}

impl<'n, 'a> Scope<'n, 'a> {
    /// The scope of what has no variables.
    pub fn new(names: &'n Names<'a>) -> Scope<'n, 'a>
        ensures { result ≡ record { table = names.now; variables = [] } }
    {
        Scope {
            names,
            variables: Vec::new(names.alloc()),
        }
    }

    /// The scope of a task's body.
    pub fn of_parameters(
        names: &'n Names<'a>,
        parameters: &'a [RxText],
    ) -> Result<Scope<'n, 'a>, Memory>
        ensures { IfOk result (λ scope. scope ≡ record { table = names.now; variables = parameters.now }) }
    {
        let mut variables = Vec::new(names.alloc());
        push_all(parameters, &mut variables)?;
        Ok(Scope { names, variables })
    }

    /// The scope of the last part of a fold that stands in this one.
    pub fn inside(
        &self,
        accumulator: &'a RxText,
        element: &'a RxText,
    ) -> Result<Scope<'n, 'a>, Memory>
        ensures { IfOk result (λ scope. scope ≡ names_inside self.now accumulator.now element.now) }
    {
        let mut variables = Vec::new(self.alloc());
        push_same(self.variables.as_slice(), &mut variables)?;
        push_same(&[accumulator, element], &mut variables)?;
        Ok(Scope {
            names: self.names,
            variables,
        })
    }

    /// The name of the variable of this number.
    pub fn variable(&self, number: usize) -> &'a str
        ensures { result.now ≡ variable_name self.now.variables number }
    {
        match self.variables.get(number) {
            Some(name) => name.as_str(),
            None => "",
        }
    }

    /// The name of what is read.
    pub fn read(&self, read: Read) -> &'a str
        ensures { result.now ≡ name_of_read self.now.table read }
    {
        self.names.read(read)
    }

    /// The allocator of what is written.
    pub fn alloc(&self) -> Global {
        self.names.alloc()
    }
}
