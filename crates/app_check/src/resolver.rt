//! What names stand for, as numbers, where a term stands.

ghost use Rattle.std.specs.Prelude.{◌≡◌, ◌≤◌, [], ◌∷◌, ◌++◌, IfOk, OnOk, OnErr, length, map, take};
ghost use Rattle.app_tree.specs.Resolve.{text_of_name, number_named, resolved_read, innermost_from, innermost, number_or_zero, read_to, named_read};
ghost use Rattle.app_tree.specs.Sorts.{sorts_of};
ghost use Rattle.app_check.specs.inner.Bound.{kept_parameters};
ghost use Rattle.app_check.specs.inner.Resolving.{behind_sites, in_fold};

use crate::parameters::Parameters;
use crate::table::NumberedTable;
use crate::term_faults::sought_by;
use app_tree::{Name, Read, ReadForm, Sort, Sorts};
use rx_value::{Memory, RxText};
use std::alloc::Global;
use std::marker::Model;

/// What is known where a part of an item stands.
#[derive(Drop)]
pub struct Resolver<'t, 'a> {
    table: &'t NumberedTable<'a>,
    /// The variables that are bound, from the outside to the inside.
    variables: Vec<&'a RxText>,
    /// Those of a task that stand first among them, as long as all of these are bound.
    parameters: Option<Parameters<'a>>,
    /// The number of the next site.
    site: usize,
}

impl<'t, 'a> Model for Resolver<'t, 'a> {
    ghost use Rattle.std.specs.Prelude.{map};
    ghost use Rattle.std.specs.Coded.{codes};
    ghost use Rattle.app_check.specs.inner.Resolving.{Resolving};

    ghost Value = { Resolving };

    ghost coded = { Prim.hlevel (codes) };

    ghost view = { λ r. record {
      table = r.table.now;
      scope = map (λ v. v.now) r.variables.items;
      site = r.site;
    } };

    ghost use Rattle.app_check.specs.inner.Bound.{StandFirst};

    ghost invariant = { λ r. StandFirst r.parameters (map (λ v. v.now) r.variables.items) };
}

fn push<'a>(variables: &mut Vec<&'a RxText>, name: &'a RxText) -> Result<(), Memory>
    ensures ok { OnOk result (variables.new.items ≡ variables.old.items ++ name.entry ∷ []) }
    ensures err { OnErr result (variables.new.items ≡ variables.old.items) }
{
    match variables.push(name) {
        Ok(()) => Ok(()),
        Err(_) => Err(Memory),
    }
}

fn texts_of<'a>(alloc: Global, names: &'a [Name]) -> Result<Vec<&'a RxText>, Memory>
    ensures { IfOk result (λ texts. map (λ v. v.now) texts.items ≡ map text_of_name names.now) }
{
    let mut texts = Vec::new(alloc);
    for name in names {
        push(&mut texts, &name.text)?;
    }
    Ok(texts)
}

/// The place of the innermost variable of this name, where it is known of the first `count`.
fn innermost(
    variables: &[&RxText],
    count: usize,
    among_first: Option<usize>,
    name: &RxText,
) -> Option<usize>
    requires within { count ≤ length variables.now }
    requires first { among_first
        ≡ innermost name.now (take count (map (λ v. v.now) variables.now)) }
    ensures { result ≡ innermost name.now (map (λ v. v.now) variables.now) }
{
    let mut found = among_first;
    for place in count..variables.len() {
        if name.same(variables[place]) {
            found = Some(place);
        }
    }
    found
}

/// The parameters, where the first `count` variables have all of them.
fn kept<'a>(parameters: Option<Parameters<'a>>, count: usize) -> Option<Parameters<'a>>
    ensures { result ≡ kept_parameters count parameters.entry }
{
    match parameters {
        Some(parameters) => {
            if parameters.len() <= count {
                Some(parameters)
            } else {
                None
            }
        }
        None => None,
    }
}

/// The read of what has this number and is of this sort.
fn read_to(form: ReadForm, sort: Sort, number: u32) -> Read
    ensures { result ≡ read_to form sort number }
{
    match form {
        ReadForm::Input => Read::Input(number),
        ReadForm::Named => named_read(sort, number),
        ReadForm::Status => Read::Status(number),
        ReadForm::Result => Read::Result(number),
        ReadForm::Width => Read::Width(number),
        ReadForm::Height => Read::Height(number),
    }
}

fn named_read(sort: Sort, number: u32) -> Read
    ensures { result ≡ named_read sort number }
{
    match sort {
        Sort::Value => Read::Value(number),
        _ => Read::Expr(number),
    }
}

impl<'t, 'a> Resolver<'t, 'a> {
    /// Before an item's text, where no variable is bound and no site was passed.
    pub fn new(alloc: Global, table: &'t NumberedTable<'a>) -> Resolver<'t, 'a>
        ensures { result ≡ record { table = table.now; scope = []; site = 0 } }
    {
        Resolver {
            table,
            variables: Vec::new(alloc),
            parameters: None,
            site: 0,
        }
    }

    /// The same in a task with these parameters.
    pub fn with_parameters(
        alloc: Global,
        table: &'t NumberedTable<'a>,
        parameters: &'a [Name],
    ) -> Result<Resolver<'t, 'a>, Memory>
        ensures { IfOk result (λ r. r
            ≡ record { table = table.now; scope = map text_of_name parameters.now; site = 0 }) }
    {
        let variables = texts_of(alloc, parameters)?;
        let parameters = Some(Parameters::new(alloc, parameters)?);
        Ok(Resolver {
            table,
            variables,
            parameters,
            site: 0,
        })
    }

    /// The number of a site that begins here. More sites than can be counted find no memory either.
    pub fn next_site(&mut self) -> Result<usize, Memory>
        ensures site { IfOk result (λ site. site ≡ self.old.site) }
        ensures next { OnOk result (self.new ≡ behind_sites self.old 1) }
    {
        let site = self.site;
        match site.checked_add(1) {
            Some(next) => {
                self.site = next;
                Ok(site)
            }
            None => Err(Memory),
        }
    }

    /// How many variables are bound.
    pub fn count(&self) -> usize
        ensures { result ≡ length self.now.scope }
    {
        self.variables.len()
    }

    /// Binds the variables of a fold, for its last part.
    pub fn bind(&mut self, accumulator: &'a Name, element: &'a Name) -> Result<(), Memory>
        ensures { OnOk result (self.new ≡ in_fold self.old accumulator.now.text element.now.text) }
    {
        push(&mut self.variables, &accumulator.text)?;
        push(&mut self.variables, &element.text)?;
        Ok(())
    }

    /// Lets go the variables but for the first `count`.
    #[tactic(auto, using(crate::proofs::Counted::names_kept))]
    pub fn unbind(&mut self, count: usize)
        ensures { self.new ≡ record self.old { scope = take count self.old.scope } }
    {
        self.parameters = kept(self.parameters.take(), count);
        self.variables.truncate(count);
    }

    /// The number of what the name stands for among these sorts, or 0 where there is none.
    pub fn number(&self, sought: Sorts, name: &Name) -> u32
        ensures { result ≡ number_named self.now.table (sorts_of sought) name.now.text }
    {
        match self.table.find(sought, &name.text) {
            Some(found) => self.table.number_at(found.item, found.sort),
            None => 0,
        }
    }

    /// What is read by this name.
    pub fn read(&self, form: ReadForm, name: &Name) -> Read
        ensures { result ≡ resolved_read self.now.table form name.now.text }
    {
        match self.table.find(sought_by(form), &name.text) {
            Some(found) => {
                let number = self.table.number_at(found.item, found.sort);
                read_to(form, found.sort, number)
            }
            None => read_to(form, Sort::Expression, 0),
        }
    }

    /// The number of the variable of this name, or 0 where there is none.
    pub fn variable(&self, name: &Name) -> usize
        ensures { result ≡ number_or_zero (innermost name.now.text self.now.scope) }
    {
        let name = &name.text;
        let variables = self.variables.as_slice();
        let found = match &self.parameters {
            Some(parameters) => {
                innermost(variables, parameters.len(), parameters.last(name), name)
            }
            None => innermost(variables, 0, None, name),
        };
        found.unwrap_or(0)
    }
}
