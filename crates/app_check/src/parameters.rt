//! The parameters of a task.

ghost use Rattle.std.specs.Prelude.{◌≡◌, [], ◌++◌, IfOk, OnOk, length, map, is_some};
ghost use Rattle.app_tree.specs.declared.refusal.Fault.TheVariants as fault;
ghost use Rattle.app_tree.specs.Resolve.{text_of_name, innermost};
ghost use Rattle.app_tree.specs.Faults.{is_named_among, name_refused, repeated_names, where_fails};
ghost use Rattle.app_check.specs.inner.ByName.{by_name, SetsName};
ghost use Rattle.app_check.specs.inner.Bound.{refused_names, HasPlaces, AreRepeated};

use app_tree::Name;
use rx_value::{Memory, RxText};
use std::alloc::Global;
use std::collections::BTreeMap;
use std::marker::Model;

/// The last place of each name.
type Places<'a> = BTreeMap<&'a str, usize>;

/// The parameters of a task, from the first to the last. Names are looked up by a map.
#[derive(Drop)]
pub struct Parameters<'a> {
    names: &'a [Name],
    places: Places<'a>,
    /// Those of the name of an earlier one.
    repeated: Vec<&'a Name>,
}

impl<'a> Model for Parameters<'a> {
    ghost use Rattle.std.specs.Prelude.{List};
    ghost use Rattle.std.specs.Coded.{codes};
    ghost use Rattle.app_tree.specs.declared.draft_term.Name.{Name};
    ghost use Rattle.app_check.specs.inner.Bound.{HasPlaces, AreRepeated};

    ghost Value = { List Name };

    ghost coded = { Prim.hlevel (codes) };

    ghost view = { λ p. p.names.now };

    ghost invariant = { λ p.
        HasPlaces p.places p.names.now × AreRepeated p.repeated.items p.names.now };
}

/// Gives a name this place, and tells whether it had one.
fn set_place<'a>(places: &mut Places<'a>, name: &'a RxText, place: usize) -> Result<bool, Memory>
    ensures set { OnOk result (SetsName places.old places.new name.now place) }
    ensures had { IfOk result (λ had. had ≡ is_some (by_name places.old name.now)) }
{
    match places.insert(name.as_str(), place) {
        Ok(old) => Ok(old.is_some()),
        Err(_) => Err(Memory),
    }
}

/// Keeps a parameter among those of the name of an earlier one, if it is one.
fn keep_if<'a>(
    repeated: &mut Vec<&'a Name>,
    is_repeated: bool,
    name: &'a Name,
) -> Result<(), Memory>
    ensures { OnOk result (refused_names repeated.new.items
        ≡ refused_names repeated.old.items
        ++ where_fails is_repeated (name_refused fault.NameTwice name.now)) }
{
    if !is_repeated {
        return Ok(());
    }
    match repeated.push(name) {
        Ok(()) => Ok(()),
        Err(_) => Err(Memory),
    }
}

impl<'a> Parameters<'a> {
    /// The parameters of these names.
    pub fn new(alloc: Global, names: &'a [Name]) -> Result<Parameters<'a>, Memory>
        ensures { IfOk result (λ parameters. parameters ≡ names.now) }
    {
        let mut places = BTreeMap::new(alloc);
        let mut repeated = Vec::new(alloc);
        for (place, name) in names.iter().enumerate() {
            let had = set_place(&mut places, &name.text, place)?;
            keep_if(&mut repeated, had, name)?;
        }
        Ok(Parameters {
            names,
            places,
            repeated,
        })
    }
}

impl Parameters<'_> {
    /// How many there are.
    pub fn len(&self) -> usize
        ensures { result ≡ length self.now }
    {
        self.names.len()
    }

    /// The place of the last one of this name.
    pub fn last(&self, name: &RxText) -> Option<usize>
        ensures { result ≡ innermost name.now (map text_of_name self.now) }
    {
        self.places.get(name.as_str()).copied()
    }

    /// Whether one has this name.
    #[tactic(auto, using(crate::proofs::Placed::is_bound))]
    pub fn contain(&self, name: &RxText) -> bool
        ensures { result ≡ is_named_among name.now (map text_of_name self.now) }
    {
        self.last(name).is_some()
    }
}

impl<'a> Parameters<'a> {
    /// Those of the name of an earlier one, from the first to the last.
    pub fn repeated(&self) -> &[&'a Name]
        ensures { refused_names result.now ≡ repeated_names [] self.now }
    {
        self.repeated.as_slice()
    }
}
