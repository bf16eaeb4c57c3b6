//! Where a part of a term stands.

ghost use Rattle.std.specs.Prelude.{◌≡◌, suc, [], ◌∷◌, map, nat_le};
ghost use Rattle.app_tree.specs.Resolve.{text_of_name, inner_scope};
ghost use Rattle.app_tree.specs.Faults.{is_named_among, is_in_task, is_in_expression};
ghost use Rattle.app_check.specs.inner.Spots.{holder_of, variables_of, depth_of};

use crate::parameters::Parameters;
use crate::table::Table;
use app_tree::Name;
use rx_value::RxText;

/// What the item is in which a part of a term stands.
#[derive(Clone, Copy, Debug, PartialEq, Eq)]
pub enum Holder {
    Task,
    Expression,
    Other,
}

/// The variables that are bound where a part of a term stands.
#[derive(Clone, Copy)]
pub enum Scope<'s, 'a> {
    /// None, outside of a task and of a fold's last part.
    Empty,
    /// The parameters of a task.
    Parameters(&'s Parameters<'a>),
    /// Those of a fold, in whose last part it stands, behind those around the fold.
    LastPart {
        outer: &'s Scope<'s, 'a>,
        accumulator: &'a Name,
        element: &'a Name,
    },
}

/// Where a part of a term stands.
#[derive(Clone, Copy)]
pub struct Spot<'s, 'a> {
    pub table: &'s Table<'a>,
    /// The item's place among the items, from 0.
    pub item: usize,
    pub holder: Holder,
    pub scope: Scope<'s, 'a>,
}

impl Holder {
    pub fn is_task(self) -> bool
        ensures { result ≡ is_in_task (holder_of self) }
    {
        matches!(self, Holder::Task)
    }

    pub fn is_expression(self) -> bool
        ensures { result ≡ is_in_expression (holder_of self) }
    {
        matches!(self, Holder::Expression)
    }
}

fn is_either(name: &RxText, first: &Name, second: &Name) -> bool
    ensures { result ≡ is_named_among name.now (first.now.text ∷ second.now.text ∷ []) }
{
    name.same(&first.text) || name.same(&second.text)
}

impl<'s, 'a> Scope<'s, 'a> {
    /// The variables in the last part of a fold that stands here.
    pub fn in_last_part(&'s self, accumulator: &'a Name, element: &'a Name) -> Scope<'s, 'a>
        ensures variables { variables_of result
            ≡ inner_scope (variables_of self.now) accumulator.now.text element.now.text }
        ensures depth { depth_of result ≡ suc (depth_of self.now) }
    {
        Scope::LastPart {
            outer: self,
            accumulator,
            element,
        }
    }
}

impl Scope<'_, '_> {
    /// Whether a variable of this name is bound.
    #[tactic(auto, using(crate::proofs::First::is_named_among_append))]
    pub fn binds(&self, name: &RxText) -> bool
        ensures { result ≡ is_named_among name.now (variables_of self.now) }
    {
        match self {
            Scope::Empty => false,
            Scope::Parameters(parameters) => parameters.contain(name),
            Scope::LastPart {
                outer,
                accumulator,
                element,
            } => {
                let outside = outer.binds(name);
                let here = is_either(name, accumulator, element);
                outside || here
            }
        }
    }

    /// Whether it is inside the last part of a fold.
    pub fn is_in_last_part(&self) -> bool
        ensures { result ≡ nat_le 1 (depth_of self.now) }
    {
        matches!(self, Scope::LastPart { .. })
    }

    /// Whether it is inside the last part of a fold that stands in the last part of a fold.
    pub fn is_in_inner_last_part(&self) -> bool
        ensures { result ≡ nat_le 2 (depth_of self.now) }
    {
        match self {
            Scope::Empty | Scope::Parameters(_) => false,
            Scope::LastPart { outer, .. } => outer.is_in_last_part(),
        }
    }
}
