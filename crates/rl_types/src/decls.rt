//! What a program declares.

ghost use Rattle.std.specs.Prelude.{◌≡◌, ◌==◌, IfOk, map, filter, find, length};
ghost use Rattle.std.specs.Option.{option_copied, option_map};
ghost use Rattle.std.specs.Str.{bytes_eq};
ghost use Rattle.rl_types.specs.Declarations.{is_data, is_sort, constructor};
ghost use Rattle.rl_types.specs.Program.{declarations_of};
ghost use Rattle.rl_types.specs.View.{constructor_of, declarations_in, IsIndexed};

use crate::constructor::Constructor;
use crate::gathering::{by_name, constructors, data_types, set_of, sorts};
use rl_base::Name;
use rl_syntax::Module;
use std::alloc::{AllocError, Global};
use std::collections::{BTreeMap, BTreeSet};
use std::marker::Model;
use std::rc::Rc;

/// Declarations in text order, and where names are looked up.
#[derive(Drop)]
pub(crate) struct Table {
    pub(crate) data_types: Vec<Name>,
    pub(crate) constructors: Vec<Constructor>,
    pub(crate) sorts: Vec<Name>,
    pub(crate) data_type_names: BTreeSet<String>,
    pub(crate) sort_names: BTreeSet<String>,
    /// In text order for each name.
    pub(crate) constructors_by_name: BTreeMap<String, Vec<Constructor>>,
}

/// What a program declares: its data types, their constructors, and its sorts.
#[derive(Drop)]
pub struct Decls {
    pub(crate) table: Rc<Table>,
}

impl Model for Decls {
    ghost use Rattle.rl_types.specs.Declarations.{Declarations};
    ghost use Rattle.rl_types.specs.Codes.{coded_declarations};

    ghost Value = { Declarations };

    ghost coded = { coded_declarations };

    ghost use Rattle.rl_types.specs.View.{declarations_in, IsIndexed};

    ghost view = { λ d. declarations_in d.table.value };

    ghost invariant = { λ d. IsIndexed d.table.value };
}

impl Decls {
    /// The exceptions that are there without a declaration, and what the modules declare.
    pub fn new(alloc: Global, modules: &[Module]) -> Result<Decls, AllocError>
        ensures { IfOk result (λ d. d ≡ declarations_of modules.now) }
    {
        Ok(Decls {
            table: Rc::new(alloc, table_of(alloc, modules)?)?,
        })
    }

    /// The same declarations, shared.
    pub fn share(&self) -> Result<Decls, AllocError>
        ensures { IfOk result (λ d. d ≡ self.now) }
    {
        Ok(Decls {
            table: self.table.clone()?,
        })
    }

    /// Whether a data type has this name.
    pub fn is_data(&self, name: &str) -> bool
        ensures { result ≡ is_data self.now name.now }
    {
        self.table.data_type_names.contains(name)
    }

    /// Whether a sort has this name.
    pub fn is_sort(&self, name: &str) -> bool
        ensures { result ≡ is_sort self.now name.now }
    {
        self.table.sort_names.contains(name)
    }

    /// The first constructor with this name and as many fields, and None where there is none.
    pub fn constructor(&self, name: &str, count: usize) -> Option<&Constructor>
        ensures { option_map constructor_of (option_copied result) ≡ constructor self.now name.now count }
    {
        with_count(self.named(name), count)
    }

    // The constructors with this name, in text order.
    fn named(&self, name: &str) -> &[Constructor]
        ensures { map constructor_of result.now ≡ filter (λ c. bytes_eq name.now c.name) self.now.constructors }
    {
        match self.table.constructors_by_name.get(name) {
            Some(constructors) => constructors.as_slice(),
            None => &[],
        }
    }

    /// The data types in text order.
    pub fn data_types(&self) -> &[Name]
        ensures { result.now ≡ self.now.data_types }
    {
        self.table.data_types.as_slice()
    }

    /// The constructors in text order.
    pub fn constructors(&self) -> &[Constructor]
        ensures { map constructor_of result.now ≡ self.now.constructors }
    {
        self.table.constructors.as_slice()
    }

    /// The sorts in text order.
    pub fn sorts(&self) -> &[Name]
        ensures { result.now ≡ self.now.sorts }
    {
        self.table.sorts.as_slice()
    }
}

// The first constructor with as many fields.
fn with_count(constructors: &[Constructor], count: usize) -> Option<&Constructor>
    ensures { option_copied result ≡ find (λ c. length c.fields == count) constructors.now }
{
    constructors.iter().find(|c| c.fields.len() == count)
}

fn table_of(alloc: Global, modules: &[Module]) -> Result<Table, AllocError>
    ensures value { IfOk result (λ t. declarations_in t ≡ declarations_of modules.now) }
    ensures indexed { IfOk result IsIndexed }
{
    let data_types = data_types(alloc, modules)?;
    let constructors = constructors(alloc, modules)?;
    let sorts = sorts(alloc, modules)?;
    let data_type_names = set_of(alloc, &data_types)?;
    let sort_names = set_of(alloc, &sorts)?;
    let constructors_by_name = by_name(alloc, &constructors)?;
    Ok(Table {
        data_types,
        constructors,
        sorts,
        data_type_names,
        sort_names,
        constructors_by_name,
    })
}
