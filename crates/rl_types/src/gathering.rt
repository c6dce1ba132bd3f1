//! The declarations of modules, and how names are found among them.

ghost use Rattle.std.specs.Prelude.{◌≡◌, ◌++◌, ◌∷◌, IfOk, OnOk, ℕ, List, [], map, filter, flat_map};
ghost use Rattle.std.specs.List.{list_any};
ghost use Rattle.std.specs.Option.{option_map_or};
ghost use Rattle.std.specs.Str.{bytes_eq};
ghost use Rattle.std.specs.BTreeMap.{get_by_text};
ghost use Rattle.std.specs.BTreeSet.{contains_text};
ghost use Rattle.rl_types.specs.Exceptions.{exception_name, exceptions};
ghost use Rattle.rl_types.specs.Program.{data_types_in, variant_of, constructors_in, sorts_in, in_all};
ghost use Rattle.rl_types.specs.View.{constructor_of};

use crate::constructor::Constructor;
use crate::exceptions::{EXCEPTION, EXCEPTIONS, add_exceptions};
use rl_base::Name;
use rl_syntax::{Decl, Module, Variant};
use std::alloc::{AllocError, Global};
use std::collections::{BTreeMap, BTreeSet};

fn add_data_types(declarations: &[Decl], names: &mut Vec<Name>) -> Result<(), AllocError>
    ensures { OnOk result (names.new.items ≡ names.old.items ++ flat_map data_types_in declarations.now) }
{
    for declaration in declarations {
        match declaration {
            Decl::Data { name, .. } => names.push(name.name.share()?)?,
            _ => {}
        }
    }
    Ok(())
}

/// The data types of the modules in text order, behind that of the exceptions.
pub(crate) fn data_types(alloc: Global, modules: &[Module]) -> Result<Vec<Name>, AllocError>
    ensures { IfOk result (λ names. names.items ≡ exception_name ∷ in_all data_types_in modules.now) }
{
    let mut names = Vec::new(alloc);
    names.push(Name::from_str(alloc, EXCEPTION)?)?;
    for module in modules {
        add_data_types(module.declarations.as_slice(), &mut names)?;
    }
    Ok(names)
}

fn add_sorts(declarations: &[Decl], names: &mut Vec<Name>) -> Result<(), AllocError>
    ensures { OnOk result (names.new.items ≡ names.old.items ++ flat_map sorts_in declarations.now) }
{
    for declaration in declarations {
        match declaration {
            Decl::Syntax(definition) => names.push(definition.get().sort.share()?)?,
            _ => {}
        }
    }
    Ok(())
}

/// The sorts of the modules, one for each definition, in text order.
pub(crate) fn sorts(alloc: Global, modules: &[Module]) -> Result<Vec<Name>, AllocError>
    ensures { IfOk result (λ names. names.items ≡ in_all sorts_in modules.now) }
{
    let mut names = Vec::new(alloc);
    for module in modules {
        add_sorts(module.declarations.as_slice(), &mut names)?;
    }
    Ok(names)
}

fn add_variants(
    owner: &Name,
    variants: &[Variant],
    constructors: &mut Vec<Constructor>,
) -> Result<(), AllocError>
    ensures { OnOk result (constructors.new.items ≡ constructors.old.items ++ map (variant_of owner.now) variants.now) }
{
    for variant in variants {
        constructors.push(Constructor {
            owner: owner.share()?,
            name: variant.name.name.share()?,
            fields: variant.fields.share()?,
        })?;
    }
    Ok(())
}

fn add_constructors(
    declarations: &[Decl],
    constructors: &mut Vec<Constructor>,
) -> Result<(), AllocError>
    ensures { OnOk result (constructors.new.items ≡ constructors.old.items ++ flat_map constructors_in declarations.now) }
{
    for declaration in declarations {
        match declaration {
            Decl::Data { name, variants, .. } => add_variants(
                &name.name,
                variants.as_slice(),
                constructors,
            )?,
            _ => {}
        }
    }
    Ok(())
}

fn add_all_constructors(
    modules: &[Module],
    constructors: &mut Vec<Constructor>,
) -> Result<(), AllocError>
    ensures { OnOk result (constructors.new.items ≡ constructors.old.items ++ in_all constructors_in modules.now) }
{
    for module in modules {
        add_constructors(module.declarations.as_slice(), constructors)?;
    }
    Ok(())
}

/// The exceptions, and then the constructors of the modules in text order.
pub(crate) fn constructors(
    alloc: Global,
    modules: &[Module],
) -> Result<Vec<Constructor>, AllocError>
    ensures { IfOk result (λ all. map constructor_of all.items ≡ exceptions ++ map constructor_of (in_all constructors_in modules.now)) }
{
    let mut constructors = Vec::new(alloc);
    add_exceptions(alloc, &EXCEPTIONS, &mut constructors)?;
    add_all_constructors(modules, &mut constructors)?;
    Ok(constructors)
}

/// The set of the names.
pub(crate) fn set_of(alloc: Global, names: &[Name]) -> Result<BTreeSet<String>, AllocError>
    ensures { IfOk result (λ set. (name : List ℕ) → contains_text set name ≡ list_any (bytes_eq name) names.now) }
{
    let mut set: BTreeSet<String> = BTreeSet::new(alloc);
    for name in names {
        set.insert(String::from_str(alloc, name.as_str())?)?;
    }
    Ok(set)
}

/// The constructors of each name, in their order.
pub(crate) fn by_name(
    alloc: Global,
    constructors: &[Constructor],
) -> Result<BTreeMap<String, Vec<Constructor>>, AllocError>
    ensures { IfOk result (λ found. (name : List ℕ) → option_map_or (λ all. all.items) (get_by_text found name) [] ≡ filter (λ c. bytes_eq name c.name) constructors.now) }
{
    let mut found: BTreeMap<String, Vec<Constructor>> = BTreeMap::new(alloc);
    for constructor in constructors {
        let name = String::from_str(alloc, constructor.name.as_str())?;
        found.entry(name)?.or_default().push(constructor.share()?)?;
    }
    Ok(found)
}
