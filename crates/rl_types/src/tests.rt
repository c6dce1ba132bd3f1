//! Types over small declarations.

use crate::{Decls, has, join, subtype};
use rl_base::{Name, Place, Row, Shared};
use rl_productions::{SyntaxDef, SyntaxRole};
use rl_syntax::{Decl, Field, Identifier, Module, Ty, Variant};
use rl_value::{Value, int, list, node, set, tuple};
use std::alloc::{AllocError, Global};
use std::test::Fail;

fn here() -> Place {
    Place {
        module: 0,
        offset: 0,
        line: 1,
        column: 1,
    }
}

fn identifier(alloc: Global, name: &str) -> Result<Identifier, AllocError> {
    Ok(Identifier {
        place: here(),
        name: Name::from_str(alloc, name)?,
        number: 0,
    })
}

fn int_field(alloc: Global) -> Result<Field, AllocError> {
    Ok(Field {
        ty: Shared::new(alloc, Ty::Int { place: here() })?,
        name: None,
    })
}

fn int_pair(alloc: Global) -> Result<Row<Field>, AllocError> {
    let fields = vec![in alloc; int_field(alloc)?, int_field(alloc)?]?;
    Row::from_vec(alloc, fields)
}

// data NAME = VARIANT(int);
fn data(alloc: Global, name: &str, variant: &str) -> Result<Decl, AllocError> {
    let fields = vec![in alloc; int_field(alloc)?]?;
    let variant = Variant {
        name: identifier(alloc, variant)?,
        fields: Row::from_vec(alloc, fields)?,
    };
    let variants = vec![in alloc; variant]?;
    Ok(Decl::Data {
        place: here(),
        name: identifier(alloc, name)?,
        variants: Row::from_vec(alloc, variants)?,
    })
}

// syntax NAME = ;
fn syntax(alloc: Global, name: &str) -> Result<Decl, AllocError> {
    let definition = SyntaxDef {
        place: here(),
        start: false,
        role: SyntaxRole::Syntax,
        sort: Name::from_str(alloc, name)?,
        levels: Row::from_vec(alloc, Vec::new(alloc))?,
    };
    Ok(Decl::Syntax(Shared::new(alloc, definition)?))
}

// The data types A and B and the sorts E and F.
fn declarations(alloc: Global) -> Result<Decls, AllocError> {
    let declarations = vec![in alloc;
        data(alloc, "A", "a")?,
        data(alloc, "B", "b")?,
        syntax(alloc, "E")?,
        syntax(alloc, "F")?,
    ]?;
    let module = Module {
        place: here(),
        path: Name::from_str(alloc, "Main.rsc")?,
        name: Name::from_str(alloc, "Main")?,
        declarations: Row::from_vec(alloc, declarations)?,
    };
    let modules = vec![in alloc; module]?;
    Decls::new(alloc, &modules)
}

const INT: usize = 0;

const VOID: usize = 1;

const VALUE: usize = 2;

const INTS: usize = 3;

const NO_LIST: usize = 4;

const VALUES: usize = 5;

const PAIRS: usize = 6;

const RELATION: usize = 7;

const SORT: usize = 8;

const OTHER_SORT: usize = 9;

const TREE: usize = 10;

const DATA: usize = 11;

const OTHER_DATA: usize = 12;

fn list_of(alloc: Global, element: Ty) -> Result<Ty, AllocError> {
    Ok(Ty::List {
        place: here(),
        element: Shared::new(alloc, element)?,
    })
}

fn named(alloc: Global, name: &str) -> Result<Ty, AllocError> {
    Ok(Ty::Named {
        place: here(),
        name: Name::from_str(alloc, name)?,
    })
}

fn pairs(alloc: Global) -> Result<Ty, AllocError> {
    let pair = Ty::Tuple {
        place: here(),
        fields: int_pair(alloc)?,
    };
    Ok(Ty::Set {
        place: here(),
        element: Shared::new(alloc, pair)?,
    })
}

// The types by their numbers above.
fn types(alloc: Global) -> Result<Vec<Ty>, AllocError> {
    let types = vec![in alloc;
        Ty::Int { place: here() },
        Ty::Void { place: here() },
        Ty::Value { place: here() },
        list_of(alloc, Ty::Int { place: here() })?,
        list_of(alloc, Ty::Void { place: here() })?,
        list_of(alloc, Ty::Value { place: here() })?,
        pairs(alloc)?,
        Ty::Relation {
            place: here(),
            fields: int_pair(alloc)?
        },
        named(alloc, "E")?,
        named(alloc, "F")?,
        named(alloc, "Tree")?,
        named(alloc, "A")?,
        named(alloc, "B")?,
    ]?;
    Ok(types)
}

// Two types, whether the first is below the second, and the least type above both.
const PAIRS_OF_TYPES: &[(usize, usize, bool, usize)] = &[
    (INT, VALUE, true, VALUE),
    (VALUE, INT, false, VALUE),
    (VOID, INT, true, INT),
    (INT, VOID, false, INT),
    (NO_LIST, INTS, true, INTS),
    (INTS, NO_LIST, false, INTS),
    (INTS, VALUES, true, VALUES),
    (INTS, INT, false, VALUE),
    (PAIRS, RELATION, true, RELATION),
    (RELATION, PAIRS, true, PAIRS),
    (RELATION, INTS, false, VALUE),
    (SORT, TREE, true, TREE),
    (TREE, SORT, false, TREE),
    (SORT, OTHER_SORT, false, TREE),
    (SORT, DATA, false, VALUE),
    (DATA, TREE, false, VALUE),
    (DATA, OTHER_DATA, false, VALUE),
    (DATA, DATA, true, DATA),
];

#[test]
fn types_compare_and_join(rt: HostRuntime) -> Result<(), Fail> {
    let decls = declarations(rt.alloc())?;
    let types = types(rt.alloc())?;
    for (a, b, below, above) in PAIRS_OF_TYPES {
        let a = types.get(*a).ok_or("a type")?;
        let b = types.get(*b).ok_or("a type")?;
        let above = types.get(*above).ok_or("a type")?;
        assert_eq!(rt; subtype(a, b, &decls), *below);
        let joined = join(rt.alloc(), a, b, &decls)?;
        assert!(rt; subtype(&joined, above, &decls));
        assert!(rt; subtype(above, &joined, &decls));
    }
    Ok(())
}

const SEVEN: usize = 0;

const EMPTY: usize = 1;

const ONE_INT: usize = 2;

const PAIR_IN_SET: usize = 3;

const CONSTRUCTOR: usize = 4;

const WITHOUT_FIELDS: usize = 5;

// The values by their numbers above.
fn values(alloc: Global) -> Result<Vec<Value>, Fail> {
    let pair = tuple(alloc, vec![in alloc; int(1), int(2)]?)?;
    let values = vec![in alloc;
        int(7),
        list(alloc, Vec::new(alloc))?,
        list(alloc, vec![in alloc; int(7)]?)?,
        set(alloc, vec![in alloc; pair]?)?,
        node(alloc, "a", vec![in alloc; int(7)]?)?,
        node(alloc, "a", Vec::new(alloc))?,
    ]?;
    Ok(values)
}

// A value, a type, and whether the value has it.
const VALUES_WITH_TYPES: &[(usize, usize, bool)] = &[
    (SEVEN, INT, true),
    (SEVEN, VALUE, true),
    (SEVEN, VOID, false),
    (SEVEN, INTS, false),
    (EMPTY, NO_LIST, true),
    (EMPTY, INTS, true),
    (EMPTY, PAIRS, false),
    (ONE_INT, NO_LIST, false),
    (ONE_INT, INTS, true),
    (ONE_INT, VALUES, true),
    (PAIR_IN_SET, PAIRS, true),
    (PAIR_IN_SET, RELATION, true),
    (CONSTRUCTOR, DATA, true),
    (CONSTRUCTOR, OTHER_DATA, false),
    (CONSTRUCTOR, TREE, false),
    (WITHOUT_FIELDS, DATA, false),
    (WITHOUT_FIELDS, VALUE, true),
];

#[test]
fn values_have_types(rt: HostRuntime) -> Result<(), Fail> {
    let decls = declarations(rt.alloc())?;
    let types = types(rt.alloc())?;
    let values = values(rt.alloc())?;
    for (value, ty, expected) in VALUES_WITH_TYPES {
        let value = values.get(*value).ok_or("a value")?;
        let ty = types.get(*ty).ok_or("a type")?;
        assert_eq!(rt; has(value, ty, &decls), *expected);
    }
    Ok(())
}

#[test]
fn a_long_list_has_its_type(rt: HostRuntime) -> Result<(), Fail> {
    let decls = declarations(rt.alloc())?;
    let ints = list_of(rt.alloc(), Ty::Int { place: here() })?;
    let mut items = Vec::new(rt.alloc());
    for n in 0..1_000_000u32 {
        items.push(int(i128::from(n)))?;
    }
    let long = list(rt.alloc(), items)?;
    assert!(rt; has(&long, &ints, &decls));
    Ok(())
}

// The exceptions with their numbers of fields.
const EXCEPTIONS: &[(&str, usize)] = &[
    ("ArithmeticException", 1),
    ("CallFailed", 1),
    ("StackOverflow", 0),
    ("TooLarge", 0),
    ("VisitType", 0),
    ("WrongKind", 0),
    ("NoReturn", 0),
    ("UninitializedVariable", 1),
    ("IndexOutOfBounds", 1),
    ("NoSuchKey", 1),
    ("NoSuchField", 1),
    ("EmptyList", 0),
    ("EmptySet", 0),
    ("IllegalArgument", 1),
    ("PathNotFound", 1),
    ("IO", 1),
    ("ParseError", 1),
    ("Ambiguity", 2),
];

#[test]
fn the_exceptions_are_there(rt: HostRuntime) -> Result<(), Fail> {
    let decls = Decls::new(rt.alloc(), &[])?.share()?;
    assert_eq!(rt; decls.constructors().len(), EXCEPTIONS.len());
    for (name, count) in EXCEPTIONS {
        let found = decls.constructor(*name, *count).ok_or("a constructor")?;
        assert_eq!(rt; found.owner.as_str(), "RuntimeException");
        assert_eq!(rt; found.name.as_str(), *name);
        assert!(rt; decls.constructor(*name, 3).is_none());
    }
    assert!(rt; decls.is_data("RuntimeException"));
    assert!(rt; !decls.is_data("Exception"));
    assert!(rt; !decls.is_sort("RuntimeException"));
    Ok(())
}
