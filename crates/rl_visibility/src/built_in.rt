//! The modules that are built in.

ghost use Rattle.std.specs.Prelude.{◌≡◌};
ghost use Rattle.rl_visibility.specs.BuiltIn.{is_built_in};

/// Whether a module is built in. Such a name leads to the built-in module, also where a module of the program has it.
pub fn is_built_in(name: &str) -> bool
    ensures { result ≡ is_built_in name.now }
{
    matches!(
        name,
        "IO" | "List" | "Set" | "Map" | "Relation" | "String" | "ParseTree" | "Exception"
    )
}
