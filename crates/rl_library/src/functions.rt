//! The library functions and how many arguments each takes.

ghost use Rattle.std.specs.Prelude.{◌≡◌};
ghost use Rattle.rl_library.specs.Library.{arity_of};

/// The library functions, one for each name.
#[derive(Clone, Copy, Debug, PartialEq, Eq)]
pub enum Lib {
    Println,
    Print,
    ReadFile,
    Size,
    IsEmpty,
    Head,
    Last,
    Tail,
    Reverse,
    Dup,
    Take,
    Drop,
    IndexOf,
    Sort,
    ToSet,
    ToList,
    Max,
    Min,
    Sum,
    Intercalate,
    Domain,
    Range,
    Delete,
    Carrier,
    Invert,
    DomainR,
    DomainX,
    RangeR,
    RangeX,
    Contains,
    StartsWith,
    EndsWith,
    Split,
    ReplaceAll,
    Trim,
    Substring,
    ToInt,
    Parse,
    Spans,
    Unparse,
    Implode,
}

impl Lib {
    /// How many arguments it takes; none for `implode` and for what prints, reads or parses.
    pub fn arity(self) -> Option<usize>
        ensures { result ≡ arity_of self }
    {
        match self {
            Lib::Size
            | Lib::IsEmpty
            | Lib::Head
            | Lib::Last
            | Lib::Tail
            | Lib::Reverse
            | Lib::Dup
            | Lib::Sort
            | Lib::ToSet
            | Lib::ToList
            | Lib::Max
            | Lib::Min
            | Lib::Sum
            | Lib::Domain
            | Lib::Range
            | Lib::Carrier
            | Lib::Invert
            | Lib::Trim
            | Lib::ToInt
            | Lib::Unparse => Some(1),
            Lib::Take
            | Lib::Drop
            | Lib::IndexOf
            | Lib::Intercalate
            | Lib::Delete
            | Lib::DomainR
            | Lib::DomainX
            | Lib::RangeR
            | Lib::RangeX
            | Lib::Contains
            | Lib::StartsWith
            | Lib::EndsWith
            | Lib::Split
            | Lib::Spans => Some(2),
            Lib::ReplaceAll | Lib::Substring => Some(3),
            Lib::Println | Lib::Print | Lib::ReadFile | Lib::Parse | Lib::Implode => None,
        }
    }
}
