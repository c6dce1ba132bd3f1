//! The names of library functions.

use rl_library::Lib;

pub(crate) const FUNCTIONS: [(&str, Lib); 37] = [
    ("println", Lib::Println),
    ("size", Lib::Size),
    ("isEmpty", Lib::IsEmpty),
    ("head", Lib::Head),
    ("last", Lib::Last),
    ("tail", Lib::Tail),
    ("reverse", Lib::Reverse),
    ("dup", Lib::Dup),
    ("take", Lib::Take),
    ("drop", Lib::Drop),
    ("indexOf", Lib::IndexOf),
    ("sort", Lib::Sort),
    ("toSet", Lib::ToSet),
    ("toList", Lib::ToList),
    ("max", Lib::Max),
    ("min", Lib::Min),
    ("sum", Lib::Sum),
    ("intercalate", Lib::Intercalate),
    ("domain", Lib::Domain),
    ("range", Lib::Range),
    ("delete", Lib::Delete),
    ("carrier", Lib::Carrier),
    ("invert", Lib::Invert),
    ("domainR", Lib::DomainR),
    ("domainX", Lib::DomainX),
    ("rangeR", Lib::RangeR),
    ("rangeX", Lib::RangeX),
    ("contains", Lib::Contains),
    ("startsWith", Lib::StartsWith),
    ("endsWith", Lib::EndsWith),
    ("split", Lib::Split),
    ("replaceAll", Lib::ReplaceAll),
    ("trim", Lib::Trim),
    ("substring", Lib::Substring),
    ("toInt", Lib::ToInt),
    ("spans", Lib::Spans),
    ("unparse", Lib::Unparse),
];

pub(crate) fn function_named(functions: &[(&str, Lib)], name: &str) -> Option<Lib> {
    for (known, function) in functions {
        if *known == name {
            return Some(*function);
        }
    }
    None
}
