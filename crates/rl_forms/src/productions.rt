//! Parts of syntax definitions among the parts of a phrase.

ghost use Rattle.std.specs.Prelude.{◌≡◌, [], ◌∷◌, IfOk};
ghost use Rattle.rl_forms.specs.Part.{Gives};
ghost use Rattle.rl_forms.specs.Productions.{alternative_in, atom_in, in_grammar, level_in, near_in, plain_alternative, plain_level, plain_production, plain_symbol, production_in, repetition_in, symbol_in};

use crate::form::{Form, GrammarForm};
use crate::part::{FormError, Part};
use rl_base::Row;
use rl_productions::{Alt, Assoc, Atom, Level, Near, Prod, Rep, Sym};
use std::alloc::{AllocError, Global};

fn near(form: &GrammarForm) -> Result<Near, FormError>
    ensures { Gives (near_in form.now) result }
{
    match form {
        GrammarForm::Class(class) => Ok(Near::Class(class.share()?)),
        GrammarForm::Near(near) => Ok(near.share()?),
        _ => Err(FormError::Missing),
    }
}

impl Part for Near {
    ghost use Rattle.rl_forms.specs.Productions.{as_near};

    ghost of_form = { as_near };

    fn from_form(_: Global, form: &Form) -> Result<Near, FormError> {
        match form {
            Form::Grammar(form) => near(form.get()),
            _ => Err(FormError::Missing),
        }
    }
}

fn atom(form: &GrammarForm) -> Result<Atom, FormError>
    ensures { Gives (atom_in form.now) result }
{
    match form {
        GrammarForm::Class(class) => Ok(Atom::Class(class.share()?)),
        GrammarForm::Atom(atom) => Ok(atom.share()?),
        _ => Err(FormError::Missing),
    }
}

impl Part for Atom {
    ghost use Rattle.rl_forms.specs.Productions.{as_atom};

    ghost of_form = { as_atom };

    fn from_form(_: Global, form: &Form) -> Result<Atom, FormError> {
        match form {
            Form::Grammar(form) => atom(form.get()),
            _ => Err(FormError::Missing),
        }
    }
}

fn repetition(form: &Form) -> Result<Rep, FormError>
    ensures { Gives (in_grammar repetition_in form.now) result }
{
    match form {
        Form::Grammar(form) => match form.get() {
            GrammarForm::Repetition(repetition) => Ok(repetition.share()?),
            _ => Err(FormError::Missing),
        },
        _ => Err(FormError::Missing),
    }
}

/// An atom is a repetition of one.
impl Part for Rep {
    ghost use Rattle.rl_forms.specs.Productions.{as_repetition};

    ghost of_form = { as_repetition };

    fn from_form(alloc: Global, form: &Form) -> Result<Rep, FormError> {
        match repetition(form) {
            Err(FormError::Missing) => Ok(Rep::One(Part::from_form(alloc, form)?)),
            found => found,
        }
    }
}

fn symbol(form: &Form) -> Result<Sym, FormError>
    ensures { Gives (in_grammar symbol_in form.now) result }
{
    match form {
        Form::Grammar(form) => match form.get() {
            GrammarForm::Symbol(symbol) => Ok(symbol.share()?),
            _ => Err(FormError::Missing),
        },
        _ => Err(FormError::Missing),
    }
}

fn plain_symbol(alloc: Global, rep: Rep) -> Result<Sym, AllocError>
    ensures { IfOk result (λ it. it ≡ plain_symbol rep) }
{
    Ok(Sym {
        before: None,
        rep,
        after: Row::from_vec(alloc, Vec::new(alloc))?,
    })
}

/// A repetition is a symbol without limits.
impl Part for Sym {
    ghost use Rattle.rl_forms.specs.Productions.{as_symbol};

    ghost of_form = { as_symbol };

    fn from_form(alloc: Global, form: &Form) -> Result<Sym, FormError> {
        match symbol(form) {
            Err(FormError::Missing) => Ok(plain_symbol(alloc, Part::from_form(alloc, form)?)?),
            found => found,
        }
    }
}

fn row_of_one<T: Drop>(alloc: Global, item: T) -> Result<Row<T>, AllocError>
    ensures { IfOk result (λ row. row ≡ item ∷ []) }
{
    let mut row = Vec::new(alloc);
    row.push(item)?;
    Row::from_vec(alloc, row)
}

fn production(form: &Form) -> Result<Prod, FormError>
    ensures { Gives (in_grammar production_in form.now) result }
{
    match form {
        Form::Grammar(form) => match form.get() {
            GrammarForm::Production(production) => Ok(production.share()?),
            _ => Err(FormError::Missing),
        },
        _ => Err(FormError::Missing),
    }
}

fn plain_production(alloc: Global, symbol: Sym) -> Result<Prod, AllocError>
    ensures { IfOk result (λ it. it ≡ plain_production symbol) }
{
    Ok(Prod {
        label: None,
        symbols: row_of_one(alloc, symbol)?,
    })
}

/// A symbol is a production of one symbol.
impl Part for Prod {
    ghost use Rattle.rl_forms.specs.Productions.{as_production};

    ghost of_form = { as_production };

    fn from_form(alloc: Global, form: &Form) -> Result<Prod, FormError> {
        match production(form) {
            Err(FormError::Missing) => Ok(plain_production(alloc, Part::from_form(alloc, form)?)?),
            found => found,
        }
    }
}

fn alternative(form: &Form) -> Result<Alt, FormError>
    ensures { Gives (in_grammar alternative_in form.now) result }
{
    match form {
        Form::Grammar(form) => match form.get() {
            GrammarForm::Alternative(alternative) => Ok(alternative.share()?),
            _ => Err(FormError::Missing),
        },
        _ => Err(FormError::Missing),
    }
}

fn plain_alternative(alloc: Global, production: Prod) -> Result<Alt, AllocError>
    ensures { IfOk result (λ it. it ≡ plain_alternative production) }
{
    Ok(Alt {
        mark: None,
        prods: row_of_one(alloc, production)?,
    })
}

/// A production is an alternative without a mark.
impl Part for Alt {
    ghost use Rattle.rl_forms.specs.Productions.{as_alternative};

    ghost of_form = { as_alternative };

    fn from_form(alloc: Global, form: &Form) -> Result<Alt, FormError> {
        match alternative(form) {
            Err(FormError::Missing) => Ok(plain_alternative(alloc, Part::from_form(alloc, form)?)?),
            found => found,
        }
    }
}

fn level(form: &Form) -> Result<Level, FormError>
    ensures { Gives (in_grammar level_in form.now) result }
{
    match form {
        Form::Grammar(form) => match form.get() {
            GrammarForm::Level(level) => Ok(level.share()?),
            _ => Err(FormError::Missing),
        },
        _ => Err(FormError::Missing),
    }
}

fn plain_level(alloc: Global, alternative: Alt) -> Result<Level, AllocError>
    ensures { IfOk result (λ it. it ≡ plain_level alternative) }
{
    Ok(Level {
        alts: row_of_one(alloc, alternative)?,
    })
}

/// An alternative is a level of one alternative.
impl Part for Level {
    ghost use Rattle.rl_forms.specs.Productions.{as_level};

    ghost of_form = { as_level };

    fn from_form(alloc: Global, form: &Form) -> Result<Level, FormError> {
        match level(form) {
            Err(FormError::Missing) => Ok(plain_level(alloc, Part::from_form(alloc, form)?)?),
            found => found,
        }
    }
}

impl Part for Assoc {
    ghost use Rattle.rl_forms.specs.Productions.{as_mark};

    ghost of_form = { as_mark };

    fn from_form(_: Global, form: &Form) -> Result<Assoc, FormError> {
        match form {
            Form::Grammar(form) => match form.get() {
                GrammarForm::Associativity(mark) => Ok(*mark),
                _ => Err(FormError::Missing),
            },
            _ => Err(FormError::Missing),
        }
    }
}
