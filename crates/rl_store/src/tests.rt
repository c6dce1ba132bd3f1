//! The store beside one that copies its scopes.

use super::*;
use rl_value::{Value, int};
use std::test::Fail;

const VARIABLES: usize = 100_000;

fn number(value: Option<&Value>) -> Option<i128> {
    match value {
        Some(value) => value.as_int(),
        None => None,
    }
}

#[test]
fn marks_over_many_variables_copy_nothing(rt: HostRuntime) -> Result<(), Fail> {
    let mut store = Store::new(rt.alloc());
    for variable in 0..VARIABLES {
        store.declare(variable, int(variable as i128))?;
    }
    for variable in 0..VARIABLES {
        store.mark()?;
        store.write(variable, int(-1))?;
        store.rollback();
    }
    for variable in 0..VARIABLES {
        assert_eq!(rt; number(store.read(variable)), Some(variable as i128));
    }
    Ok(())
}

#[test]
fn a_variable_is_written_where_it_was_declared(rt: HostRuntime) -> Result<(), Fail> {
    let mut store = Store::new(rt.alloc());
    store.write(1, int(10))?;
    store.open_scope()?;
    store.declare(2, int(20))?;
    store.write(1, int(11))?;
    store.write(3, int(30))?;
    store.close_scope();
    assert_eq!(rt; number(store.read(1)), Some(11));
    assert_eq!(rt; number(store.read(2)), None);
    assert_eq!(rt; number(store.read(3)), Some(30));
    Ok(())
}

#[test]
fn a_release_keeps_what_the_older_mark_noted(rt: HostRuntime) -> Result<(), Fail> {
    let mut store = Store::new(rt.alloc());
    store.declare(1, int(1))?;
    store.mark()?;
    store.write(1, int(2))?;
    store.mark()?;
    store.write(1, int(3))?;
    store.declare(2, int(4))?;
    store.release();
    assert_eq!(rt; number(store.read(1)), Some(3));
    store.rollback();
    assert_eq!(rt; number(store.read(1)), Some(1));
    assert_eq!(rt; number(store.read(2)), None);
    Ok(())
}

// A scope with eight variables.
type Copied = [Option<i128>; 8];

// A store that copies its scopes at each mark.
#[derive(Drop)]
struct Copying {
    scopes: Vec<Copied>,
    copies: Vec<Vec<Copied>>,
}

impl Copying {
    fn innermost(&self) -> usize {
        self.scopes.len().saturating_sub(1)
    }

    fn copy(&self) -> Result<Vec<Copied>, Fail> {
        Ok(self.scopes.clone()?)
    }

    fn read(&self, variable: usize) -> Option<i128> {
        for scope in self.scopes.iter().rev() {
            let value = scope[variable % 8];
            if value.is_some() {
                return value;
            }
        }
        None
    }

    fn set(&mut self, place: usize, variable: usize, value: i128) {
        if let Some(scope) = self.scopes.get_mut(place) {
            scope[variable % 8] = Some(value);
        }
    }

    fn place_of(&self, variable: usize) -> usize {
        for (i, scope) in self.scopes.iter().rev().enumerate() {
            if scope[variable % 8].is_some() {
                return self.scopes.len().saturating_sub(i + 1);
            }
        }
        0
    }
}

// Makes one call on both.
fn turn(store: &mut Store, copying: &mut Copying, draw: u64) -> Result<(), Fail> {
    let variable = (draw / 8 % 8) as usize;
    let value = i128::from(draw / 64 % 1000);
    match draw % 8 {
        0 | 1 => {
            store.declare(variable, int(value))?;
            let place = copying.innermost();
            copying.set(place, variable, value);
        }
        2 | 3 => {
            store.write(variable, int(value))?;
            let place = copying.place_of(variable);
            copying.set(place, variable, value);
        }
        4 => {
            store.open_scope()?;
            copying.scopes.push([None; 8])?;
        }
        5 => {
            if store.is_closable() {
                store.close_scope();
                copying.scopes.pop();
            }
        }
        6 => {
            store.mark()?;
            let copy = copying.copy()?;
            copying.copies.push(copy)?;
        }
        _ => {
            if store.has_mark() {
                if draw / 512 % 2 == 0 {
                    store.rollback();
                    if let Some(scopes) = copying.copies.pop() {
                        copying.scopes = scopes;
                    }
                } else {
                    store.release();
                    copying.copies.pop();
                }
            }
        }
    }
    Ok(())
}

#[test]
fn a_journal_does_as_copies_do(rt: HostRuntime) -> Result<(), Fail> {
    let mut store = Store::new(rt.alloc());
    let mut copying = Copying {
        scopes: vec![in rt.alloc(); [None; 8]]?,
        copies: Vec::new(rt.alloc()),
    };
    let mut state = 1u64;
    for _ in 0..30_000 {
        state = state
            .wrapping_mul(6_364_136_223_846_793_005)
            .wrapping_add(1_442_695_040_888_963_407);
        turn(&mut store, &mut copying, state >> 33)?;
        for variable in 0..8 {
            assert_eq!(rt; number(store.read(variable)), copying.read(variable));
        }
    }
    Ok(())
}
