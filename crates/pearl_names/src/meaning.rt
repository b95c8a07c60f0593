// What a name means.

ghost use Rattle.std.specs.Prelude.{◌≡◌};
ghost use Rattle.pearl_names.specs.Found as spec;
ghost use Rattle.pearl_names.specs.Found.{found_through, found_within, found_in_while, found_from};

use crate::names::ScopeTable;
use crate::scope::{NameSort, View};
use arrayvec::ArrayVec;

/// A declared name: the scope that declares it, and its number among the names there.
#[derive(Clone, Copy, PartialEq, Eq, Debug)]
pub struct Found {
    pub scope: u32,
    pub entry: u32,
}

fn find_through(
    steps: usize,
    scopes: &[ScopeTable],
    text: &ArrayVec<u8, 63>,
    number: Option<u32>,
) -> Option<Found>
    ensures { result ≡ found_through steps scopes.now text.now.items number }
{
    let number = number?;
    if steps == 0 {
        return None;
    }
    let scope = scopes.get(number as usize)?;
    match scope.find(text) {
        Some(entry) => Some(Found {
            scope: number,
            entry,
        }),
        None => find_through(steps - 1, scopes, text, scope.outer()),
    }
}

/// The declared name that a name means within the scope of a number, if a visible scope declares it.
pub fn find_within(scopes: &[ScopeTable], number: u32, text: &ArrayVec<u8, 63>) -> Option<Found>
    ensures { result ≡ found_within scopes.now number text.now.items }
{
    find_through(number as usize + 1, scopes, text, Some(number))
}

fn find_in_while(scopes: &[ScopeTable], number: u32, text: &ArrayVec<u8, 63>) -> Option<Found>
    ensures { result ≡ found_in_while scopes.now number text.now.items }
{
    let scope = scopes.get(number as usize)?;
    if scope.is_control(text) {
        Some(Found {
            scope: number,
            entry: 0,
        })
    } else {
        find_through(number as usize, scopes, text, scope.outer())
    }
}

/// The declared name that a name means where it is seen from there, if a visible scope declares it.
pub fn find_from(scopes: &[ScopeTable], view: View, text: &ArrayVec<u8, 63>) -> Option<Found>
    ensures { result ≡ found_from scopes.now view text.now.items }
{
    match view {
        View::Within(number) => find_within(scopes, number, text),
        View::WhileOf(number) => find_in_while(scopes, number, text),
    }
}

/// What sort of thing a name means where it is seen from there, if a visible scope declares it.
pub fn sort_from(scopes: &[ScopeTable], view: View, text: &ArrayVec<u8, 63>) -> Option<NameSort>
    ensures { result ≡ spec.sort_from scopes.now view text.now.items }
{
    let found = find_from(scopes, view, text)?;
    let scope = scopes.get(found.scope as usize)?;
    scope.sort(found.entry)
}

/// What sort of thing a name means within the scope of a number, if a visible scope declares it.
pub fn sort_within(scopes: &[ScopeTable], number: u32, text: &ArrayVec<u8, 63>) -> Option<NameSort>
    ensures { result ≡ spec.sort_within scopes.now number text.now.items }
{
    sort_from(scopes, View::Within(number), text)
}
