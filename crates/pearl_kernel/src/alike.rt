// Formats and kinds that are alike: GETs by such read the same of the bytes that wait at a terminal.

ghost use Rattle.std.specs.Prelude.{◌≡◌, true};

use pearl_format::item::Item;
use pearl_value::kind::Kind;

fn is_same_item(item: Item, other: Item) -> bool
    ensures { result ≡ true → item ≡ other }
{
    item == other
}

fn is_same_kind(kind: Kind, other: Kind) -> bool
    ensures { result ≡ true → kind ≡ other }
{
    kind == other
}

/// Whether two formats have the same items.
pub fn are_same_items(items: &[Item], others: &[Item]) -> bool
    ensures { result ≡ true → items.now ≡ others.now }
{
    if items.len() != others.len() {
        return false;
    }
    for place in 0..items.len() {
        if !is_same_item(items[place], others[place]) {
            return false;
        }
    }
    true
}

/// Whether two lists have the same kinds.
pub fn are_same_kinds(kinds: &[Kind], others: &[Kind]) -> bool
    ensures { result ≡ true → kinds.now ≡ others.now }
{
    if kinds.len() != others.len() {
        return false;
    }
    for place in 0..kinds.len() {
        if !is_same_kind(kinds[place], others[place]) {
            return false;
        }
    }
    true
}
