//! Many calls in a mixed order on tables of either kind. After each, the slots are those of a plain
//! list.
use crate::crowd::CROWD;
use crate::holding::holds_changed;
use std::alloc::{AllocError, Global};
use std::fmt::Write;
use std::mem;
use toml_edit::{AnyTable, InlineTable, Item, Mem, NoMemory, Table, TableLike, Value};

/// Returns the integer that the item is.
fn integer(item: Option<Item>) -> Option<i64> {
    match item {
        Some(item) => {
            let integer = item.as_integer();
            drop(item);
            integer
        }
        None => None,
    }
}

/// Returns the integer that the value is.
fn integer_of(value: Option<Value>) -> Option<i64> {
    match value {
        Some(value) => {
            let integer = value.as_integer();
            drop(value);
            integer
        }
        None => None,
    }
}

/// The calls that a table of either kind has of its own.
trait Mixed: TableLike {
    /// Inserts an integer by the table's own call, and returns the one that was there.
    fn put(&mut self, name: &str, number: i64) -> Mem<Option<i64>>;

    /// Returns the integer that is there, after this one was inserted by the table's own entry if
    /// there was none.
    fn enter(&mut self, name: &str, number: i64) -> Mem<Option<i64>>;

    /// Retains the integers that this divides.
    fn keep(&mut self, divisor: i64);
}

fn old_item(old: Result<Option<Item>, NoMemory<Item>>) -> Mem<Option<i64>> {
    match old {
        Ok(old) => Ok(integer(old)),
        Err(refused) => {
            drop(refused);
            Err(AllocError)
        }
    }
}

fn old_value(old: Result<Option<Value>, NoMemory<Value>>) -> Mem<Option<i64>> {
    match old {
        Ok(old) => Ok(integer_of(old)),
        Err(refused) => {
            drop(refused);
            Err(AllocError)
        }
    }
}

/// Returns `true` if the integer is there and this divides it.
fn divides(divisor: i64, number: Option<i64>) -> bool {
    match number {
        Some(number) => number.checked_rem(divisor) == Some(0),
        None => false,
    }
}

impl Mixed for Table {
    fn put(&mut self, name: &str, number: i64) -> Mem<Option<i64>> {
        old_item(Table::insert(self, name, Item::from(Value::from(number))))
    }

    fn enter(&mut self, name: &str, number: i64) -> Mem<Option<i64>> {
        let entry = Table::entry(self, name)?;
        if let Ok(there) = entry.or_insert(Item::from(Value::from(number))) {
            return Ok(there.as_integer());
        }
        Err(AllocError)
    }

    fn keep(&mut self, divisor: i64) {
        self.retain(|_, item| divides(divisor, item.as_integer()));
    }
}

impl Mixed for InlineTable {
    fn put(&mut self, name: &str, number: i64) -> Mem<Option<i64>> {
        old_value(InlineTable::insert(self, name, Value::from(number)))
    }

    fn enter(&mut self, name: &str, number: i64) -> Mem<Option<i64>> {
        let entry = InlineTable::entry(self, name)?;
        if let Ok(there) = entry.or_insert(Value::from(number)) {
            return Ok(there.as_integer());
        }
        Err(AllocError)
    }

    fn keep(&mut self, divisor: i64) {
        self.retain(|_, value| divides(divisor, value.as_integer()));
    }
}

/// The names and integers that the slots should have.
type Pairs = Vec<(String, i64)>;

fn place_of(pairs: &Pairs, name: &str) -> Option<usize> {
    pairs.iter().position(|pair| pair.0.as_str() == name)
}

/// Returns `true` if the table holds these pairs in this order.
fn is_same<T: TableLike>(table: &T, pairs: &Pairs) -> bool {
    table.slots() == pairs.len()
        && table.len() == pairs.len()
        && table.iter().zip(pairs.iter()).all(|((name, item), pair)| name == pair.0.as_str()
            && item.as_integer() == Some(pair.1))
}

/// Returns `true` if the name is found in both, and at its place, or in neither.
fn finds_in_both<T: TableLike>(table: &T, pairs: &Pairs, name: &str) -> bool {
    let at = place_of(pairs, name);
    let number = at.and_then(|at| pairs.get(at)).map(|pair| pair.1);
    table.get(name).and_then(|item| item.as_integer()) == number
        && table.contains_key(name) == at.is_some()
        && table.key(name).is_some() == at.is_some()
}

fn puts_in_both<T: Mixed>(
    table: &mut T,
    pairs: &mut Pairs,
    name: String,
    number: i64,
) -> Mem<bool> {
    let old = table.put(name.as_str(), number)?;
    match place_of(pairs, name.as_str()) {
        Some(at) => match pairs.get_mut(at) {
            Some(pair) => Ok(old == Some(mem::replace(&mut pair.1, number))),
            None => Ok(false),
        },
        None => {
            pairs.push((name, number))?;
            Ok(old.is_none())
        }
    }
}

fn removes_from_both<T: Mixed>(table: &mut T, pairs: &mut Pairs, name: &str) -> bool {
    let removed = integer(table.remove(name));
    match place_of(pairs, name) {
        Some(at) => at < pairs.len() && removed == Some(pairs.remove(at).1),
        None => removed.is_none(),
    }
}

/// Writes an integer over the one that is lent under the name, if there is one.
fn writes_in_both<T: Mixed>(table: &mut T, pairs: &mut Pairs, name: &str, number: i64) -> bool {
    let at = place_of(pairs, name);
    if let Some(item) = table.get_mut(name) {
        *item = Item::from(Value::from(number));
        return match at.and_then(|at| pairs.get_mut(at)) {
            Some(pair) => {
                pair.1 = number;
                true
            }
            None => false,
        };
    }
    at.is_none()
}

/// Returns the integer that is there, after this one was inserted by the entry of `TableLike` if
/// there was none.
fn entered<T: Mixed>(table: &mut T, name: &str, number: i64) -> Mem<Option<i64>> {
    let mut entry = AnyTable::entry(table, name);
    if let Ok(there) = entry.or_insert(Item::from(Value::from(number))) {
        return Ok(there.as_integer());
    }
    Err(AllocError)
}

/// Returns `true` if `there`, which is what an entry has lent, is the integer of the plain list,
/// after the same insertion there.
fn is_entered(there: Option<i64>, pairs: &mut Pairs, name: String, number: i64) -> Mem<bool> {
    match place_of(pairs, name.as_str()) {
        Some(at) => Ok(pairs.get(at).map(|pair| pair.1) == there),
        None => {
            pairs.push((name, number))?;
            Ok(there == Some(number))
        }
    }
}

/// Sorts both by name, or keeps the integers in both that 2 or 16 divides.
fn orders_both<T: Mixed>(table: &mut T, pairs: &mut Pairs, which: u32) -> Mem<bool> {
    match which % 4 {
        0 | 1 => {
            table.sort_values()?;
            pairs.sort_by(|one, other| one.0.as_str().cmp(other.0.as_str()))?;
        }
        2 => {
            table.keep(2);
            pairs.retain(|pair| pair.1 % 2 == 0);
        }
        _ => {
            table.keep(16);
            pairs.retain(|pair| pair.1 % 16 == 0);
        }
    }
    Ok(true)
}

/// Returns one of 200 names: of 3 bytes, of 16, of 17 or of 24.
fn name_of(alloc: Global, number: u32) -> Mem<String> {
    let mut name = String::new(alloc);
    let start = match number % 4 {
        0 => "",
        1 => "sixteen bytes",
        2 => "seventeen byte",
        _ => "more than that bytes ",
    };
    write!(name, "{start}{}", number.saturating_add(100)).map_err(|_| AllocError)?;
    Ok(name)
}

/// Returns one of 200 names. If they are crowded, half of them collide.
fn mixed_name(alloc: Global, number: u32, is_crowded: bool) -> Mem<String> {
    let at = number / 2;
    match CROWD.get(at as usize) {
        Some(name) if is_crowded && number % 2 == 0 => String::from_str(alloc, name),
        _ => name_of(alloc, number),
    }
}

/// Makes one of the calls on both, as the number says.
fn calls<T: Mixed>(
    table: &mut T,
    pairs: &mut Pairs,
    name: String,
    call: u32,
    at: u32,
) -> Mem<bool> {
    let number = i64::from(at);
    match call {
        0 => orders_both(table, pairs, at),
        1..=15 => Ok(removes_from_both(table, pairs, name.as_str())),
        16..=31 => Ok(writes_in_both(table, pairs, name.as_str(), number)),
        32..=39 => is_entered(entered(table, name.as_str(), number)?, pairs, name, number),
        40..=47 => is_entered(table.enter(name.as_str(), number)?, pairs, name, number),
        _ => puts_in_both(table, pairs, name, number),
    }
}

/// Returns after how many of 5,000 calls, in an order that looks mixed, there were nine slots or
/// more, which are found by an index, or `None` if some call left another list. There are 200 names.
fn mixes<T: Mixed>(
    alloc: Global,
    table: &mut T,
    pairs: &mut Pairs,
    is_crowded: bool,
) -> Mem<Option<u32>> {
    let mut state: u32 = 1;
    let mut indexed: u32 = 0;
    for at in 0..5000u32 {
        state = state.wrapping_mul(1664525).wrapping_add(1013904223);
        let number = (state >> 8) % 200;
        let name = mixed_name(alloc, number, is_crowded)?;
        let is_right = calls(table, pairs, name, (state >> 24) % 64, at)?;
        let name = mixed_name(alloc, number, is_crowded)?;
        if !is_right || !is_same(table, pairs) || !finds_in_both(table, pairs, name.as_str()) {
            return Ok(None);
        }
        if pairs.len() > 8 {
            indexed = indexed.saturating_add(1);
        }
    }
    Ok(Some(indexed))
}

/// Most calls are made with an index, which takes memory.
fn mixes_all<T: Mixed>(alloc: Global, table: &mut T) -> bool {
    let mut pairs = Vec::new(alloc);
    matches!(mixes(alloc, table, &mut pairs, false), Ok(Some(indexed)) if indexed > 4000)
}

/// All calls are made with trees, since 160 names are put in first.
fn mixes_crowd<T: Mixed>(alloc: Global, table: &mut T) -> bool {
    let mut pairs = Vec::new(alloc);
    matches!(fills(alloc, table, &mut pairs), Ok(true))
        && matches!(mixes(alloc, table, &mut pairs, true), Ok(Some(indexed)) if indexed > 4000)
}

fn fills<T: Mixed>(alloc: Global, table: &mut T, pairs: &mut Pairs) -> Mem<bool> {
    for number in 0..160u32 {
        let name = mixed_name(alloc, number, true)?;
        if !puts_in_both(table, pairs, name, i64::from(number))? {
            return Ok(false);
        }
    }
    Ok(true)
}

#[test]
fn mixes_tables(rt: HostRuntime) {
    assert!(rt; holds_changed(rt.alloc(), Table::new(rt.alloc()), mixes_all::<Table>));
}

#[test]
fn mixes_inline_tables(rt: HostRuntime) {
    assert!(rt;
        holds_changed(
            rt.alloc(),
            InlineTable::new(rt.alloc()),
            mixes_all::<InlineTable>
        )
    );
}

#[test]
fn mixes_crowded_tables(rt: HostRuntime) {
    assert!(rt; holds_changed(rt.alloc(), Table::new(rt.alloc()), mixes_crowd::<Table>));
}

#[test]
fn mixes_crowded_inline_tables(rt: HostRuntime) {
    assert!(rt;
        holds_changed(
            rt.alloc(),
            InlineTable::new(rt.alloc()),
            mixes_crowd::<InlineTable>
        )
    );
}
