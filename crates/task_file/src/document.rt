//! Look-ups in a table of a document: each finds what the definition finds in this part of the tree.
//! This project's own.
ghost use Rattle.std.specs.Prelude.{◌≡◌, ◌≤◌, length, map, is_some, option_map, string_bytes, IfSome};
ghost use Rattle.std.specs.List.{list_all, list_any};
ghost use Rattle.std.specs.Map.{keys_of};
ghost use Rattle.std.specs.Str.{bytes_eq};
ghost use Rattle.toml.specs.Data.{get_member};
ghost use Rattle.toml.specs.View.{view, items_view, table_view};
ghost use Rattle.task_file.specs.Document as spec;

use toml::{Table, Value};

fn value_at<'a>(table: &'a Table, key: &str) -> Option<&'a Value>
    ensures { option_map (λ v. view v.now) result ≡ get_member key.now (table_view table.now) }
{
    table.get(key)
}

/// Whether a value is at a key.
pub fn has(table: &Table, key: &str) -> bool
    ensures { result ≡ is_some (get_member key.now (table_view table.now)) }
{
    value_at(table, key).is_some()
}

/// The integer at a key.
pub fn any_integer_at(table: &Table, key: &str) -> Option<i64>
    ensures { result ≡ spec.any_integer_at key.now (table_view table.now) }
{
    let value = value_at(table, key)?;
    value.as_integer()
}

/// The integer at a key, from the least to the greatest.
#[tactic(auto, unfolding(crate::specs::Document::integer_at))]
pub fn integer_at(table: &Table, key: &str, least: i64, greatest: i64) -> Option<i64>
    ensures { result ≡ spec.integer_at least greatest key.now (table_view table.now) }
{
    let integer = any_integer_at(table, key)?;
    if least <= integer && integer <= greatest {
        Some(integer)
    } else {
        None
    }
}

/// The text at a key.
pub fn text_at<'a>(table: &'a Table, key: &str) -> Option<&'a str>
    ensures { option_map (λ text. text.now) result ≡ spec.text_at key.now (table_view table.now) }
{
    let value = value_at(table, key)?;
    value.as_str()
}

/// The text at a key, of at most `most` bytes.
pub fn short_text_at<'a>(table: &'a Table, key: &str, most: usize) -> Option<&'a str>
    ensures { option_map (λ text. text.now) result ≡ spec.short_text_at most key.now
        (table_view table.now) }
{
    let text = text_at(table, key)?;
    if text.len() <= most { Some(text) } else { None }
}

/// The list at a key, with from the least to the greatest number of items.
pub fn list_at<'a>(
    table: &'a Table,
    key: &str,
    least: usize,
    greatest: usize,
) -> Option<&'a [Value]>
    ensures list { option_map (λ items. map view items.now) result
        ≡ spec.list_at least greatest key.now (table_view table.now) }
    ensures few { IfSome result (λ items. length items.now ≤ greatest) }
{
    let value = value_at(table, key)?;
    let array = value.as_array()?;
    few_items(array.as_slice(), least, greatest)
}

#[tactic(auto, using(crate::proofs::DocumentLemmas::items_viewed, crate::proofs::DocumentLemmas::count_viewed))]
fn few_items(items: &[Value], least: usize, greatest: usize) -> Option<&[Value]>
    ensures list { option_map (λ list. map view list.now) result ≡ spec.where_has least greatest
        (spec.items_of (items_view items.now)) }
    ensures few { IfSome result (λ list. length list.now ≤ greatest) }
{
    if least <= items.len() && items.len() <= greatest {
        Some(items)
    } else {
        None
    }
}

/// The table at a key.
pub fn table_at<'a>(table: &'a Table, key: &str) -> Option<&'a Table>
    ensures { option_map (λ inner. table_view inner.now) result ≡ spec.table_at key.now
        (table_view table.now) }
{
    let value = value_at(table, key)?;
    value.as_table()
}

/// Whether each key of a table is one of these.
pub fn has_only(table: &Table, keys: &[&str]) -> bool
    ensures { result ≡ spec.has_only (map (λ key. key.now) keys.now) (table_view table.now) }
{
    each_key(table, keys)
}

fn each_key(table: &Table, keys: &[&str]) -> bool
    ensures { result ≡ list_all (λ key. list_any (λ k. bytes_eq k.now (string_bytes key)) keys.now)
        (keys_of table.now.entries) }
{
    table.keys().all(|key| is_among(keys, key.as_str()))
}

fn is_among(keys: &[&str], key: &str) -> bool
    ensures { result ≡ list_any (λ k. bytes_eq k.now key.now) keys.now }
{
    keys.iter().any(|k| *k == key)
}
