ghost use Rattle.std.specs.Prelude.{◌≡◌, ◌≤◌, ◌⊎◌, Ok, Err, IfErr, IfOk, length, option_map};
ghost use Rattle.std.specs.Option.{ForSome};
ghost use Rattle.tab_core.specs.declared.TheConstants.{MAX_VCPUS};
ghost use Rattle.toml.specs.Data.{as_integer, no_items};
ghost use Rattle.toml.specs.View.{items_view, table_view, view};
ghost use Rattle.host_doc.specs.Array.{items_at};
ghost use Rattle.host_doc.specs.OtherKeys.{has_other_key, is_among};
ghost use Rattle.host_doc.specs.Text.{text_at, well_formed};
ghost use Rattle.host_doc.specs.Value.{found_at, in_range, integer_at, truth_at};

use crate::fault::{HostFault, Key, Path};
use std::alloc::Global;
use tab_core::{MAX_VCPUS, Name, NameFault};
use toml::{Table, Value};

// What is at the key of a table.
pub(crate) fn value_at(table: &Table, path: Path) -> Option<&Value>
    ensures { option_map (λ value. view value.now) result ≡ found_at path (table_view table.now) }
{
    table.get(path.key.word())
}

// A whole number from `least` to `most`.
pub(crate) fn integer_in(value: &Value, path: Path, least: u64, most: u64) -> Result<u64, HostFault>
    ensures same { result ≡ in_range path least most (as_integer (view value.now)) }
    ensures within { IfOk result (λ number. (least ≤ number) × (number ≤ most)) }
{
    let Some(number) = value.as_integer() else {
        return Err(HostFault::BadKey { path });
    };
    match u64::try_from(number) {
        Ok(number) => {
            if least <= number && number <= most {
                Ok(number)
            } else {
                Err(HostFault::OutOfRange { path })
            }
        }
        Err(_) => Err(HostFault::OutOfRange { path }),
    }
}

// A whole number from `least` to `most` at a key, which is required where it has no default.
pub(crate) fn integer_at(
    table: &Table,
    path: Path,
    least: u32,
    most: u32,
    default: Option<u32>,
) -> Result<u32, HostFault>
    requires { ForSome default (λ number. (least ≤ number) × (number ≤ most)) }
    ensures same { result ≡ integer_at path least most default (table_view table.now) }
    ensures within { IfOk result (λ number. (least ≤ number) × (number ≤ most)) }
{
    match value_at(table, path) {
        Some(value) => {
            let number = integer_in(value, path, u64::from(least), u64::from(most))?;
            Ok(number as u32)
        }
        None => default.ok_or(HostFault::BadKey { path }),
    }
}

// A truth value at a key.
pub(crate) fn truth_at(table: &Table, path: Path, default: bool) -> Result<bool, HostFault>
    ensures { result ≡ truth_at path default (table_view table.now) }
{
    match value_at(table, path) {
        Some(value) => value.as_bool().ok_or(HostFault::BadKey { path }),
        None => Ok(default),
    }
}

// A text at a key, which is required.
pub(crate) fn text_at(table: &Table, path: Path) -> Result<&str, HostFault>
    ensures ok { IfOk result (λ text. text_at path (table_view table.now) ≡ Ok text.now) }
    ensures fault { IfErr result (λ fault. text_at path (table_view table.now) ≡ Err fault) }
{
    let Some(value) = value_at(table, path) else {
        return Err(HostFault::BadKey { path });
    };
    match value.as_str() {
        Some(text) => Ok(text),
        None => Err(HostFault::BadKey { path }),
    }
}

// The name that a text is.
pub(crate) fn name_from(alloc: Global, text: &str, path: Path) -> Result<Name, HostFault>
    ensures ok { IfOk result (λ name. well_formed path (Ok text.now) ≡ Ok name) }
    ensures same { IfOk result (λ name. name ≡ text.now) }
    ensures fault { IfErr result (λ fault. (fault ≡ HostFault.NoMemory)
        ⊎ (well_formed path (Ok text.now) ≡ Err fault)) }
{
    match Name::of(alloc, text.as_bytes()) {
        Ok(name) => Ok(name),
        Err(NameFault::BadName) => Err(HostFault::OutOfRange { path }),
        Err(NameFault::NoMemory) => Err(HostFault::NoMemory),
    }
}

// The values of an array at a key, none where it is absent.
#[tactic(auto, using(crate::proofs::VcpusLemmas::count_of_values))]
pub(crate) fn values_at(table: &Table, path: Path) -> Result<&[Value], HostFault>
    ensures ok { IfOk result (λ values.
        items_at path no_items (table_view table.now) ≡ Ok (items_view values.now)) }
    ensures few { IfOk result (λ values. length values.now ≤ MAX_VCPUS) }
    ensures fault { IfErr result (λ fault. (fault ≡ HostFault.NoMemory)
        ⊎ (items_at path no_items (table_view table.now) ≡ Err fault)) }
{
    let Some(value) = value_at(table, path) else {
        return Ok(&[]);
    };
    let Some(values) = value.as_array() else {
        return Err(HostFault::BadKey { path });
    };
    let Ok(count) = u32::try_from(values.len()) else {
        return Err(HostFault::NoMemory);
    };
    if count <= MAX_VCPUS {
        Ok(values)
    } else {
        Err(HostFault::TooMany { count })
    }
}

// Whether a key of the table isn't one of these.
pub(crate) fn has_other_key(table: &Table, keys: &[Key]) -> bool
    ensures { result ≡ has_other_key keys.now (table_view table.now) }
{
    for word in table.keys() {
        if !is_among(keys, word.as_str()) {
            return true;
        }
    }
    false
}

fn is_among(keys: &[Key], word: &str) -> bool
    ensures { result ≡ is_among keys.now word.now }
{
    keys.iter().any(|key| word == key.word())
}
