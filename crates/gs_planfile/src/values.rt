ghost use Rattle.std.specs.Prelude.{◌≡◌, ◌<◌, ◌^◌, IfOk, IfSome, option_map};
ghost use Rattle.toml.specs.View.{table_view, view};
ghost use Rattle.gs_planfile.specs.Values.{kappa_at, kappa_of, number_at, number_of, number_or};
ghost use Rattle.gs_planfile.specs.Values.{value_at, version_at, version_of};

use crate::key::{Key, PlanFileFault};
use crate::text::Version;
use toml::{Table, Value};

/// The number that a value is.
pub(crate) fn number_of(key: Key, value: &Value) -> Result<u32, PlanFileFault>
    ensures { result ≡ number_of key (view value.now) }
{
    match value {
        Value::Integer(n) => u32::try_from(*n).map_err(|_| PlanFileFault::Range(key)),
        _ => Err(PlanFileFault::Kind(key)),
    }
}

/// The kappa that a value is.
pub(crate) fn kappa_of(key: Key, value: &Value) -> Result<u64, PlanFileFault>
    ensures value { result ≡ kappa_of key (view value.now) }
    ensures fits { IfOk result (λ kappa. kappa < 2 ^ 62) }
{
    match value {
        Value::Integer(n) => match u64::try_from(*n) {
            Ok(n) if n < 1 << 62 => Ok(n),
            _ => Err(PlanFileFault::Range(key)),
        },
        _ => Err(PlanFileFault::Kind(key)),
    }
}

/// The version that a value is.
fn version_of(value: &Value) -> Result<Version, PlanFileFault>
    ensures { result ≡ version_of (view value.now) }
{
    match value {
        Value::Integer(n) => {
            if *n == 1 {
                Ok(Version::One)
            } else if *n == 2 {
                Ok(Version::Two)
            } else {
                Err(PlanFileFault::Range(Key::Version))
            }
        }
        _ => Err(PlanFileFault::Kind(Key::Version)),
    }
}

/// The value at a key, where the key stands.
pub(crate) fn value_at<'a>(table: &'a Table, key: Key) -> Option<&'a Value>
    ensures { option_map (λ v. view v.now) result ≡ value_at key (table_view table.now) }
{
    table.get(key.name())
}

/// The number at a key that is needed.
pub(crate) fn number_at(table: &Table, key: Key) -> Result<u32, PlanFileFault>
    ensures { result ≡ number_at key (table_view table.now) }
{
    match value_at(table, key) {
        Some(value) => number_of(key, value),
        None => Err(PlanFileFault::Missing(key)),
    }
}

/// The number at a key that may be left out.
pub(crate) fn number_or(table: &Table, key: Key, otherwise: u32) -> Result<u32, PlanFileFault>
    ensures { result ≡ number_or otherwise key (table_view table.now) }
{
    match value_at(table, key) {
        Some(value) => number_of(key, value),
        None => Ok(otherwise),
    }
}

/// The version, which is needed.
pub(crate) fn version_at(table: &Table) -> Result<Version, PlanFileFault>
    ensures { result ≡ version_at (table_view table.now) }
{
    match value_at(table, Key::Version) {
        Some(value) => version_of(value),
        None => Err(PlanFileFault::Missing(Key::Version)),
    }
}

/// The kappa, which may be left out.
pub(crate) fn kappa_at(table: &Table) -> Result<Option<u64>, PlanFileFault>
    ensures value { result ≡ kappa_at (table_view table.now) }
    ensures fits { IfOk result (λ o. IfSome o (λ kappa. kappa < 2 ^ 62)) }
{
    match value_at(table, Key::Kappa) {
        Some(value) => Ok(Some(kappa_of(Key::Kappa, value)?)),
        None => Ok(None),
    }
}
