//! Whole numbers at keys that may be missing.

ghost use Rattle.std.specs.Prelude.{◌≡◌, ◌≤◌, ◌<◌, ◌^◌, IfOk};
ghost use Rattle.serde_json.specs.View.{view};
ghost use Rattle.serde_json.specs.Find.{get};
ghost use Rattle.scenario.specs.Numbers.{count_or, number_at, number_or, whole_number, whole_number_at};
ghost use Rattle.client_core.specs.Plans.{IsGivenBelow};

use crate::broken::{Broken, need, not_built};
use serde_json::Value;

/// A whole number of 64 bits.
pub fn whole_number(value: &Value) -> Option<u64>
    ensures { result ≡ whole_number (view value.now) }
{
    value.as_u64()
}

/// The whole number at a key.
pub fn whole_number_at(value: &Value, name: &str) -> Option<u64>
    ensures { result ≡ whole_number_at name.now (view value.now) }
{
    value.get(name).and_then(whole_number)
}

/// The number below the limit at a key; `None` where the key is missing.
pub fn number_at(value: &Value, name: &str, limit: u64) -> Result<Option<u64>, Broken>
    ensures gives { result ≡ number_at name.now limit (view value.now) }
    ensures below { IfOk result (λ n. IsGivenBelow limit n) }
{
    let Some(member) = value.get(name) else {
        return Ok(None);
    };
    match whole_number(member) {
        Some(number) => {
            need(number < limit, not_built())?;
            Ok(Some(number))
        }
        None => Err(not_built()),
    }
}

/// The same, and the default where the key is missing.
pub fn number_or(value: &Value, name: &str, limit: u64, default: u64) -> Result<u64, Broken>
    requires { default < limit }
    ensures gives { result ≡ number_or name.now limit default (view value.now) }
    ensures below { IfOk result (λ n. n < limit) }
{
    match number_at(value, name, limit)? {
        Some(number) => Ok(number),
        None => Ok(default),
    }
}

/// The same as `number_at`, in 32 bits.
pub fn number_32_at(value: &Value, name: &str, limit: u64) -> Result<Option<u32>, Broken>
    requires { limit ≤ 2 ^ 32 }
    ensures gives { result ≡ number_at name.now limit (view value.now) }
    ensures below { IfOk result (λ n. IsGivenBelow limit n) }
{
    match number_at(value, name, limit)? {
        Some(number) => Ok(Some(number as u32)),
        None => Ok(None),
    }
}

/// The same as `number_at`, in 16 bits.
pub fn number_16_at(value: &Value, name: &str, limit: u64) -> Result<Option<u16>, Broken>
    requires { limit ≤ 2 ^ 16 }
    ensures gives { result ≡ number_at name.now limit (view value.now) }
    ensures below { IfOk result (λ n. IsGivenBelow limit n) }
{
    match number_at(value, name, limit)? {
        Some(number) => Ok(Some(number as u16)),
        None => Ok(None),
    }
}

/// The number from 1 to the greatest at a key, and the default where the key is missing.
pub fn count_or(value: &Value, name: &str, greatest: u64, default: u64) -> Result<u64, Broken>
    requires from { 1 ≤ default }
    requires to { default ≤ greatest }
    ensures gives { result ≡ count_or name.now greatest default (view value.now) }
    ensures from { IfOk result (λ n. 1 ≤ n) }
    ensures to { IfOk result (λ n. n ≤ greatest) }
{
    let Some(member) = value.get(name) else {
        return Ok(default);
    };
    match whole_number(member) {
        Some(number) => {
            need(1 <= number && number <= greatest, not_built())?;
            Ok(number)
        }
        None => Err(not_built()),
    }
}
