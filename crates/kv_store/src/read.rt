ghost use Rattle.std.specs.Prelude.{◌≡◌, IfOk};
ghost use Rattle.std.specs.Option.{option_copied};
ghost use Rattle.kv_store.specs.Chains.{value_of, number_of};

use crate::chain::Version;
use conflict_sets::Got;
use fs_base::{Memory, Text};

/// What the last version of a key says of it.
pub fn got(last: Option<&Version>) -> Result<Got, Memory>
    ensures value { IfOk result (λ got. got.value ≡ value_of (option_copied last.entry)) }
    ensures version { IfOk result (λ got. got.version ≡ number_of (option_copied last.entry)) }
{
    match last {
        None => Ok(Got {
            value: None,
            version: 0,
        }),
        Some(last) => {
            let value = copied(last.value.as_ref())?;
            Ok(Got {
                value,
                version: last.version,
            })
        }
    }
}

pub fn copied(value: Option<&Text>) -> Result<Option<Text>, Memory>
    ensures { IfOk result (λ o. o ≡ option_copied value.entry) }
{
    match value {
        None => Ok(None),
        Some(text) => Ok(Some(text.try_clone()?)),
    }
}
