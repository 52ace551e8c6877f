ghost use Rattle.std.specs.Prelude.{◌≡◌};
ghost use Rattle.path_walk.specs.Requests.{is_built};

use fs_base::Call;
use tree_model::is_told;

/// Whether servers take this call. The other calls aren't built yet.
pub fn is_built(call: &Call) -> bool
    ensures { result ≡ is_built call.now }
{
    is_told(call)
}
