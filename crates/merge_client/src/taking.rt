// A loader that is moved from one machine of a compactor to the other.
ghost use Rattle.std.specs.Prelude.{◌≡◌};
ghost use Rattle.merge_client.specs.Merging.{unknown};

use load_core::Loader;
use std::mem;

/// The loader, in whose place one is left that knows nothing of the shard.
pub(crate) fn taken(loader: &mut Loader) -> Loader
    ensures taken { result ≡ loader.old }
    ensures left { loader.new ≡ unknown loader.old.shard }
{
    let shard = loader.shard();
    mem::replace(loader, Loader::new(shard))
}
