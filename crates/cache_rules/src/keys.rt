ghost use Rattle.std.specs.Prelude.{◌≡◌, ◌<◌, IfOk};
ghost use Rattle.outside.specs.Keys.{shard_of};
ghost use Rattle.cache_rules.specs.Keys.{key_of};

use dns_data::{NoMemory, Query};
use outside::Key;
use std::alloc::Global;

/// The key under which a query's answer is kept: the name in small letters, the type, and the
/// client's DO and CD bits.
pub fn key_of(alloc: Global, query: &Query) -> Result<Key, NoMemory>
    ensures { IfOk result (λ key. key ≡ key_of query.now) }
{
    Ok(Key {
        name: query.name.lower(alloc)?,
        kind: query.kind,
        dnssec: query.dnssec,
        cd: query.cd,
    })
}

/// The shard in which a key stands, of eight.
pub fn shard_of(key: &Key) -> usize
    ensures place { result ≡ shard_of key.now }
    ensures low { result < 8 }
{
    key.shard()
}
