ghost use Rattle.std.specs.Prelude.{◌≡◌, ◌+◌, ◌*◌, ◌^◌, ◌<◌, ◌≤◌, ◌/◌, length};
ghost use Rattle.name_table.specs.Hash.{word_at, mixed, words_to, bytes_to, hash_of, place_of};

/// 2^64 divided by the golden ratio: its products differ in their upper half.
pub const FACTOR: u64 = 11_400_714_819_323_198_485;

/// The bit of each of eight bytes by which a small letter differs from its capital.
const SMALL: u64 = 0x2020_2020_2020_2020;

/// The place of a hash among so many buckets.
#[inline]
#[tactic(auto, unfolding(crate::specs::Hash::place_of))]
pub fn place_of(hash: u32, count: usize) -> usize
    requires some { 0 < count }
    requires few { count ≤ 2 ^ 32 }
    ensures value { result ≡ place_of hash count }
    ensures inside { result < count }
{
    (u64::from(hash) * count as u64 / 4_294_967_296) as usize
}

/// The hash of a wire format, ASCII case aside.
#[inline]
#[tactic(auto, unfolding(crate::specs::Hash::hash_of, crate::specs::Hash::sum_of))]
pub fn hash_of(bytes: &[u8]) -> u32
    ensures { result ≡ hash_of bytes.now }
{
    if bytes.len() < 8 {
        return (bytes_of(bytes) % 4_294_967_296) as u32;
    }
    let last = word_at(bytes, bytes.len() - 8);
    (mixed(words_of(bytes), last) % 4_294_967_296) as u32
}

#[inline]
#[tactic(auto, unfolding(crate::specs::Hash::words_to))]
fn words_of(bytes: &[u8]) -> u64
    ensures { result ≡ words_to (length bytes.now / 8) bytes.now }
{
    let mut hash = bytes.len() as u64;
    for i in 0..bytes.len() / 8 {
        hash = mixed(hash, word_at(bytes, 8 * i));
    }
    hash
}

#[inline]
#[tactic(auto, unfolding(crate::specs::Hash::bytes_to))]
fn bytes_of(bytes: &[u8]) -> u64
    ensures { result ≡ bytes_to (length bytes.now) bytes.now }
{
    let mut hash = bytes.len() as u64;
    for i in 0..bytes.len() {
        hash = mixed(hash, u64::from(bytes[i] | 32));
    }
    hash
}

#[inline]
#[tactic(auto, unfolding(crate::specs::Hash::mixed, crate::specs::Hash::product_of))]
fn mixed(hash: u64, word: u64) -> u64
    ensures { result ≡ mixed hash word }
{
    let product = hash.wrapping_add(word).wrapping_mul(FACTOR);
    product / 4_294_967_296 + product % 4_294_967_296 * 4_294_967_296
}

#[inline]
fn word_at(bytes: &[u8], at: usize) -> u64
    requires { at + 8 ≤ length bytes.now }
    ensures { result ≡ word_at bytes.now at }
{
    let mut word = [0; 8];
    word.copy_from_slice(&bytes[at..at + 8]);
    u64::from_le_bytes(word) | SMALL
}
