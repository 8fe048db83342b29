// Records linked by a key, so that a search for one step, fact or level passes over all others. An index grows while it is searched. It
// has INDEX_SIZE entries: the last record of each key, then before each record the last of its key, or UNLINKED.
ghost use Rattle.std.specs.Prelude.{◌≡◌, ◌+◌, ◌<◌, length, get_or, set};
ghost use Rattle.timeline.specs.Indexed.{key_count, capacity, index_size};

// The keys of an index.
pub const KEYS: usize = 512;

// The records that an index holds at most.
const CAPACITY: usize = 512;

// An index: an entry a key, then one a record.
pub const INDEX_SIZE: usize = KEYS + CAPACITY;

// What stands for none.
pub const UNLINKED: u16 = 65535;

// The last record of a key.
pub fn last_of(index: &[u16], key: usize) -> u16
    requires { (length index.now ≡ index_size) × (key < key_count) }
    ensures { result ≡ get_or index.now key 0 }
{
    index[key]
}

// The last record before k of its key.
pub fn before_of(index: &[u16], k: u16) -> u16
    requires { (length index.now ≡ index_size) × (k < capacity) }
    ensures { result ≡ get_or index.now (key_count + k) 0 }
{
    index[KEYS + k as usize]
}

// Record k, which comes after all that are linked, becomes the last of its key.
pub fn link(key: usize, k: u16, index: &mut [u16; INDEX_SIZE])
    requires { (key < key_count) × (k < capacity) }
    ensures { index.new ≡ set (set index.old (key_count + k) (get_or index.old key 0)) key k }
{
    index[KEYS + k as usize] = index[key];
    index[key] = k;
}
