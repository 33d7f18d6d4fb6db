// The words of a lent table, by its regions (specs/Memory/Words.antt). Each word that is read or stored alone goes through the first two;
// a run of words is handed out and cleared by the others, and stored by `copy_words` (context.rt).
ghost use Rattle.std.specs.Prelude.{◌≡◌, ◌+◌, ◌-◌, ◌≤◌, ◌<◌, length, take, drop, replicate};
ghost use Rattle.shinri_core.specs.Memory.Words.{at, put, put_all};

// Word i of the region that begins at base.
pub fn get_at(t: &[u32], base: usize, i: usize) -> usize
    requires { base + i < length t.now }
    ensures { (result ≡ at t.now base i) × (result < 4294967296) }
{
    t[base + i] as usize
}

pub fn put_at(t: &mut [u32], base: usize, i: usize, v: usize)
    requires { (base + i < length t.old) × (v < 4294967296) }
    ensures { t.new ≡ put t.old base i v }
{
    t[base + i] = v as u32;
}

// The words of the region from one of them up to another.
pub fn words_at(t: &[u32], base: usize, from: usize, to: usize) -> &[u32]
    requires { (from ≤ to) × (base + to ≤ length t.now) }
    ensures { result.now ≡ take (to - from) (drop (base + from) t.now) }
{
    &t[base + from..base + to]
}

// The first n words of the region are set to 0.
pub fn clear_at(t: &mut [u32], base: usize, n: usize)
    requires { base + n ≤ length t.old }
    ensures { t.new ≡ put_all t.old base 0 (replicate n 0) }
{
    t[base..base + n].fill(0);
}
