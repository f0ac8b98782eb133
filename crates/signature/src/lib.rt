// Items numbered "in order of their lowest item" by their group and rows together, the signature, in about linear time. Each item's hash and
// number go into one word, and the words are sorted; signatures of one hash are compared in full, so that no number rests on the hash.
// Leans on marked for numbers from lowest items, on radix.
#![tactic(auto)]

ghost use Rattle.std.specs.Prelude.{◌≡◌, ℕ, ◌+◌, ◌-◌, ◌*◌, ◌<◌, ◌≤◌, length, get_or};
ghost use Rattle.meaning.specs.Count.{tab, seek};
ghost use Rattle.meaning.specs.Level.{first, number, class_count};
ghost use Rattle.marked.specs.Lowest.{pack, Listed, item};
ghost use Rattle.signature.specs.Signature.{size, word, alike_sig, mix, hash_sig, Laid};

use radix::Room;

// One word more in a hash.
fn stir(h: u64, w: u64) -> u64
    requires { h < 8388593 }
    ensures { (result ≡ mix h w) × (result < 8388593) }
{
    (h * 1000003 + w % 1099511627776) % 8388593
}

// The signatures of items: the group of each, and its rows, which stand in rows from its start to that of the next.
#[derive(Clone, Copy)]
pub struct Signatures<'a> {
    pub groups: &'a [u16],
    pub starts: &'a [u16],
    pub rows: &'a [u64],
    pub ghost laid: { Laid groups.now starts.now rows.now (length groups.now) },
}

impl<'a> Signatures<'a> {
    fn rows_of(&self, x: usize) -> &'a [u64]
        requires { x < length self.now.groups.now }
        ensures { (length result.now ≡ size self.now.starts.now x)
            × ((j : ℕ) → j < size self.now.starts.now x → get_or result.now j 0 ≡ word self.now.starts.now self.now.rows.now x j) }
    {
        &self.rows[self.starts[x] as usize..self.starts[x + 1] as usize]
    }

    // The hash of x's signature.
    fn hash_of(&self, x: usize) -> u64
        requires { x < length self.now.groups.now }
        ensures { (result ≡ hash_sig self.now.groups.now self.now.starts.now self.now.rows.now x) × (result < 8388593) }
    {
        let mut h = stir(0, self.groups[x] as u64);
        let rows = self.rows_of(x);
        for w in rows {
            h = stir(h, *w);
        }
        h
    }

    // x and y have the same signature.
    fn same(&self, x: usize, y: usize) -> bool
        requires { (x < length self.now.groups.now) × (y < length self.now.groups.now) }
        ensures { result ≡ alike_sig self.now.groups.now self.now.starts.now self.now.rows.now x y }
    {
        if self.groups[x] != self.groups[y] {
            return false;
        }
        let of_x = self.rows_of(x);
        let of_y = self.rows_of(y);
        if of_x.len() != of_y.len() {
            return false;
        }
        for (j, w) in of_x.iter().enumerate() {
            if *w != of_y[j] {
                return false;
            }
        }
        true
    }

    // Each item with its hash, in one word.
    fn put_hashes(&self, out: &mut [u64])
        requires { length out.old ≡ length self.now.groups.now }
        ensures { out.new ≡ tab (pack (hash_sig self.now.groups.now self.now.starts.now self.now.rows.now)) (length self.now.groups.now) }
    {
        for x in 0..self.groups.len() {
            out[x] = self.hash_of(x) * 1024 + x as u64;
        }
    }

    // The first item from place r on that is alike the item at place p, which is itself the last that is tried.
    fn leader(&self, s: &[u64], r: usize, p: usize) -> usize
        requires as_many { length s.now ≡ length self.now.groups.now }
        requires items { (q : ℕ) → q < length self.now.groups.now → item s.now q < length self.now.groups.now }
        requires places { (r ≤ p) × (p < length self.now.groups.now) }
        ensures { (result ≡ item s.now (seek (λ q.
            alike_sig self.now.groups.now self.now.starts.now self.now.rows.now (item s.now q) (item s.now p)) r (p - r)))
            × (result < length self.now.groups.now) }
    {
        let x = (s[p] % 1024) as usize;
        for q in r..p {
            let y = (s[q] % 1024) as usize;
            if self.same(y, x) {
                return y;
            }
        }
        x
    }

    // The lowest item alike each item: r is where the run of p's hash starts.
    fn find_firsts(&self, s: &[u64], firsts: &mut [u16])
        requires listed { Listed (hash_sig self.now.groups.now self.now.starts.now self.now.rows.now) (length self.now.groups.now) s.now }
        requires as_many { (length s.now ≡ length self.now.groups.now) × (length firsts.old ≡ length self.now.groups.now) }
        ensures { (x : ℕ) → x < length self.now.groups.now → get_or firsts.new x 0
            ≡ first (alike_sig self.now.groups.now self.now.starts.now self.now.rows.now) x }
    {
        let mut r = 0;
        for p in 0..s.len() {
            if s[p] / 1024 != s[r] / 1024 {
                r = p;
            }
            let y = self.leader(s, r, p);
            let x = (s[p] % 1024) as usize;
            firsts[x] = y as u16;
        }
    }

    // Each item's number: items of one signature have one number, numbered in order of their lowest item.
    pub fn number(&self, out: &mut [u16], room: Room) -> usize
        requires { (length out.old ≡ length self.now.groups.now)
            × (length self.now.groups.now ≤ length room.keys.now) × (length self.now.groups.now ≤ length room.other.now) }
        ensures { (result ≡ class_count (tab (number (alike_sig self.now.groups.now self.now.starts.now self.now.rows.now)) (length self.now.groups.now)))
            × (out.new ≡ tab (number (alike_sig self.now.groups.now self.now.starts.now self.now.rows.now)) (length self.now.groups.now)) }
    {
        let n = self.groups.len();
        let Room { keys, other } = room;
        let words = &mut keys[..n];
        self.put_hashes(words);
        radix::sort(words, other);
        let mut firsts = [0u16; 1024];
        let firsts = &mut firsts[..n];
        self.find_firsts(words, firsts);
        marked::number_firsts(firsts, out)
    }
}
