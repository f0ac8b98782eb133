// Sorted keys searched: where a key stands among them, and whether a list of numbers has the same members. For the latter each number
// is looked for among the keys of its own class, so that m numbers are held against r keys in few steps each, and no more than about
// m log r + r in all; 4,096 marks and the starts of 1,024 classes are cleared first. Leans on lists alone.
#![tactic(auto)]

ghost use Rattle.std.specs.Prelude.{◌≡◌, true, false, ◌||◌, ℕ, ◌≤◌, ◌<◌, eqb, length, get_or};
ghost use Rattle.meaning.specs.Count.{all, any, each, ascends};
ghost use Rattle.seek.specs.Keys.{same_members as same_members_word, Stands, Parted, key_class, Laid, Marks};

// Keys that ascend.
#[derive(Clone, Copy)]
pub struct Ascending<'a> {
    pub keys: &'a [u64],
    ghost ascend: { ascends (λ k. k) keys.now ≡ true },
}

impl<'a> Ascending<'a> {
    // Where a key stands, or would stand.
    pub fn find(&self, key: u64) -> usize
        ensures { Stands self.now.keys.now key result }
    {
        self.halve(0, self.keys.len(), key)
    }

    // The same, by halves, where the keys before one place are less than the key and none from another on is. The loop is `while`: std's
    // search by halves has code that the crate linked could not name.
    fn halve(&self, from: usize, to: usize, key: u64) -> usize
        requires { (from ≤ to) × (to ≤ length self.now.keys.now) × Parted self.now.keys.now key from to }
        ensures { Stands self.now.keys.now key result }
    {
        let mut low = from;
        let mut high = to;
        while low < high {
            let middle = low + (high - low) / 2;
            if self.keys[middle] < key {
                low = middle + 1;
            } else {
                high = middle;
            }
        }
        low
    }

    // The same, one key after another: quicker where there are few.
    fn step(&self, from: usize, to: usize, key: u64) -> usize
        requires { (from ≤ to) × (to ≤ length self.now.keys.now) × Parted self.now.keys.now key from to }
        ensures { Stands self.now.keys.now key result }
    {
        for at in from..to {
            if key <= self.keys[at] {
                return at;
            }
        }
        to
    }

    // Where each class's keys start, and where the last class's end: `starts` is laid up to the number that comes back, one more than the
    // last key's class. The loop is `while`: two places move, the class's and the key's, one of them at a time.
    fn lay_starts(&self, starts: &mut [u16]) -> usize
        requires { (length self.now.keys.now ≤ 4096) × (length starts.old ≡ 1025) }
        ensures { Laid starts.new self.now.keys.now result }
    {
        let mut c = 0;
        let mut i = 0;
        while i < self.keys.len() {
            if class_of(self.keys[i]) < c {
                i += 1;
            } else {
                starts[c] = i as u16;
                c += 1;
            }
        }
        starts[c] = self.keys.len() as u16;
        c
    }

    // Whether the keys and the needed numbers have the same members: each needed number finds its key by search and marks it, and all keys
    // must be marked.
    pub fn same_members(&self, needed: &[u64]) -> bool
        requires { length self.now.keys.now ≤ 4096 }
        ensures { result ≡ same_members_word self.now.keys.now needed.now }
    {
        let mut starts = [0u16; 1025];
        let classes = self.lay_starts(&mut starts);
        let sorted = ByClass {
            ascending: *self,
            starts: &starts,
            classes,
        };
        let mut marked = [false; 4096];
        sorted.same_members(needed, &mut marked[..self.keys.len()])
    }
}

// Keys that ascend, and where each class's keys start among them.
#[derive(Clone, Copy)]
struct ByClass<'a> {
    ascending: Ascending<'a>,
    starts: &'a [u16],
    classes: usize,
    ghost laid: { Laid starts.now ascending.keys.now classes },
}

impl<'a> ByClass<'a> {
    // Where a number stands, or would stand, looked for among the keys of its class alone.
    fn find(&self, number: u64) -> usize
        ensures { Stands self.now.ascending.keys.now number result }
    {
        let class = class_of(number);
        if self.classes <= class {
            return self.ascending.keys.len();
        }
        let from = self.starts[class] as usize;
        let to = self.starts[class + 1] as usize;
        if to - from <= 8 {
            return self.ascending.step(from, to, number);
        }
        self.ascending.halve(from, to, number)
    }

    // A number's key marked; false if no key is that number.
    fn mark(&self, number: u64, marked: &mut [bool]) -> bool
        requires { length marked.old ≡ length self.now.ascending.keys.now }
        ensures { (result ≡ any (eqb number) self.now.ascending.keys.now)
            × ((i : ℕ) → i < length self.now.ascending.keys.now
            → get_or marked.new i false ≡ get_or marked.old i false || eqb (get_or self.now.ascending.keys.now i 0) number) }
    {
        let keys = self.ascending.keys;
        let at = self.find(number);
        if at == keys.len() {
            return false;
        }
        if keys[at] != number {
            return false;
        }
        marked[at] = true;
        true
    }

    // The same, with marks lent that are not set.
    fn same_members(&self, needed: &[u64], marked: &mut [bool]) -> bool
        requires { (length marked.old ≡ length self.now.ascending.keys.now)
            × ((i : ℕ) → i < length self.now.ascending.keys.now → get_or marked.old i false ≡ false) }
        ensures { result ≡ same_members_word self.now.ascending.keys.now needed.now }
    {
        if !self.mark_all(needed, marked) {
            return false;
        }
        all_marked(marked)
    }

    // Each needed number's key marked, up to the first number that is no key. The marks come as false.
    fn mark_all(&self, needed: &[u64], marked: &mut [bool]) -> bool
        requires { (length marked.old ≡ length self.now.ascending.keys.now)
            × ((i : ℕ) → i < length self.now.ascending.keys.now → get_or marked.old i false ≡ false) }
        ensures { (result ≡ each (λ a. any (eqb a) self.now.ascending.keys.now) needed.now)
            × (result ≡ true → Marks marked.new self.now.ascending.keys.now needed.now) }
    {
        for number in needed {
            if !self.mark(*number, marked) {
                return false;
            }
        }
        true
    }
}

// The class of a key, where a key is class, direction with label, and group side by side.
fn class_of(key: u64) -> usize
    ensures { result ≡ key_class key }
{
    let class = key / 4294967296;
    if class < 1023 { class as usize } else { 1023 }
}

// The marks are all set.
pub fn all_marked(marked: &[bool]) -> bool
    ensures { result ≡ all (λ i. get_or marked.now i false) (length marked.now) }
{
    for set in marked {
        if !*set {
            return false;
        }
    }
    true
}
