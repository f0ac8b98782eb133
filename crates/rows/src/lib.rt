// The capped rows of items, from the sorted keys of links, in one walk. A key is an item times 32,768 and the rest: direction times 16
// plus label, times 1,024, and a group. A row is one word: that rest times 16, and the capped count. Leans on capped.
#![tactic(auto)]

ghost use Rattle.std.specs.Prelude.{◌≡◌, ◌++◌, ℕ, ◌+◌, ◌-◌, ◌*◌, ◌<◌, ◌≤◌, length, drop, get_or};
ghost use Rattle.meaning.specs.Count.{tab, join};
ghost use Rattle.meaning.specs.Cap.{cap};
ghost use Rattle.rows.specs.Rows.{Alone, rows_of, start_of};

use capped::Capped;

// So many keys an item may have.
const KEYS: u64 = 32768;

// The key at place p, or stop past the end.
fn key_or(s: &[u64], p: usize, stop: u64) -> u64
    ensures { (p < length s.now → result ≡ get_or s.now p 0) × (length s.now ≤ p → result ≡ stop) }
{
    if p < s.len() { s[p] } else { stop }
}

// Equal keys one after the other: where they end, and how many they are, capped.
#[derive(Clone, Copy)]
struct Run {
    end: usize,
    count: Capped,
}

// The run of equal keys that starts at place p. "A capped count takes one more neighbour and gives back the capped count".
fn run_from(s: &[u64], p: usize, mu: u8) -> Run
    requires { (p < length s.now) × (mu < 15) }
    ensures { Alone s.now (length s.now) p result.end × (result.count.number ≡ cap mu (result.end - p)) }
{
    let mut count = Capped::none(mu).one_more();
    for q in p + 1..s.len() {
        if s[q] != s[p] {
            return Run { end: q, count };
        }
        count = count.one_more();
    }
    Run {
        end: s.len(),
        count,
    }
}

// The rows of n items with these keys, one item after the other, and where each item's start: starts[x] for item x, starts[n] where all
// end; how many they are. The loop is `while`: an item is left where its keys end.
pub fn put_rows(s: &[u64], n: usize, mu: u8, rows: &mut [u64], starts: &mut [u16]) -> usize
    requires small { (length s.now < 65536) × (n < 65536) × (mu < 15) }
    requires room { (length s.now ≤ length rows.old) × (n < length starts.old) }
    requires sorted { (p q : ℕ) → p ≤ q → q < length s.now → get_or s.now p 0 ≤ get_or s.now q 0 }
    ensures { (result ≡ start_of mu s.now (length s.now) n)
        × (rows.new ≡ join (rows_of mu s.now (length s.now)) n ++ drop result rows.old)
        × (starts.new ≡ tab (start_of mu s.now (length s.now)) (n + 1) ++ drop (n + 1) starts.old) }
{
    let mut x = 0;
    let mut p = 0;
    let mut j = 0;
    while x <= n {
        let stop = x as u64 * KEYS;
        let v = key_or(s, p, stop);
        if v < stop {
            let run = run_from(s, p, mu);
            rows[j] = v % KEYS * 16 + run.count.number as u64;
            j += 1;
            p = run.end;
        } else {
            starts[x] = j as u16;
            x += 1;
        }
    }
    j
}
