// The class links of a summary: "source class, label, target class; present exactly when some member of the first has such a link to
// some member of the second". One key for each link of the register, the keys in order, each different one written: linear in the
// links. Leans on radix for the order and on register for the links.
#![tactic(auto)]

ghost use Rattle.std.specs.Prelude.{◌≡◌, ◌+◌, ◌*◌, ◌≤◌, ◌<◌, length, take};
ghost use Rattle.std.proofs.lemmas.List.Edits.{sets};
ghost use Rattle.meaning.specs.Count.{tab, Every};
ghost use Rattle.meaning.specs.Register.{link_of};
ghost use Rattle.meaning.specs.Level.{class_count};
ghost use Rattle.meaning.specs.Condense.{by};
ghost use Rattle.meaning.specs.Bytes.{pack};
ghost use Rattle.meaning.specs.RegisterFile.{register_in};
ghost use Rattle.summary.specs.Numbers.{edge_numbers};
ghost use Rattle.edges.specs.Keys.{class_links as class_links_word, key_of as key_of_word, unkeyed, distinct};

use names::{Class, Item};
use register::Register;

// The class links of the items of the given classes, three numbers for each, and how many they are.
pub fn class_links(reg: &Register, classes: &[u16], out: &mut [u16]) -> usize
    requires { (length classes.now ≡ reg.now.items) × (class_count classes.now ≤ 1024) × (length out.old ≡ 6144) }
    ensures { (result ≡ length (class_links_word (register_in reg.now.bytes.now) classes.now))
        × (take (3 * result) out.new ≡ pack edge_numbers (class_links_word (register_in reg.now.bytes.now) classes.now)) }
{
    let mut keys = [0u64; 2048];
    put_class_links(reg, classes, &mut keys[..reg.links], out)
}

// The same, with room lent for a key of each link.
fn put_class_links(reg: &Register, classes: &[u16], keys: &mut [u64], out: &mut [u16]) -> usize
    requires { (length classes.now ≡ reg.now.items) × (class_count classes.now ≤ 1024) × (length keys.old ≡ reg.now.links)
        × (length out.old ≡ 6144) }
    ensures { (result ≡ length (class_links_word (register_in reg.now.bytes.now) classes.now))
        × (take (3 * result) out.new ≡ pack edge_numbers (class_links_word (register_in reg.now.bytes.now) classes.now)) }
{
    let mut room = [0u64; 2048];
    put_keys(reg, classes, keys);
    radix::sort(keys, &mut room);
    put_links(keys, out)
}

// The key of each link, in the order of the links.
fn put_keys(reg: &Register, classes: &[u16], keys: &mut [u64])
    requires { (length classes.now ≡ reg.now.items) × (class_count classes.now ≤ 1024) × (length keys.old ≡ reg.now.links) }
    ensures { keys.new ≡ tab (λ k. key_of_word classes.now (link_of (register_in reg.now.bytes.now) k)) reg.now.links }
{
    for (k, key) in keys.iter_mut().enumerate() {
        *key = key_of(reg, k, classes);
    }
}

// "source class, label, target class" of link k as one number: labels are below 16, classes below 1,024.
fn key_of(reg: &Register, k: usize, classes: &[u16]) -> u64
    requires { (k < reg.now.links) × (length classes.now ≡ reg.now.items) × (class_count classes.now ≤ 1024) }
    ensures { result ≡ key_of_word classes.now (link_of (register_in reg.now.bytes.now) k) }
{
    let source = class_at(classes, reg.source(k)).index() as u64;
    let label = reg.label(k) as u64;
    let target = class_at(classes, reg.target(k)).index() as u64;
    (source * 16 + label) * 1024 + target
}

// The class of item x.
fn class_at(classes: &[u16], x: Item) -> Class
    requires { (class_count classes.now ≤ 1024) × (x.0 < length classes.now) }
    ensures { (result.0 ≡ by classes.now x.0) × (result.0 < 1024) }
{
    Class(classes[x.index()])
}

// The class link of every key that differs from those before it: keys are in order, so it is above the last one written.
fn put_links(keys: &[u64], out: &mut [u16]) -> usize
    requires { (length keys.now ≤ 2048) × (length out.old ≡ 6144) × Every (λ v. v < 16777216) keys.now }
    ensures { (result ≡ length (distinct 0 keys.now))
        × (take (3 * result) out.new ≡ pack edge_numbers (distinct 0 keys.now)) }
{
    let mut least: u64 = 0;
    let mut r = 0;
    for v in keys {
        if least <= *v {
            put_link(out, r, *v);
            least = *v + 1;
            r += 1;
        }
    }
    r
}

// The three numbers of class link r.
fn put_link(out: &mut [u16], r: usize, v: u64)
    requires { (3 * r + 3 ≤ length out.old) × (v < 16777216) }
    ensures { out.new ≡ sets out.old (3 * r) (edge_numbers (unkeyed v)) }
{
    let at = 3 * r;
    out[at] = (v / 16384) as u16;
    out[at + 1] = (v / 1024 % 16) as u16;
    out[at + 2] = (v % 1024) as u16;
}
