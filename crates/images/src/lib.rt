// "the class links are exactly the images of the links": the keys of both, and whether they are the same numbers. Leans on proposed for
// the two files, on seek for keys in order.
#![tactic(auto)]

ghost use Rattle.std.specs.Prelude.{◌≡◌, ◌&&◌, ◌+◌, ◌*◌, length};
ghost use Rattle.meaning.specs.Count.{tab, each};
ghost use Rattle.meaning.specs.Register.{link_of};
ghost use Rattle.meaning.specs.Summary.{class_at};
ghost use Rattle.meaning.specs.Check.{image_stands, is_image};
ghost use Rattle.meaning.specs.RegisterFile.{register_in};
ghost use Rattle.meaning.specs.SummaryFile.{summary_in};
ghost use Rattle.reader.specs.Sized.{edge_of};
ghost use Rattle.images.specs.Keys.{key_by};

use names::Class;
use proposed::Proposal;
use reader::Summary;
use seek::Ascending;

// A class, a label and a class side by side: class links ascend by this number.
fn key_of(source: Class, label: u16, target: Class) -> u64
    ensures { result ≡ (source.0 * 65536 + label) * 65536 + target.0 }
{
    (source.0 as u64 * 65536 + label as u64) * 65536 + target.0 as u64
}

// The keys of the class links.
fn put_link_keys(s: &Summary, keys: &mut [u64])
    requires { length keys.old ≡ length (summary_in s.now.bytes.now).links }
    ensures { keys.new ≡ tab (λ j. key_by (λ c. c) (edge_of (summary_in s.now.bytes.now) j)) (length (summary_in s.now.bytes.now).links) }
{
    for (j, key) in keys.iter_mut().enumerate() {
        *key = key_of(s.link_source(j), s.link_label(j), s.link_target(j));
    }
}

// The keys of the images of the links: each end is given its class.
fn put_image_keys(p: &Proposal, keys: &mut [u64])
    requires { length keys.old ≡ p.now.register.links }
    ensures { keys.new ≡ tab (λ j. key_by (class_at (summary_in p.now.summary.bytes.now)) (link_of (register_in p.now.register.bytes.now) j))
        p.now.register.links }
{
    for (j, key) in keys.iter_mut().enumerate() {
        *key = key_of(
            p.summary.class_of(p.register.source(j)),
            p.register.label(j) as u16,
            p.summary.class_of(p.register.target(j)),
        );
    }
}

// "the class links are exactly the images of the links".
pub fn links_are_images(p: &Proposal) -> bool
    ensures { result ≡ each (image_stands (summary_in p.now.summary.bytes.now)) (register_in p.now.register.bytes.now).links
        && each (is_image (register_in p.now.register.bytes.now) (summary_in p.now.summary.bytes.now)) (summary_in p.now.summary.bytes.now).links }
{
    let mut keys = [0u64; 2048];
    let mut images = [0u64; 2048];
    same_links(
        p,
        &mut keys[..p.summary.links()],
        &mut images[..p.register.links],
    )
}

// The same, with room lent for the keys of the class links and of the images.
fn same_links(p: &Proposal, keys: &mut [u64], images: &mut [u64]) -> bool
    requires { (length keys.old ≡ length (summary_in p.now.summary.bytes.now).links) × (length images.old ≡ p.now.register.links) }
    ensures { result ≡ each (image_stands (summary_in p.now.summary.bytes.now)) (register_in p.now.register.bytes.now).links
        && each (is_image (register_in p.now.register.bytes.now) (summary_in p.now.summary.bytes.now)) (summary_in p.now.summary.bytes.now).links }
{
    put_link_keys(&p.summary, keys);
    put_image_keys(p, images);
    let links = Ascending { keys };
    links.same_members(images)
}
