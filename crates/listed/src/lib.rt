// The items of a summary whose class passes, ascending and each once: "A list is two bytes an item". A class is asked once and not once an
// item, so the answers come by class. Leans on reader for the map and on wire for the bytes.
#![tactic(auto)]

ghost use Rattle.std.specs.Prelude.{◌≡◌, true, ◌≤◌, length, take};
ghost use Rattle.meaning.specs.Bytes.{put2, pack};
ghost use Rattle.meaning.specs.SummaryFile.{summary_in, well_formed_file};
ghost use Rattle.meaning.specs.Answers.{into};
ghost use Rattle.said.specs.Written.{Gives};
ghost use Rattle.listed.specs.Passing.{passing};

use meaning::Refusal;
use names::Item;
use reader::Summary;

// How many they are; their numbers are left at the start of `out`.
#[tactic(auto, using(crate::proofs::Laws::listed), unfolding(meaning::specs::Count::those))]
pub fn put_items(s: &Summary, answers: &[bool], out: &mut [u16]) -> usize
    requires { (well_formed_file s.now.bytes.now ≡ true)
        × (length (summary_in s.now.bytes.now).classes ≤ length answers.now) × (length out.old ≡ 1024) }
    ensures { (result ≡ length (passing s.now.bytes.now answers.now))
        × (take result out.new ≡ passing s.now.bytes.now answers.now) }
{
    let mut r = 0;
    for x in 0..s.items() as u16 {
        let class = s.class_of(Item(x));
        if answers[class.index()] {
            out[r] = x;
            r += 1;
        }
    }
    r
}

// "9: output buffer shorter than the answer", known before a byte is written; "A list is two bytes an item".
pub fn put_list(named: &[u16], out: &mut [u8]) -> Result<usize, Refusal>
    requires { length named.now ≤ 1024 }
    ensures { Gives result out.old out.new (into (length out.old) (pack put2 named.now)) }
{
    let long = 2 * named.len();
    if out.len() < long {
        return Err(Refusal::Room);
    }
    wire::put_numbers(out, 0, named);
    Ok(long)
}
