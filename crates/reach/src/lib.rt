// "7: question deeper than i, or a threshold above µ + 1": whether a question is within what the summary can answer. Said here and nowhere
// else; it comes before 8 and 9.
#![tactic(auto)]

ghost use Rattle.std.specs.Prelude.{◌≡◌, ◌||◌, ◌+◌, ltb};
ghost use Rattle.meaning.specs.SummaryFile.{summary_in};

use question::Needs;
use reader::Summary;

// The question's depth and its greatest threshold, on any of its entries.
pub fn beyond(s: &Summary, needs: Needs) -> bool
    ensures { result ≡ ltb (summary_in s.now.bytes.now).level needs.depth
        || ltb ((summary_in s.now.bytes.now).near_cap + 1) needs.threshold }
{
    if (s.level() as usize) < needs.depth {
        return true;
    }
    s.near_cap() as usize + 1 < needs.threshold
}
