// The highest forest number, and the marks of the cut.
ghost use Rattle.std.specs.Prelude.{◌≤◌, map, ◌≡◌, length, take};
ghost use Rattle.definitions.specs.Lists.{total, greatest};
ghost use Rattle.definitions.specs.Forests.{mark_of};

// The highest of the numbers, 0 of none.
pub(crate) fn highest(forests: &[u16]) -> u16
    ensures { result ≡ greatest forests.now }
{
    forests.iter().copied().max().unwrap_or(0)
}

// 1 for a link of forests 1 to k, which is kept, 0 for another.
fn mark(k: u16, forest: u16) -> u16
    ensures { result ≡ mark_of k forest }
{
    if 1 <= forest && forest <= k { 1 } else { 0 }
}

// How many of the first `count` links are kept, by their forest numbers.
pub fn kept_links(count: usize, k: u16, forests: &[u16]) -> u16
    requires { (count ≤ 3000) × (count ≤ length forests.now) }
    ensures { result ≡ total (map (mark_of k) (take count forests.now)) }
{
    let mut kept = 0;
    for &forest in &forests[..count] {
        kept += mark(k, forest);
    }
    kept
}

// Forest numbers become marks; gives how many are kept.
pub(crate) fn mark_links(k: u16, marks: &mut [u16]) -> u16
    requires { length marks.old ≤ 3000 }
    ensures value { result ≡ total (map (mark_of k) marks.old) }
    ensures marks_left { marks.new ≡ map (mark_of k) marks.old }
{
    let mut kept = 0;
    for entry in marks {
        *entry = mark(k, *entry);
        kept += *entry;
    }
    kept
}
