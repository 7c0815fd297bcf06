// Comment lines, wherever they stand, and the lines of two numbers behind them.
ghost use Rattle.std.specs.Prelude.{◌≡◌, ◌-◌, ◌≤◌, length};
ghost use Rattle.definitions.specs.Dimacs.{problem_form, edge_form, behind_words, scan_comment, scan_comments, scan_line};
ghost use Rattle.text.specs.Scans.{word_gives, pair_gives};

use text::scan;
use text::scan::Departure;

// The offset of the first line end from `at` on, or the text's length.
fn behind_words(text: &[u8], at: usize) -> usize
    requires { at ≤ length text.now }
    ensures { result ≡ behind_words text.now at (length text.now - at) }
{
    for p in at..text.len() {
        if text[p] == b'\n' {
            return p;
        }
    }
    text.len()
}

// A comment line.
fn comment(text: &[u8], at: usize) -> Result<usize, Departure>
    ensures { word_gives result ≡ scan_comment text.now at }
{
    let p = scan::word(text, b"c", at)?;
    let end = if scan::byte(text, p) == b' ' {
        behind_words(text, p + 1)
    } else {
        p
    };
    scan::word(text, b"\n", end)
}

// All comment lines from an offset on: as many as there are, so there is no range.
pub(crate) fn comments(text: &[u8], at: usize) -> Result<usize, Departure>
    ensures { word_gives result ≡ scan_comments text.now at (length text.now) }
{
    let mut p = at;
    while scan::byte(text, p) == b'c' {
        p = comment(text, p)?;
    }
    Ok(p)
}

// `p edge N M` behind the comments at the front of the text. This line and the next are functions of their own, each called once, so that
// the compiler takes them in where they are called and hands no answer on through memory.
pub(crate) fn problem_line(text: &[u8]) -> Result<(u16, u16, usize), Departure>
    ensures { pair_gives result ≡ scan_line text.now problem_form 0 }
{
    let p = comments(text, 0)?;
    scan::pair_line(text, b"p edge ", b" ", b"\n", p)
}

// `e U V` behind comments.
pub(crate) fn edge_line(text: &[u8], at: usize) -> Result<(u16, u16, usize), Departure>
    ensures { pair_gives result ≡ scan_line text.now edge_form at }
{
    let p = comments(text, at)?;
    scan::pair_line(text, b"e ", b" ", b"\n", p)
}
