// Reading alone, with C's calling convention: every line of a file is read, and the literals that it begins with; kept is the largest of them alone.
#![tactic(auto)]

ghost use Rattle.std.specs.Prelude.{◌≡◌};
ghost use Rattle.lines.specs.Lines.{read_line, lines_of};
ghost use Rattle.lines.specs.Scan.{tokens_from};
ghost use Rattle.lines_c.specs.Largest.{largest, in_line, in_lines};

use lines::{Head, Lines, Literals};

// The largest code among the literals of a line, up to the first token that is none.
fn in_tokens(line: &[u8]) -> u32
    ensures { result ≡ largest (tokens_from line.now 0) }
{
    Literals::new(line, 0).fold(0, |most, (x, _)| x.max(most))
}

fn in_line(line: &[u8]) -> u32
    ensures { result ≡ in_line (read_line line.now) }
{
    match lines::line_head(line) {
        Head::Skipped => 0,
        Head::Letter(_, _) => in_tokens(line),
        Head::Other => in_tokens(line),
    }
}

#[unsafe(no_mangle)]
pub extern "C" fn hutsvida_largest(file: &[u8]) -> u32
    ensures { result ≡ in_lines (lines_of file.now) }
{
    Lines::new(file).fold(0, |most, line| in_line(line).max(most))
}
