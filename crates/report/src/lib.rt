// A report as seven numbers, and as the bytes of its seven fields.
#![tactic(auto)]

ghost use Rattle.std.specs.Prelude.{◌≡◌, [], ◌∷◌, ◌+◌, ◌*◌, ◌<◌, ◌≤◌, length};
ghost use Rattle.rules.specs.Render.{word_of};
ghost use Rattle.report.specs.Fields.{seven_of, Rendered};
ghost use Rattle.report.specs.Written.{Adds, numeral, after_commas};

use rules::{Report, Verdict};

// The seven fields as numbers, the word as 1 (accepted) or 2 (refused).
#[tactic(auto, unfolding(crate::specs::Fields::seven_of))]
pub fn numbers(r: Report) -> [u32; 7]
    ensures { result ≡ seven_of r }
{
    let (word, number, file, line) = match r.verdict {
        Verdict::Accepted => (1, 0, 0, 0),
        Verdict::Refused { number, file, line } => (2, number, file, line),
    };
    [
        word,
        number,
        file,
        line,
        r.expansions,
        r.additions,
        r.deletions,
    ]
}

// The verdict's word.
fn word(v: Verdict) -> &'static [u8]
    ensures { result.now ≡ word_of v }
{
    match v {
        Verdict::Accepted => b"accepted",
        Verdict::Refused { .. } => b"refused",
    }
}

// A line as far as it is written: its bytes before `end`.
#[derive(Drop)]
struct Line {
    bytes: [u8; 75],
    end: usize,
}

// Each of these writes behind what is written.
impl Line {
    fn add(&mut self, bytes: &[u8])
        requires { self.old.end + length bytes.now ≤ 75 }
        ensures { Adds self.old bytes.now self.new }
    {
        let end = self.end + bytes.len();
        self.bytes[self.end..end].copy_from_slice(bytes);
        self.end = end;
    }

    // A number in base ten.
    fn decimal(&mut self, n: u32)
        requires { self.old.end + length (numeral n) ≤ 75 }
        ensures { Adds self.old (numeral n) self.new }
    {
        if 9 < n {
            self.decimal(n / 10);
        }
        self.add(&[b'0' + (n % 10) as u8]);
    }

    // Each number after a comma.
    fn fields(&mut self, fields: &[u32])
        requires { self.old.end + 11 * length fields.now ≤ 75 }
        ensures { Adds self.old (after_commas fields.now) self.new
            × (self.new.end ≤ self.old.end + 11 * length fields.now) }
    {
        for &n in fields {
            self.add(b",");
            self.decimal(n);
        }
    }
}

// The seven fields parted by commas, then byte 10; the answer is the count of these bytes.
pub fn render_report(r: Report, out: &mut [u8; 96]) -> usize
    ensures { Rendered r out.old out.new result }
{
    let mut line = Line {
        bytes: [0; 75],
        end: 0,
    };
    line.add(word(r.verdict));
    line.fields(&numbers(r)[1..]);
    line.add(b"\n");
    let written = &line.bytes[..line.end];
    out[..written.len()].copy_from_slice(written);
    written.len()
}
