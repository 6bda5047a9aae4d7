// The program: loads the two files of the working folder, checks them and writes the verdict's line.
#![tactic(auto)]

ghost use Rattle.std.specs.Io.KnownBytes.{Consumes};
ghost use Rattle.std.specs.Prelude.{◌≡◌, ◌≤◌, length, take, IfSome, OnOk};
ghost use Rattle.tables.specs.Lent.{tables_of, SameLent};
ghost use Rattle.verdict.specs.Program.{ReportedIn, Loaded, Printed, held_in};

use reading::refused_early;
use rules::{Report, Rule};
use std::io::Read;
use std::rt::Files;
use std::{fs, io};
use tables::LentTables;

// The program holds so many bytes of each file.
const FORMULA: usize = 16384;

const CERTIFICATE: usize = 65536;

// Each of its tables has so many places.
const PLACES: usize = 16384;

// What is loaded of a file: so many bytes at the start of a buffer.
#[derive(Drop)]
struct Contents<const N: usize> {
    bytes: [u8; N],
    count: usize,
}

impl<const N: usize> Contents<N> {
    // Loads a file from its start; one that does not open, or cannot be read, is empty. Where a read fails part way, the bytes read so far
    // count. The buffer is the caller's: one that is returned would stand on the stack twice.
    fn load(&mut self, files: &impl Files, path: &str)
        ensures { self.new.count ≤ N }
    {
        self.count = 0;
        if let Ok(mut file) = fs::open(files, path) {
            (self.count, _) = read_full(&mut file, &mut self.bytes);
        }
    }

    // The bytes that are loaded.
    fn loaded(&self) -> &[u8]
        ensures { result.now ≡ take self.now.count self.now.bytes }
    {
        self.bytes.get(..self.count).unwrap_or(&self.bytes)
    }
}

// Reads until the bytes are full, the reader ends or a read fails, and answers how many bytes it put at their start, and the failure.
fn read_full<R: Read>(reader: &mut R, bytes: &mut [u8]) -> (usize, io::Result<()>)
    ensures fits { result.0 ≤ length bytes.new }
    ensures read { Consumes (R.remaining reader.old) (R.remaining reader.new) (take result.0 bytes.new) }
    ensures loaded { OnOk result.1 (IfSome (R.remaining reader.old) (Loaded bytes.new result.0)) }
{
    let mut done = 0;
    while done < bytes.len() {
        match reader.read(&mut bytes[done..]) {
            Ok(0) => return (done, Ok(())),
            Ok(n) => done += n,
            Err(e) => return (done, Err(e)),
        }
    }
    (done, Ok(()))
}

// The report of two files under the program's limits.
fn report_of(formula: &[u8], certificate: &[u8], tables: &mut LentTables) -> Report
    ensures reported { ReportedIn formula.now certificate.now
        (tables_of tables.old) result (tables_of tables.new) }
    ensures lent { SameLent tables.old tables.new }
{
    if FORMULA < formula.len() {
        return refused_early(Rule::Overlong.into(), 1);
    }
    if CERTIFICATE < certificate.len() {
        return refused_early(Rule::Overlong.into(), 2);
    }
    ferat::check(formula, certificate, tables)
}

// The six tables of the program.
#[derive(Drop)]
struct Held {
    prefix: [i32; PLACES],
    matrix: [i32; PLACES],
    map: [i32; PLACES],
    proof: [i32; PLACES],
    marks: [i32; PLACES],
    values: [i32; PLACES],
}

// THE LINE TO PRINT for two files of which the contents are loaded, written to `out`; the answer is the count of its bytes. Each buffer has
// room for one byte more than the program holds, which tells a longer file.
fn verdict_line(
    formula: &Contents<16385>,
    certificate: &Contents<65537>,
    held: &mut Held,
    out: &mut [u8; 96],
) -> usize
    ensures { Printed formula.now certificate.now (held_in held.old) out.old (held_in held.new) out.new result }
{
    let mut tables = LentTables {
        prefix: &mut held.prefix,
        matrix: &mut held.matrix,
        map: &mut held.map,
        proof: &mut held.proof,
        marks: &mut held.marks,
        values: &mut held.values,
    };
    let r = report_of(formula.loaded(), certificate.loaded(), &mut tables);
    report::render_report(r, out)
}

fn main(rt: HostRuntime) -> io::Result<()> {
    // All is cleared before the first file is opened; what is cleared later is cleared twice.
    let mut formula = Contents {
        bytes: [0; 16385],
        count: 0,
    };
    let mut certificate = Contents {
        bytes: [0; 65537],
        count: 0,
    };
    let mut held = Held {
        prefix: [0; PLACES],
        matrix: [0; PLACES],
        map: [0; PLACES],
        proof: [0; PLACES],
        marks: [0; PLACES],
        values: [0; PLACES],
    };
    let mut line = [0; 96];
    formula.load(&rt, "formula.qdimacs");
    certificate.load(&rt, "proof.ferat");
    let n = verdict_line(&formula, &certificate, &mut held, &mut line);
    rt.write_all(&line[0..n])
}
