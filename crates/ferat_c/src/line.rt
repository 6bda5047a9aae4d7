// The call for a line's bytes, with C's calling convention.
ghost use Rattle.lines.specs.Parts.{file_of};
ghost use Rattle.ferat_c.specs.Ends.{LineEnds};

// THE LINE: its start and its end in the formula (file 1) or in the certificate (any other number).
#[unsafe(no_mangle)]
pub extern "C" fn hutsvida_line(
    formula: &[u8],
    certificate: &[u8],
    file: u32,
    line: usize,
    ends: &mut [usize; 2],
)
    ensures { LineEnds (file_of file formula.entry certificate.entry).now line ends.new }
{
    let bytes = if file == 1 { formula } else { certificate };
    let start = lines::line_start(bytes, line);
    *ends = [start, lines::line_end(bytes, start)];
}
