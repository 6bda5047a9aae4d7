// The certificate's lines one after the other.
ghost use Rattle.std.specs.Prelude.{◌≡◌, ◌≤◌, length};
ghost use Rattle.reading.specs.Lines.{CertificateRead};
ghost use Rattle.tables.specs.Tables.{lengths_of};
ghost use Rattle.tables.specs.Lent.{tables_of, SameLent};

use crate::Kind;
use lines::Lines;
use reading::Ended;
use rules::Refusal;
use tables::LentTables;

// The lines one after the other, and the end.
pub fn read_certificate<K: Kind>(
    certificate: &[u8],
    p: K::Progress,
    tables: &mut LentTables,
    work: &mut K::Work,
) -> Ended
    ensures read { length certificate.now ≤ 1048576 → CertificateRead K.rules K.code certificate.now p
        (tables_of tables.old) work.old result (tables_of tables.new) }
    ensures files { ((tables_of tables.new).prefix ≡ (tables_of tables.old).prefix)
        × ((tables_of tables.new).matrix ≡ (tables_of tables.old).matrix) }
    ensures lengths { lengths_of (tables_of tables.new) ≡ lengths_of (tables_of tables.old) }
    ensures lent { SameLent tables.old tables.new }
{
    let mut q = p;
    for (bytes, line) in Lines::new(certificate).zip(1..) {
        match K::line_keeping_lengths(bytes, q, tables, work) {
            Ok(next) => q = next,
            Err(rule) => {
                return Ended {
                    outcome: Err(Refusal { rule, line }),
                    counts: K::counts(q),
                };
            }
        }
    }
    reading::at_end(K::end(q, tables), K::counts(q))
}
