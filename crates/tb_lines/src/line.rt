// A line by itself.

ghost use Rattle.std.specs.Prelude.{◌≡◌};
ghost use Rattle.tb_lines.specs.Lines as lines;

use tb_base::are_blanks;

/// Whether a line is passed over: it has blanks alone, or its first byte is `#`.
pub fn is_passed_over(line: &[u8]) -> bool
    ensures { result ≡ lines.is_passed_over line.now }
{
    are_blanks(line) || line.first() == Some(&b'#')
}
