//! White space and comments, which stand between tokens.

ghost use Rattle.std.specs.Prelude.{◌≡◌, nat_eq, ◌||◌};
ghost use Rattle.asm_terms.specs.Blanks.{is_blank as blank, skip_blank as behind_blank};

use crate::reader::Reader;

/// White space: the characters 9 to 13 and 32.
pub(crate) fn is_blank(c: char) -> bool
    ensures { result ≡ blank c }
{
    matches!(c, '\t'..='\r' | ' ')
}

/// The space and the comments that come next are taken.
pub(crate) fn skip_blank(reader: &mut Reader<'_>)
    ensures { reader.new ≡ behind_blank reader.old }
{
    let mut in_comment = false;
    while let Some(c) = reader.peek() {
        if in_comment {
            in_comment = c != '\n';
        } else if c == '%' {
            in_comment = true;
        } else if !is_blank(c) {
            return;
        }
        let _ = reader.next();
    }
}
