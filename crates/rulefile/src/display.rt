// Cards as text. A name's bytes are written as the characters that they number.
ghost use Rattle.std.specs.Prelude.{◌≡◌, IfSome};
ghost use Rattle.std.proofs.Math.Utf8.{encodes};
ghost use Rattle.std.specs.Fmt.{WritesOnOk};
ghost use Rattle.rulefile.specs.Text.{name_text, named_text};

use crate::card::Named;
use std::{fmt, str};

// Writes a name after a space, and nothing where there is none.
fn write_name<W: fmt::Write>(f: &mut fmt::Formatter<W>, name: &[u8]) -> fmt::Result
    ensures { WritesOnOk W.write_str_gives f.old result (name_text name.now) f.new }
{
    if name.is_empty() {
        return Ok(());
    }
    write!(f, " ")?;
    write_characters(f, name)
}

// A name as text, where it is in ASCII: there each byte is spelt as it stands. Every name of a good file is.
#[tactic(auto, using(crate::proofs::Characters::ascii_alike))]
fn in_ascii(name: &[u8]) -> Option<&str>
    ensures { IfSome result (λ text. text.now ≡ encodes name.now) }
{
    if name.is_ascii() {
        str::from_utf8(name).ok()
    } else {
        None
    }
}

// Writes the characters of a name: at once where they are in ASCII, and else one by one.
fn write_characters<W: fmt::Write>(f: &mut fmt::Formatter<W>, name: &[u8]) -> fmt::Result
    ensures { WritesOnOk W.write_str_gives f.old result (encodes name.now) f.new }
{
    match in_ascii(name) {
        Some(text) => f.write_str(text),
        None => write_each(f, name),
    }
}

// Writes the characters of a name, one by one.
fn write_each<W: fmt::Write>(f: &mut fmt::Formatter<W>, name: &[u8]) -> fmt::Result
    ensures { WritesOnOk W.write_str_gives f.old result (encodes name.now) f.new }
{
    for byte in name {
        write!(f, "{}", char::from(*byte))?;
    }
    Ok(())
}

// A value and its name, as in `cost 10 chance 20 a` for a line and `start a` for a state.
impl<T: fmt::Display> fmt::Display for Named<'_, T> {
    ghost output = { λ card. named_text (T.output card.value) card.name.now };

    fn fmt<W: fmt::Write>(&self, f: &mut fmt::Formatter<W>) -> fmt::Result {
        write!(f, "{}", self.value)?;
        write_name(f, self.name)
    }
}
