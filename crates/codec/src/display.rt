// The layers of faults as text.
ghost use Rattle.std.specs.Prelude.{Some};
ghost use Rattle.codec.specs.Text.{layer_text};

use crate::fault::Layer;
use std::fmt;

// A layer, in one word.
impl fmt::Display for Layer {
    ghost output = { λ layer. Some (layer_text layer) };

    fn fmt<W: fmt::Write>(&self, f: &mut fmt::Formatter<W>) -> fmt::Result {
        f.write_str(match self {
            Layer::Number => "number",
            Layer::Card => "card",
            Layer::File => "file",
        })
    }
}
