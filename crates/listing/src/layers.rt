ghost use Rattle.std.specs.Prelude.{Some};
ghost use Rattle.listing.specs.Lines.{layers_text};

use schedule::report::Layer;
use std::fmt;

// The names of layers, with commas between them.
#[derive(Clone, Copy)]
pub(crate) struct Layers<'a>(pub(crate) &'a [Layer]);

impl fmt::Display for Layers<'_> {
    ghost output = { λ l. Some (layers_text l.0.now) };

    fn fmt<W: fmt::Write>(&self, f: &mut fmt::Formatter<W>) -> fmt::Result {
        let [first, further @ ..] = self.0 else {
            return Ok(());
        };
        write!(f, "{first}")?;
        for layer in further {
            write!(f, ", {layer}")?;
        }
        Ok(())
    }
}
